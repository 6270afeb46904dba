// The open boxes of a search, the cheapest first.

use crate::hints::Hint;
use qf_base::NoMemory;
use qf_sums::{Slots, Span};
use std::alloc::Global;
use std::collections::BTreeMap;

/// What a box's cheapest point costs, that point, and a number of the box. Keys are ordered as points are.
#[derive(PartialEq, Eq, PartialOrd, Ord, Drop)]
pub struct Key {
    pub cost: u64,
    pub point: Vec<i64>,
    number: u64,
}

/// An open box, and the hint of its parent.
#[derive(Drop)]
pub struct Work {
    pub spans: Vec<Span>,
    pub hint: Option<Hint>,
}

/// Open boxes by their keys.
#[derive(Drop)]
pub struct Queue {
    open: BTreeMap<Key, Work>,
    made: u64,
}

impl Queue {
    /// No boxes.
    pub fn new(alloc: Global) -> Queue {
        Queue {
            open: BTreeMap::new(alloc),
            made: 0,
        }
    }

    /// Adds a box.
    pub fn push(
        &mut self,
        alloc: Global,
        slots: &Slots,
        spans: Vec<Span>,
        hint: Option<Hint>,
    ) -> Result<(), NoMemory> {
        let point = slots.cheapest(alloc, spans.as_slice())?;
        let key = Key {
            cost: slots.cost(point.as_slice()),
            point,
            number: self.made,
        };
        self.made = self.made.saturating_add(1);
        self.open.insert(key, Work { spans, hint })?;
        Ok(())
    }

    /// Takes out the cheapest box.
    pub fn pop(&mut self) -> Option<(Key, Work)> {
        self.open.pop_first()
    }
}
