// By which row and policy the parent of a box was cut.

use qf_base::NoMemory;
use qf_sums::{Policy, Span};
use std::alloc::Global;

const ENTRIES: usize = 1 << 14;

/// The place of a row, and a policy.
#[derive(Clone, Copy)]
pub struct Hint {
    pub row: usize,
    pub policy: Policy,
}

/// The hints of the boxes that were made last. Two boxes seldom share a place.
#[derive(Drop)]
pub struct Hints {
    entries: Vec<Option<(u64, Hint)>>,
}

fn mixed(sum: u64, value: i64) -> u64 {
    let next = (sum ^ value.cast_unsigned()).wrapping_mul(0x9E37_79B9_7F4A_7C15);
    next ^ (next >> 31)
}

/// A number by which boxes are told apart.
pub fn mark_of(spans: &[Span]) -> u64 {
    let mut mark = 0xCBF2_9CE4_8422_2325;
    for span in spans {
        mark = mixed(mixed(mark, span.0), span.1);
    }
    mark
}

fn place_of(mark: u64) -> usize {
    (mark >> 50) as usize
}

impl Hints {
    /// No hints.
    pub fn new(alloc: Global) -> Result<Hints, NoMemory> {
        Ok(Hints {
            entries: vec![in alloc; None::<(u64, Hint)>; ENTRIES]?,
        })
    }

    /// The hint of a box.
    pub fn get(&self, spans: &[Span]) -> Option<Hint> {
        let mark = mark_of(spans);
        let (found, hint) = self.entries.get(place_of(mark)).copied()??;
        if found == mark { Some(hint) } else { None }
    }

    /// Keeps the hint of a box.
    pub fn put(&mut self, spans: &[Span], hint: Hint) {
        let mark = mark_of(spans);
        if let Some(entry) = self.entries.get_mut(place_of(mark)) {
            *entry = Some((mark, hint));
        }
    }
}
