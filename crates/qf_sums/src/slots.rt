// The open parameters of a problem.

use qf_base::{List, NoMemory, PBox, Point};
use std::alloc::Global;

/// An interval of values: the least and the greatest.
pub type Span = (i64, i64);

const MOST_SLOTS: usize = 64;

/// The first 64 open parameters of a box. They count from 0 here, in the order of their numbers, and such a number is a slot.
#[derive(Drop)]
pub struct Slots {
    places: Vec<u32>,
    olds: Vec<i64>,
    by_place: Vec<Option<u32>>,
}

/// The value of a span that is nearest to an old constant.
pub fn nearest(old: i64, span: Span) -> i64 {
    if old < span.0 {
        span.0
    } else if span.1 < old {
        span.1
    } else {
        old
    }
}

/// The value in a slot, 0 where there is none.
pub fn value_at(point: &[i64], slot: usize) -> i64 {
    point.get(slot).copied().unwrap_or(0)
}

/// The span of a slot, that of 0 alone where there is none.
pub fn span_at(spans: &[Span], slot: usize) -> Span {
    spans.get(slot).copied().unwrap_or((0, 0))
}

impl Slots {
    fn empty(alloc: Global) -> Slots {
        Slots {
            places: Vec::new(alloc),
            olds: Vec::new(alloc),
            by_place: Vec::new(alloc),
        }
    }

    fn push(&mut self, place: u32, span: Span, old: i64) -> Result<(), NoMemory> {
        let count = self.places.len();
        if span.0 == span.1 || count >= MOST_SLOTS {
            self.by_place.push(None)?;
            return Ok(());
        }
        self.by_place.push(Some(count as u32))?;
        self.places.push(place)?;
        self.olds.push(old)?;
        Ok(())
    }

    fn fill(&mut self, olds: &[i64], region: &PBox) -> Result<(), NoMemory> {
        for place in 0..region.len() {
            self.push(place, region.get(place), value_at(olds, place as usize))?;
        }
        Ok(())
    }

    /// The slots of a box, where the parameters have these old constants.
    pub fn new(alloc: Global, olds: &[i64], region: &PBox) -> Result<Slots, NoMemory> {
        let mut slots = Slots::empty(alloc);
        slots.fill(olds, region)?;
        Ok(slots)
    }

    /// The slot of a parameter, which counts from 1.
    pub fn slot_of(&self, param: u32) -> Option<u32> {
        let place = param.checked_sub(1)?;
        self.by_place.get(place as usize).copied()?
    }

    /// The parameter of a slot, from 1.
    pub fn param_of(&self, slot: u32) -> Option<u32> {
        let place = self.places.get(slot as usize).copied()?;
        place.checked_add(1)
    }

    /// The spans of a box, by slots.
    pub fn spans_of(&self, alloc: Global, region: &PBox) -> Result<Vec<Span>, NoMemory> {
        let mut spans = Vec::new(alloc);
        for place in self.places.as_slice() {
            spans.push(span_at(region.as_slice(), *place as usize))?;
        }
        Ok(spans)
    }

    /// The cheapest point of a box, by slots.
    pub fn cheapest(&self, alloc: Global, spans: &[Span]) -> Result<Vec<i64>, NoMemory> {
        let mut point = Vec::new(alloc);
        for slot in 0..self.olds.len() {
            point.push(nearest(self.olds[slot], span_at(spans, slot)))?;
        }
        Ok(point)
    }

    /// What a point costs.
    pub fn cost(&self, point: &[i64]) -> u64 {
        let mut cost: u64 = 0;
        for slot in 0..self.olds.len() {
            let value = value_at(point, slot);
            cost = cost.saturating_add(value.abs_diff(self.olds[slot]));
        }
        cost
    }

    /// The point with these values in the slots, and else the old constants.
    pub fn whole(&self, alloc: Global, olds: &List<i64>, point: &[i64]) -> Result<Point, NoMemory> {
        let mut whole = Point::new(alloc, olds)?;
        for slot in 0..self.places.len() {
            let place = self.places[slot];
            if u64::from(place) < whole.len() {
                whole.set(place, value_at(point, slot));
            }
        }
        Ok(whole)
    }
}
