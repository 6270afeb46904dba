// Where a box is cut for a toggle.

use qf_base::NoMemory;
use qf_sums::{Span, Toggle, span_at, value_at};
use std::alloc::Global;

/// A cut of a box at a slot: the lower half has the values up to the cut.
#[derive(Clone, Copy)]
pub struct Cut {
    pub slot: u32,
    pub cut: i64,
}

// Whether a point with another value in one slot is not before an answer.
fn is_not_before(point: &[i64], slot: u32, value: i64, answer: &[i64]) -> bool {
    for place in 0..point.len() {
        let own = if place == slot as usize {
            value
        } else {
            point[place]
        };
        let other = value_at(answer, place);
        if own != other {
            return other < own;
        }
    }
    true
}

// The parameter's value after so many steps in the toggle's direction.
fn moved(toggle: &Toggle, value: i64, steps: u64) -> i64 {
    let steps = i64::try_from(steps).unwrap_or(i64::MAX);
    if toggle.raises {
        value.saturating_add(steps)
    } else {
        value.saturating_sub(steps)
    }
}

// The cut that leaves the moved value on the outer side, or on the inner side.
fn cut_at(toggle: &Toggle, value: i64, is_outer: bool) -> i64 {
    if toggle.raises == is_outer {
        value.saturating_sub(1)
    } else {
        value
    }
}

/// The cut for a toggle, where a point may cost so much more than the cheapest one of the box. A toggle that costs more is
/// cut where its far half is just too dear for that, which serves all other toggles of the parameter too. Where an answer is
/// known, a half in which all that is as cheap comes after the answer is too dear as well.
pub fn cut_of(toggle: &Toggle, point: &[i64], slack: u64, answer: Option<&[i64]>) -> Cut {
    let slot = toggle.slot;
    let far = moved(toggle, value_at(point, slot as usize), slack);
    let is_late = match answer {
        Some(answer) => 0 < slack && is_not_before(point, slot, far, answer),
        None => false,
    };
    let cut = if slack <= toggle.cost && is_late {
        cut_at(toggle, far, true)
    } else if slack < toggle.cost {
        cut_at(toggle, far, false)
    } else {
        toggle.cut
    };
    Cut { slot, cut }
}

impl Cut {
    /// Whether both halves of the box have points.
    pub fn is_inside(&self, spans: &[Span]) -> bool {
        let (low, high) = span_at(spans, self.slot as usize);
        low <= self.cut && self.cut < high
    }

    /// One half of a box.
    pub fn half(
        &self,
        alloc: Global,
        spans: &[Span],
        is_upper: bool,
    ) -> Result<Vec<Span>, NoMemory> {
        let mut half = Vec::from_slice(alloc, spans)?;
        if let Some(span) = half.get_mut(self.slot as usize) {
            *span = if is_upper {
                (self.cut.saturating_add(1), span.1)
            } else {
                (span.0, self.cut)
            };
        }
        Ok(half)
    }
}
