// Rows that add up.

use crate::mask::only;
use crate::slots::{Span, span_at, value_at};
use crate::units::Unit;

/// A row that meets its goal exactly where its units add up to the target. The units stand in the order of statements, which
/// is that of their slots; each has a slot of its own.
#[derive(Drop)]
pub struct Form {
    /// The number of the amounts that the row shares with others.
    pub class: u32,
    pub target: i64,
    pub units: Vec<Unit>,
}

impl Form {
    /// Whether the row meets its goal at a point.
    pub fn is_met(&self, point: &[i64]) -> bool {
        let mut rest = self.target;
        for unit in self.units.as_slice() {
            if unit.adds(value_at(point, unit.slot as usize)) {
                rest = rest.saturating_sub(unit.amount);
            }
        }
        rest == 0
    }

    /// The slots whose units are undecided over a box, and what they have to add up to.
    pub fn left(&self, spans: &[Span]) -> (u64, i64) {
        let mut open = 0;
        let mut rest = self.target;
        for unit in self.units.as_slice() {
            match unit.adds_over(span_at(spans, unit.slot as usize)) {
                Some(true) => rest = rest.saturating_sub(unit.amount),
                Some(false) => {}
                None => open |= only(unit.slot),
            }
        }
        (open, rest)
    }
}
