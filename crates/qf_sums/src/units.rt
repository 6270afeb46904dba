// What one statement adds to a row.

use crate::slots::Span;

/// A statement that adds an amount to a row where the parameter in a slot is on one side of a threshold.
#[derive(Clone, Copy)]
pub struct Unit {
    pub slot: u32,
    pub threshold: i64,
    /// Whether it adds where the parameter is at most the threshold; else it adds above it.
    pub adds_low: bool,
    pub amount: i64,
}

impl Unit {
    /// Whether it adds at this value of the parameter.
    pub fn adds(&self, value: i64) -> bool {
        (value <= self.threshold) == self.adds_low
    }

    /// Whether it adds at all values of a span, or at none; else nothing.
    pub fn adds_over(&self, span: Span) -> Option<bool> {
        if span.1 <= self.threshold {
            Some(self.adds_low)
        } else if self.threshold < span.0 {
            Some(!self.adds_low)
        } else {
            None
        }
    }
}
