// What is known of rows.

use crate::rows::Rows;
use qf_sums::{Closings, Slots, Span};

// So many cases are taken to close a box for a row that does not add up.
const CASES: u32 = 100;

/// What is known of the rows: what they add up to, and which sums cannot be given.
#[derive(Drop)]
pub struct Known {
    pub rows: Rows,
    pub closings: Closings,
    /// How many definitions were looked at so far for rows that do not add up.
    pub spent: u64,
}

impl Known {
    /// Counts definitions that were looked at so many times.
    pub fn spend(&mut self, definitions: usize, times: u64) {
        self.spent = self
            .spent
            .saturating_add(times.saturating_mul(definitions as u64));
    }

    /// How many cases close a box for the row at a place, as far as that is known; 0 where they do not.
    pub fn cases(&mut self, slots: &Slots, row: usize, spans: &[Span]) -> u32 {
        let Some(form) = self.rows.form(row) else {
            return match self.rows.wired(row) {
                Some(wired) => CASES * u32::from(wired.closes(slots, spans)),
                None => 0,
            };
        };
        let (open, rest) = form.left(spans);
        let amounts = self.rows.amounts(form.class);
        self.closings.leaves(form.class, &amounts, open, rest)
    }

    /// Whether cases close a box for one of these rows.
    pub fn is_closed(&mut self, slots: &Slots, missing: &[usize], spans: &[Span]) -> bool {
        for row in missing {
            if 0 < self.cases(slots, *row, spans) {
                return true;
            }
        }
        false
    }
}
