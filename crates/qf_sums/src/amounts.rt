// What statements add, by the slots of their parameters.

use crate::mask::{greatest, without};
use crate::units::Unit;

/// The amounts that rows of one kind have in common; 0 in a slot that none of them has.
#[derive(Clone, Copy)]
pub struct Amounts {
    by_slot: [i64; 64],
}

impl Amounts {
    /// No amounts.
    pub fn new() -> Amounts {
        Amounts { by_slot: [0; 64] }
    }

    /// The amount in a slot.
    pub fn get(&self, slot: u32) -> i64 {
        self.by_slot[(slot % 64) as usize]
    }

    /// Whether none of these units has another amount in its slot.
    pub fn suits(&self, units: &[Unit]) -> bool {
        for unit in units {
            let own = self.get(unit.slot);
            if own != 0 && own != unit.amount {
                return false;
            }
        }
        true
    }

    /// Takes over the amounts of units.
    pub fn join(&mut self, units: &[Unit]) {
        for unit in units {
            self.by_slot[(unit.slot % 64) as usize] = unit.amount;
        }
    }

    /// The least and the greatest sum of amounts in some of these slots.
    pub fn reach(&self, slots: u64) -> (i64, i64) {
        let mut left = slots;
        let mut low: i64 = 0;
        let mut high: i64 = 0;
        for _ in 0..64 {
            if left == 0 {
                break;
            }
            let slot = greatest(left);
            left = without(left, slot);
            let amount = self.get(slot);
            low = low.saturating_add(amount.min(0));
            high = high.saturating_add(amount.max(0));
        }
        (low, high)
    }
}
