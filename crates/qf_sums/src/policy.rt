// Which of a row's toggles comes first.

use crate::mask::{greatest, only, without};
use crate::toggles::Toggle;

/// Which toggles are looked at; of these the costliest comes first.
#[derive(Clone, Copy, PartialEq, Eq)]
pub enum Policy {
    /// All.
    Any,
    /// Those that bring the sum nearer to what is wanted, or where it is near, those of the side that has fewer.
    Wanted,
}

/// The places, from 0, of the toggles that make the sum greater.
pub fn raising(toggles: &[Toggle]) -> u64 {
    let mut raising = 0;
    for place in 0..64u32 {
        if let Some(toggle) = toggles.get(place as usize) {
            if 0 < toggle.effect {
                raising |= only(place);
            }
        }
    }
    raising
}

// The least size of an effect.
fn least_effect(toggles: &[Toggle], allowed: u64) -> u64 {
    let mut least = u64::MAX;
    let mut left = allowed;
    for _ in 0..64 {
        if left == 0 {
            break;
        }
        let place = greatest(left);
        left = without(left, place);
        if let Some(toggle) = toggles.get(place as usize) {
            least = least.min(toggle.effect.unsigned_abs());
        }
    }
    least
}

fn wants_raising(toggles: &[Toggle], allowed: u64, raising: u64, need: i64) -> bool {
    let twice = need.unsigned_abs().saturating_mul(2);
    if least_effect(toggles, allowed) < twice {
        0 < need
    } else {
        (allowed & raising).count_ones() <= (allowed & !raising).count_ones()
    }
}

/// The place of the toggle that comes first among some, where their effects have to add up to a need.
pub fn picked(policy: Policy, toggles: &[Toggle], allowed: u64, raising: u64, need: i64) -> u32 {
    if policy == Policy::Any {
        return greatest(allowed);
    }
    let side = if wants_raising(toggles, allowed, raising, need) {
        allowed & raising
    } else {
        allowed & !raising
    };
    greatest(if side == 0 { allowed } else { side })
}
