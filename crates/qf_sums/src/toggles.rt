// Moves of one parameter that change what a row adds up to.

use crate::forms::Form;
use crate::mask::has;
use crate::slots::value_at;
use crate::units::Unit;
use qf_base::NoMemory;
use std::alloc::Global;

/// A move of a parameter from its cheapest value to the other side of a unit's threshold. Toggles are ordered by what they
/// cost.
#[derive(Clone, Copy, PartialEq, Eq, PartialOrd, Ord)]
pub struct Toggle {
    pub cost: u64,
    pub slot: u32,
    /// The lower of the two values between which the unit changes.
    pub cut: i64,
    /// By how much the row's sum changes.
    pub effect: i64,
    /// Whether the parameter is raised.
    pub raises: bool,
}

/// The toggles of a row over a box, the cheapest first, and what their effects have to add up to.
#[derive(Drop)]
pub struct Toggles {
    pub list: Vec<Toggle>,
    pub need: i64,
}

impl Toggle {
    /// The toggle of a unit whose parameter has this value.
    pub fn new(unit: &Unit, value: i64) -> Toggle {
        let raises = value <= unit.threshold;
        let steps = value.abs_diff(unit.threshold);
        Toggle {
            cost: if raises {
                steps.saturating_add(1)
            } else {
                steps
            },
            slot: unit.slot,
            cut: unit.threshold,
            effect: if unit.adds(value) {
                0i64.saturating_sub(unit.amount)
            } else {
                unit.amount
            },
            raises,
        }
    }
}

impl Toggles {
    /// The toggles of a row over a box with this cheapest point, where these slots are undecided and have to give this sum.
    pub fn new(
        alloc: Global,
        form: &Form,
        point: &[i64],
        open: u64,
        rest: i64,
    ) -> Result<Toggles, NoMemory> {
        let mut list = Vec::new(alloc);
        let mut need = rest;
        for unit in form.units.as_slice() {
            if has(open, unit.slot) {
                let value = value_at(point, unit.slot as usize);
                if unit.adds(value) {
                    need = need.saturating_sub(unit.amount);
                }
                list.push(Toggle::new(unit, value))?;
            }
        }
        list.sort_unstable();
        Ok(Toggles { list, need })
    }
}
