// What moves of single parameters do to a row that does not add up.

use crate::wired::Wired;
use qf_base::NoMemory;
use qf_circuit::Def;
use qf_sums::{Slots, Span, Toggle, span_at, value_at};
use std::alloc::Global;

const MOST_TESTS: u32 = 200;

/// A box with its cheapest point, by slots.
#[derive(Clone, Copy)]
pub struct Place<'a> {
    pub alloc: Global,
    pub slots: &'a Slots,
    pub spans: &'a [Span],
    pub point: &'a [i64],
}

/// What was found on the way back from a definition: toggles, and parameters that are part of its value, with their factors.
#[derive(Drop)]
pub struct Pulls {
    pub toggles: Vec<Toggle>,
    pub parts: Vec<(u32, i64)>,
    /// By how much the definition has to change.
    pub need: i64,
}

fn steps_over(distance: u64, factor: i64) -> u64 {
    distance.div_ceil(factor.unsigned_abs().max(1)).max(1)
}

impl Place<'_> {
    /// The toggle that moves a slot's parameter by so many steps, if the box has room for that.
    pub fn toggle(&self, slot: u32, steps: u64, effect: i64, raises: bool) -> Option<Toggle> {
        let value = value_at(self.point, slot as usize);
        let (low, high) = span_at(self.spans, slot as usize);
        let far = i64::try_from(steps).ok()?;
        let (moved, cut) = if raises {
            let moved = value.checked_add(far)?;
            (moved, moved.saturating_sub(1))
        } else {
            let moved = value.checked_sub(far)?;
            (moved, moved)
        };
        if moved < low || high < moved {
            return None;
        }
        Some(Toggle {
            cost: steps,
            slot,
            cut,
            effect,
            raises,
        })
    }
}

impl Wired {
    /// The slot of a definition that is an open parameter.
    pub fn slot_of(&self, place: &Place<'_>, number: u32) -> Option<u32> {
        match self.def(number)? {
            Def::Param(param) => place.slots.slot_of(*param),
            _ => None,
        }
    }

    // Whether turning a truth over turns over all of some truths, or any of them: each that is free where they all are one way
    // now, else the only one that is otherwise.
    fn turns(&self, vars: &[u32], var: u32, is_even: bool) -> bool {
        let own = self.value(var);
        let mut alike = 0u32;
        for other in vars {
            if self.value(*other) == own {
                alike = alike.saturating_add(1);
            }
        }
        self.is_free(var) && (is_even || alike == 1)
    }

    // Adds those of some truths to a list that alone turn all of them over, or any of them.
    fn push_deciding(
        &self,
        vars: &[u32],
        is_set: bool,
        is_even: bool,
        todo: &mut Vec<u32>,
    ) -> Result<(), NoMemory> {
        for var in vars {
            let is_alike = (self.value(*var) == 1) == is_set;
            if is_alike && self.turns(vars, *var, is_even) {
                todo.push(*var)?;
            }
        }
        Ok(())
    }

    // Adds the toggle that moves a parameter, which counts so many times in a sum, so far that the sum's sign turns over.
    fn push_crossing(
        &self,
        place: &Place<'_>,
        slot: u32,
        factor: i64,
        sum: i64,
        effect: i64,
        pulls: &mut Pulls,
    ) -> Result<(), NoMemory> {
        let distance = if sum < 0 {
            sum.unsigned_abs()
        } else {
            sum.unsigned_abs().saturating_add(1)
        };
        let raises = (0 < factor) == (sum < 0);
        if let Some(toggle) = place.toggle(slot, steps_over(distance, factor), effect, raises) {
            pulls.toggles.push(toggle)?;
        }
        Ok(())
    }

    // Whether a sum's sign turns over as a choice in it is made otherwise.
    fn crosses(&self, sum: i64, factor: i64, taken: u32, other: u32) -> bool {
        let more = self.value(other).saturating_sub(self.value(taken));
        let then = sum.saturating_add(factor.saturating_mul(more));
        (sum < 0) != (then < 0)
    }

    // Looks at a part of a sum that counts so many times, and says which part of that to look at next.
    fn push_sum_part(
        &self,
        place: &Place<'_>,
        part: (u32, i64),
        sum: i64,
        effect: i64,
        pulls: &mut Pulls,
        todo: &mut Vec<u32>,
    ) -> Result<Option<(u32, i64)>, NoMemory> {
        let (number, factor) = part;
        match self.def(number) {
            Some(Def::Param(param)) => {
                if let Some(slot) = place.slots.slot_of(*param) {
                    self.push_crossing(place, slot, factor, sum, effect, pulls)?;
                }
                Ok(None)
            }
            Some(Def::Linear(terms, _)) => {
                for (own, var) in terms.as_slice() {
                    if let Some(slot) = self.slot_of(place, *var) {
                        let times = factor.saturating_mul(*own);
                        self.push_crossing(place, slot, times, sum, effect, pulls)?;
                    }
                }
                match self.followed(terms.as_slice()) {
                    Some((own, var)) if !self.is_param(var) => {
                        Ok(Some((var, factor.saturating_mul(own))))
                    }
                    _ => Ok(None),
                }
            }
            Some(Def::Choose(test, left, right)) => {
                let (taken, other) = self.taken(*test, *left, *right);
                if self.is_free(*test) && self.crosses(sum, factor, taken, other) {
                    todo.push(*test)?;
                }
                Ok(Some((taken, factor)))
            }
            _ => Ok(None),
        }
    }

    fn push_sign(
        &self,
        place: &Place<'_>,
        number: u32,
        effect: i64,
        pulls: &mut Pulls,
        todo: &mut Vec<u32>,
    ) -> Result<(), NoMemory> {
        let sum = self.value(number);
        let mut part = (number, 1);
        for _ in self.defs() {
            if !self.is_free(part.0) {
                break;
            }
            let next = self.push_sum_part(place, part, sum, effect, pulls, todo)?;
            let Some(next) = next else {
                break;
            };
            part = next;
        }
        Ok(())
    }

    // Adds what alone turns a truth over, as toggles or as other truths.
    fn push_test(
        &self,
        place: &Place<'_>,
        test: u32,
        effect: i64,
        pulls: &mut Pulls,
        todo: &mut Vec<u32>,
    ) -> Result<(), NoMemory> {
        let is_set = self.value(test) == 1;
        match self.def(test) {
            Some(Def::AtLeastZero(sum)) => self.push_sign(place, *sum, effect, pulls, todo),
            Some(Def::Not(var)) => {
                todo.push(*var)?;
                Ok(())
            }
            Some(Def::All(vars)) => self.push_deciding(vars.as_slice(), is_set, is_set, todo),
            Some(Def::Any(vars)) => self.push_deciding(vars.as_slice(), is_set, !is_set, todo),
            _ => Ok(()),
        }
    }

    // Adds the toggles that alone turn a truth over.
    fn push_turning(
        &self,
        place: &Place<'_>,
        test: u32,
        effect: i64,
        pulls: &mut Pulls,
    ) -> Result<(), NoMemory> {
        let mut todo = Vec::new(place.alloc);
        todo.push(test)?;
        for _ in 0..MOST_TESTS {
            let Some(next) = todo.pop() else {
                break;
            };
            self.push_test(place, next, effect, pulls, &mut todo)?;
        }
        Ok(())
    }

    // Of a choice's definitions the one that is taken at the point, and the other.
    fn taken(&self, test: u32, left: u32, right: u32) -> (u32, u32) {
        if self.value(test) == 1 {
            (left, right)
        } else {
            (right, left)
        }
    }

    // Adds the parameters of a sum, and gives the term that is followed.
    fn push_parts(
        &self,
        place: &Place<'_>,
        terms: &[(i64, u32)],
        factor: i64,
        pulls: &mut Pulls,
    ) -> Result<(), NoMemory> {
        for (own, var) in terms {
            if let Some(slot) = self.slot_of(place, *var) {
                pulls.parts.push((slot, factor.saturating_mul(*own)))?;
            }
        }
        Ok(())
    }

    // Looks at a definition that counts so many times, and says which one to look at next.
    fn push_back(
        &self,
        place: &Place<'_>,
        number: u32,
        factor: i64,
        pulls: &mut Pulls,
    ) -> Result<Option<(u32, i64)>, NoMemory> {
        match self.def(number) {
            Some(Def::Choose(test, left, right)) => {
                let (taken, other) = self.taken(*test, *left, *right);
                let more = self.value(other).saturating_sub(self.value(taken));
                let effect = factor.saturating_mul(more);
                if effect != 0 && self.is_free(*test) {
                    self.push_turning(place, *test, effect, pulls)?;
                }
                Ok(Some((taken, factor)))
            }
            Some(Def::Linear(terms, _)) => {
                self.push_parts(place, terms.as_slice(), factor, pulls)?;
                match self.followed(terms.as_slice()) {
                    Some((own, var)) => Ok(Some((var, factor.saturating_mul(own)))),
                    None => Ok(None),
                }
            }
            Some(Def::Param(param)) => {
                if let (Some(slot), true) = (place.slots.slot_of(*param), pulls.parts.is_empty()) {
                    pulls.parts.push((slot, factor))?;
                }
                Ok(None)
            }
            Some(Def::Const(_)) => Ok(None),
            _ => {
                let effect = if self.value(number) == 1 {
                    0i64.saturating_sub(factor)
                } else {
                    factor
                };
                self.push_turning(place, number, effect, pulls)?;
                Ok(None)
            }
        }
    }

    // Adds the toggles of all comparisons.
    fn push_every(&self, place: &Place<'_>, pulls: &mut Pulls) -> Result<(), NoMemory> {
        let mut ignored = Vec::new(place.alloc);
        for number in self.open() {
            if let (Some(Def::AtLeastZero(sum)), true) = (
                self.def(*number),
                self.is_free(*number),
            ) {
                self.push_sign(place, *sum, 0, pulls, &mut ignored)?;
            }
        }
        Ok(())
    }

    fn push_all(&self, place: &Place<'_>, number: u32, pulls: &mut Pulls) -> Result<(), NoMemory> {
        let mut at = number;
        let mut factor = 1;
        for _ in self.defs() {
            if !self.is_free(at) {
                break;
            }
            let Some((next, times)) = self.push_back(place, at, factor, pulls)? else {
                break;
            };
            at = next;
            factor = times;
        }
        Ok(())
    }

    /// What can be done about the first definition that is not what it has to be at the point.
    pub fn pulls(&self, place: &Place<'_>) -> Result<Pulls, NoMemory> {
        let mut pulls = Pulls {
            toggles: Vec::new(place.alloc),
            parts: Vec::new(place.alloc),
            need: 0,
        };
        if let Some((number, need)) = self.missed() {
            pulls.need = need;
            self.push_all(place, number, &mut pulls)?;
        }
        if pulls.toggles.is_empty() {
            pulls.share(place)?;
        }
        if pulls.toggles.is_empty() {
            self.push_every(place, &mut pulls)?;
        }
        pulls.toggles.sort_unstable();
        Ok(pulls)
    }
}

impl Pulls {
    // Whether a part has room to bring the value nearer to what it has to be.
    fn shared(&self, place: &Place<'_>, slot: u32, factor: i64, part: u64) -> Option<Toggle> {
        let raises = (0 < factor) == (0 < self.need);
        let value = value_at(place.point, slot as usize);
        let (low, high) = span_at(place.spans, slot as usize);
        let room = if raises {
            high.abs_diff(value)
        } else {
            value.abs_diff(low)
        };
        if factor == 0 || room == 0 {
            return None;
        }
        place.toggle(slot, steps_over(part, factor).min(room), self.need, raises)
    }

    // Adds a toggle for each part: one of so many has to bring its share of what is needed.
    fn share(&mut self, place: &Place<'_>) -> Result<(), NoMemory> {
        let count = (self.parts.len() as u64).max(1);
        let part = self.need.unsigned_abs().div_ceil(count);
        for at in 0..self.parts.len() {
            if let Some((slot, factor)) = self.parts.get(at).copied() {
                if let Some(toggle) = self.shared(place, slot, factor, part) {
                    self.toggles.push(toggle)?;
                }
            }
        }
        Ok(())
    }
}
