// How many boxes one row alone would make of a box.

use crate::amounts::Amounts;
use crate::closed::{Claim, Closings, Forced};
use crate::forms::Form;
use crate::mask::{first_numbers, greatest, has, only, without};
use crate::policy::{Policy, picked, raising};
use crate::slots::Span;
use crate::toggles::{Toggle, Toggles};
use qf_base::NoMemory;
use std::alloc::Global;

// What a box costs in which the row meets its goal at the cheapest point: another row has to be looked for there.
const MET: u64 = 5;

/// A row over a box, with the toggles that it has there.
#[derive(Drop)]
pub struct Cover {
    class: u32,
    toggles: Toggles,
    raising: u64,
    whole: Part,
}

/// A part of the box: which toggles are left (their places), which slots are undecided and what they have to add up to, what
/// effects of toggles have to add up to, and how much a point may still cost.
#[derive(Clone, Copy)]
struct Part {
    allowed: u64,
    open: u64,
    rest: i64,
    need: i64,
    slack: u64,
}

/// How many boxes may still be counted.
#[derive(Clone, Copy)]
pub struct Limit {
    pub left: u64,
    pub is_passed: bool,
}

impl Limit {
    /// Counts boxes.
    pub fn take(&mut self, boxes: u64) {
        self.is_passed = self.is_passed || self.left < boxes;
        self.left = self.left.saturating_sub(boxes);
    }
}

impl Part {
    // The part where the toggle is made, or where it is not.
    fn after(&self, amounts: &Amounts, place: u32, toggle: &Toggle, is_made: bool) -> Part {
        let amount = amounts.get(toggle.slot);
        let adds_before = (0 < toggle.effect) != (0 < amount);
        let taken = if adds_before != is_made { amount } else { 0 };
        Part {
            allowed: without(self.allowed, place),
            open: without(self.open, toggle.slot),
            rest: self.rest.saturating_sub(taken),
            need: if is_made {
                self.need.saturating_sub(toggle.effect)
            } else {
                self.need
            },
            slack: if is_made {
                self.slack.saturating_sub(toggle.cost)
            } else {
                self.slack
            },
        }
    }
}

impl Cover {
    /// The row over a box with this cheapest point, where a point may cost so much more than that one.
    pub fn new(
        alloc: Global,
        form: &Form,
        spans: &[Span],
        point: &[i64],
        slack: u64,
    ) -> Result<Cover, NoMemory> {
        let (open, rest) = form.left(spans);
        let toggles = Toggles::new(alloc, form, point, open, rest)?;
        let whole = Part {
            allowed: first_numbers(toggles.list.len()),
            open,
            rest,
            need: toggles.need,
            slack,
        };
        Ok(Cover {
            class: form.class,
            raising: raising(toggles.list.as_slice()),
            toggles,
            whole,
        })
    }

    /// The class of the row.
    pub fn class(&self) -> u32 {
        self.class
    }

    // The toggle that comes first: the costliest one that is forced, or else one of those that are not forbidden.
    fn picked(&self, amounts: &Amounts, policy: Policy, part: &Part) -> u32 {
        let list = self.toggles.list.as_slice();
        let forced = Claim::new(amounts, part.open, part.rest).forced(amounts);
        if forced.slots == 0 {
            return picked(policy, list, part.allowed, self.raising, part.need);
        }
        let mut free = 0;
        let mut left = part.allowed;
        for _ in 0..64 {
            if left == 0 {
                break;
            }
            let place = greatest(left);
            left = without(left, place);
            match self.is_forced(amounts, &forced, place) {
                Some(true) => return place,
                Some(false) => {}
                None => free |= only(place),
            }
        }
        let allowed = if free == 0 { part.allowed } else { free };
        picked(policy, list, allowed, self.raising, part.need)
    }

    // Whether a toggle is forced or forbidden, if it is one of these.
    fn is_forced(&self, amounts: &Amounts, forced: &Forced, place: u32) -> Option<bool> {
        let toggle = self.toggles.list.get(place as usize)?;
        if !has(forced.slots, toggle.slot) {
            return None;
        }
        let adds = (0 < toggle.effect) == (0 < amounts.get(toggle.slot));
        Some(has(forced.added, toggle.slot) == adds)
    }

    /// The toggle that a policy makes first.
    pub fn toggle(&self, amounts: &Amounts, policy: Policy) -> Option<Toggle> {
        if self.whole.allowed == 0 {
            return None;
        }
        let place = self.picked(amounts, policy, &self.whole);
        self.toggles.list.get(place as usize).copied()
    }

    fn count(
        &self,
        closings: &mut Closings,
        amounts: &Amounts,
        policy: Policy,
        part: Part,
        limit: &mut Limit,
        depth: u32,
    ) -> u64 {
        if part.need == 0 {
            limit.take(MET);
            return MET;
        }
        limit.take(1);
        if limit.is_passed || depth == 0 || part.allowed == 0 {
            return 1;
        }
        if 0 < closings.leaves(self.class, amounts, part.open, part.rest) {
            return 1;
        }
        let place = self.picked(amounts, policy, &part);
        let Some(toggle) = self.toggles.list.get(place as usize).copied() else {
            return 1;
        };
        let stays = part.after(amounts, place, &toggle, false);
        let first = self.count(closings, amounts, policy, stays, limit, depth - 1);
        if part.slack <= toggle.cost || limit.is_passed {
            return first.saturating_add(1);
        }
        let moves = part.after(amounts, place, &toggle, true);
        let second = self.count(closings, amounts, policy, moves, limit, depth - 1);
        first.saturating_add(second).saturating_add(1)
    }

    /// How many boxes the row makes by a policy, unless they are more than a limit.
    pub fn boxes(
        &self,
        closings: &mut Closings,
        amounts: &Amounts,
        policy: Policy,
        most: u64,
    ) -> Option<u64> {
        let mut limit = Limit {
            left: most,
            is_passed: false,
        };
        let boxes = self.count(closings, amounts, policy, self.whole, &mut limit, 65);
        if limit.is_passed { None } else { Some(boxes) }
    }
}
