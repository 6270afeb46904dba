// Whether undecided units of a row can still add up to what is wanted.

use crate::amounts::Amounts;
use crate::mask::{greatest, only, without};
use qf_base::NoMemory;
use std::alloc::Global;

const MOST_CASES: u32 = 8;

const ENTRIES: usize = 1 << 16;

/// What a row still needs: the slots of its undecided units, the sum that some of them have to give, and what sums they can
/// give at all.
#[derive(Clone, Copy)]
pub struct Claim {
    open: u64,
    added: u64,
    rest: i64,
    low: i64,
    high: i64,
}

/// The slots that can go one way only: all of them, and those whose units add.
#[derive(Clone, Copy)]
pub struct Forced {
    pub slots: u64,
    pub added: u64,
}

#[derive(Clone, Copy)]
enum Settled {
    Closed,
    Met,
    Open,
}

impl Claim {
    /// What is still needed where these slots are undecided.
    pub fn new(amounts: &Amounts, open: u64, rest: i64) -> Claim {
        let (low, high) = amounts.reach(open);
        Claim {
            open,
            added: 0,
            rest,
            low,
            high,
        }
    }

    // The claim where the unit of a slot, the last that is open, adds, or where it does not.
    fn decided(&self, slot: u32, amount: i64, adds: bool) -> Claim {
        let taken = if adds { amount } else { 0 };
        Claim {
            open: without(self.open, slot),
            added: if adds {
                self.added | only(slot)
            } else {
                self.added
            },
            rest: self.rest.saturating_sub(taken),
            low: self.low.saturating_sub(amount.min(0)),
            high: self.high.saturating_sub(amount.max(0)),
        }
    }

    fn is_in_reach(&self) -> bool {
        self.low <= self.rest && self.rest <= self.high
    }

    // Decides the last open unit as long as it can go one way only.
    fn settle(&mut self, amounts: &Amounts) -> Settled {
        for _ in 0..65 {
            if !self.is_in_reach() {
                return Settled::Closed;
            }
            if self.open == 0 {
                return Settled::Met;
            }
            let slot = greatest(self.open);
            let on = self.decided(slot, amounts.get(slot), true);
            let off = self.decided(slot, amounts.get(slot), false);
            if on.is_in_reach() && off.is_in_reach() {
                return Settled::Open;
            }
            *self = if on.is_in_reach() { on } else { off };
        }
        Settled::Open
    }

    /// The slots that can go one way only as they are decided from the last one on.
    pub fn forced(&self, amounts: &Amounts) -> Forced {
        let mut claim = *self;
        let _ = claim.settle(amounts);
        Forced {
            slots: self.open & !claim.open,
            added: claim.added,
        }
    }

    // How many cases close the claim, in cases of cases up to a depth; 0 where they do not.
    fn leaves(&self, amounts: &Amounts, depth: u32) -> u32 {
        let mut claim = *self;
        match claim.settle(amounts) {
            Settled::Closed => return 1,
            Settled::Met => return 0,
            Settled::Open => {}
        }
        if depth == 0 {
            return 0;
        }
        let slot = greatest(claim.open);
        let on = claim.decided(slot, amounts.get(slot), true);
        let first = on.leaves(amounts, depth - 1);
        if first == 0 {
            return 0;
        }
        let off = claim.decided(slot, amounts.get(slot), false);
        let second = off.leaves(amounts, depth - 1);
        if second == 0 {
            return 0;
        }
        first.saturating_add(second)
    }
}

#[derive(Clone, Copy)]
struct Entry {
    class: u32,
    open: u64,
    rest: i64,
    leaves: u32,
}

/// Answers to how many cases close a claim, of which the last ones are kept.
#[derive(Drop)]
pub struct Closings {
    entries: Vec<Entry>,
}

fn place_of(class: u32, open: u64, rest: i64) -> usize {
    let mixed = open
        .wrapping_mul(0x9E37_79B9_7F4A_7C15)
        .wrapping_add(rest.cast_unsigned().wrapping_mul(0xC2B2_AE3D_27D4_EB4F))
        .wrapping_add(u64::from(class));
    let spread = (mixed ^ (mixed >> 29)).wrapping_mul(0xBF58_476D_1CE4_E5B9);
    (spread >> 48) as usize
}

impl Closings {
    /// No answers.
    pub fn new(alloc: Global) -> Result<Closings, NoMemory> {
        let none = Entry {
            class: u32::MAX,
            open: 0,
            rest: 0,
            leaves: 0,
        };
        Ok(Closings {
            entries: vec![in alloc; none; ENTRIES]?,
        })
    }

    /// How many cases close the claim that undecided slots of a class of rows give this sum; 0 where they do not.
    pub fn leaves(&mut self, class: u32, amounts: &Amounts, open: u64, rest: i64) -> u32 {
        let place = place_of(class, open, rest);
        if let Some(entry) = self.entries.get(place) {
            if entry.class == class && entry.open == open && entry.rest == rest {
                return entry.leaves;
            }
        }
        let leaves = Claim::new(amounts, open, rest).leaves(amounts, MOST_CASES);
        if let Some(entry) = self.entries.get_mut(place) {
            *entry = Entry {
                class,
                open,
                rest,
                leaves,
            };
        }
        leaves
    }
}
