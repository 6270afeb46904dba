// By which row, and at which toggle of it, a box is cut.

use crate::hints::Hint;
use crate::known::Known;
use qf_base::NoMemory;
use qf_sums::{Cover, Policy, Slots, Span, Toggle};
use qf_wires::{Next, Trial};
use std::alloc::Global;

const NEAR: usize = 2;

const MOST_TRIED: u64 = 200;

/// A box with its cheapest point, how much more a point may cost than that one, and the hint of the box's parent; how many
/// boxes are counted for one row at most, and how many rows are tried besides those near the hint's.
#[derive(Clone, Copy)]
pub struct Question<'a> {
    pub spans: &'a [Span],
    pub point: &'a [i64],
    pub slack: u64,
    pub hint: Option<Hint>,
    pub most: u64,
    pub sample: usize,
    pub slots: &'a Slots,
}

/// A toggle, with the row and the policy by which it was chosen.
#[derive(Clone, Copy)]
pub struct Choice {
    pub hint: Hint,
    pub toggle: Toggle,
}

// A choice, and how many boxes it makes as far as they were counted.
#[derive(Clone, Copy)]
struct Best {
    choice: Choice,
    boxes: u64,
}

fn is_sampled(place: usize, count: usize, sample: usize, near: Option<usize>) -> bool {
    let step = count.div_ceil(sample.max(1)).max(1);
    let is_near = match near {
        Some(near) => place.abs_diff(near) <= NEAR,
        None => false,
    };
    place % step == 0 || place.saturating_add(1) == count || is_near
}

// The rows that are tried: that of the hint, its neighbours, an even sample, and the last.
fn tried(
    alloc: Global,
    missing: &[usize],
    sample: usize,
    hint: Option<Hint>,
) -> Result<Vec<usize>, NoMemory> {
    let mut rows = Vec::new(alloc);
    let near = match hint {
        Some(hint) => missing.iter().position(|row| *row == hint.row),
        None => None,
    };
    if let (Some(_), Some(hint)) = (near, hint) {
        rows.push(hint.row)?;
    }
    for place in 0..missing.len() {
        if near != Some(place) && is_sampled(place, missing.len(), sample, near) {
            rows.push(missing[place])?;
        }
    }
    Ok(rows)
}

// The policies, that of the hint first.
fn policies(hint: Option<Hint>) -> [Policy; 2] {
    match hint {
        Some(
            Hint {
                policy: Policy::Wanted,
                ..
            },
        ) => [Policy::Wanted, Policy::Any],
        _ => [Policy::Any, Policy::Wanted],
    }
}

impl Question<'_> {
    fn most_of(&self, best: Option<Best>) -> u64 {
        match best {
            Some(best) => best.boxes.saturating_sub(1),
            None => self.most,
        }
    }

    // The better of a choice and another one, for which so many boxes were counted, if not too many.
    fn better(&self, best: Option<Best>, choice: Choice, boxes: Option<u64>) -> Option<Best> {
        match (best, boxes) {
            (_, Some(boxes)) => Some(Best { choice, boxes }),
            (Some(best), None) => Some(best),
            (None, None) => Some(Best {
                choice,
                boxes: self.most,
            }),
        }
    }

    // The same for a row that adds up.
    fn better_of_sum(
        &self,
        alloc: Global,
        known: &mut Known,
        row: usize,
        best: Option<Best>,
    ) -> Result<Option<Best>, NoMemory> {
        let Some(form) = known.rows.form(row) else {
            return Ok(best);
        };
        let cover = Cover::new(alloc, form, self.spans, self.point, self.slack)?;
        let amounts = known.rows.amounts(cover.class());
        let mut best = best;
        for policy in policies(self.hint) {
            if let Some(toggle) = cover.toggle(&amounts, policy) {
                let most = self.most_of(best);
                let boxes = cover.boxes(&mut known.closings, &amounts, policy, most);
                let hint = Hint { row, policy };
                best = self.better(best, Choice { hint, toggle }, boxes);
            }
        }
        Ok(best)
    }

    // The same for a row that does not add up.
    fn better_of_wired(
        &self,
        alloc: Global,
        known: &mut Known,
        row: usize,
        best: Option<Best>,
    ) -> Result<Option<Best>, NoMemory> {
        let Some(wired) = known.rows.wired(row) else {
            return Ok(best);
        };
        let definitions = wired.open().len();
        let mut best = best;
        let mut spent: u64 = 2;
        for policy in policies(self.hint) {
            let trial = Trial {
                alloc,
                slots: self.slots,
                policy,
            };
            if let Next::Cut(toggle, _) = wired.next(&trial, self.spans)? {
                let most = self.most_of(best).min(MOST_TRIED);
                let boxes = wired.boxes(&trial, self.spans, self.slack, most)?;
                spent = spent.saturating_add(boxes.unwrap_or(most));
                let hint = Hint { row, policy };
                best = self.better(best, Choice { hint, toggle }, boxes);
            }
        }
        known.spend(definitions, spent);
        Ok(best)
    }

    /// The toggle of one of these rows that makes the fewest boxes, as far as that was counted.
    pub fn answer(
        &self,
        alloc: Global,
        known: &mut Known,
        missing: &[usize],
    ) -> Result<Option<Choice>, NoMemory> {
        let mut best = None;
        let tried = tried(alloc, missing, self.sample, self.hint)?;
        for row in tried.as_slice() {
            best = self.better_of_sum(alloc, known, *row, best)?;
            best = self.better_of_wired(alloc, known, *row, best)?;
        }
        match best {
            Some(best) => Ok(Some(best.choice)),
            None => Ok(None),
        }
    }
}
