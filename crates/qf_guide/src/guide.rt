// What a search is told.

use crate::choice::Question;
use crate::cut::{Cut, cut_of};
use crate::guess::{Ground, Guess};
use crate::hints::{Hint, Hints};
use crate::known::Known;
use crate::rows::Rows;
use qf_base::{List, NoMemory, PBox, RowName};
use qf_goal::Problem;
use qf_sums::{Closings, Slots, Span};
use std::alloc::Global;

const MOST_BOXES: u64 = 5000;

const BOUNDS_OF_CASE: u32 = 1000;

const FEWEST_BOUNDS: u32 = 2000;

const MOST_BOUNDS: u32 = 400_000;

const MOST_ROWS: u64 = 8;

const SAMPLE: usize = 4;

const SAMPLE_OF_SUMS: usize = 12;

/// What is known of a problem's rows and boxes, and what was guessed of its answer. It keeps what it hears for later.
#[derive(Drop)]
pub struct Guide {
    slots: Slots,
    known: Known,
    hints: Hints,
    guess: Guess,
    limit: u32,
}

fn known_of(alloc: Global, problem: &Problem, slots: &Slots) -> Result<Known, NoMemory> {
    let mut rows = Rows::new(alloc);
    rows.note_complained(alloc, problem, slots)?;
    Ok(Known {
        rows,
        closings: Closings::new(alloc)?,
        spent: 0,
    })
}

fn guess_of(
    alloc: Global,
    problem: &Problem,
    slots: &Slots,
    known: &mut Known,
    root: &PBox,
) -> Result<Guess, NoMemory> {
    let spans = slots.spans_of(alloc, root)?;
    let ground = Ground {
        alloc,
        problem,
        slots,
    };
    let guess = ground.guess(known, spans.as_slice())?;
    known.rows.forget_names();
    Ok(guess)
}

impl Guide {
    /// A guide for the boxes in a root box of a problem.
    pub fn new(alloc: Global, problem: &Problem, root: &PBox) -> Result<Guide, NoMemory> {
        let slots = Slots::new(alloc, problem.program().olds().as_slice(), root)?;
        let mut known = known_of(alloc, problem, &slots)?;
        let guess = guess_of(alloc, problem, &slots, &mut known, root)?;
        Ok(Guide {
            slots,
            known,
            hints: Hints::new(alloc)?,
            guess,
            limit: FEWEST_BOUNDS,
        })
    }

    // The place of a row among those that came up; it is added if it is new.
    fn noted(
        &mut self,
        alloc: Global,
        problem: &Problem,
        name: RowName,
    ) -> Result<Option<usize>, NoMemory> {
        self.known.rows.note(alloc, problem, &self.slots, name)
    }

    // The rows that may refute a box and miss their goals at a point, with one that is known to miss it.
    fn missing(
        &mut self,
        alloc: Global,
        point: &[i64],
        failing: Option<usize>,
    ) -> Result<Vec<usize>, NoMemory> {
        let mut missing = self.known.rows.missing(alloc, &self.slots, point)?;
        if let Some(row) = failing {
            if !missing.contains(&row) {
                missing.push(row)?;
            }
        }
        Ok(missing)
    }

    // Of some rows the one for which the fewest cases close a box, with how many these are.
    fn soonest(&mut self, missing: &[usize], spans: &[Span]) -> Option<(u32, usize)> {
        let mut soonest: Option<(u32, usize)> = None;
        for row in missing {
            let cases = self.known.cases(&self.slots, *row, spans);
            let is_sooner = match soonest {
                Some((fewest, _)) => cases < fewest,
                None => true,
            };
            if 0 < cases && is_sooner {
                soonest = Some((cases, *row));
            }
            if cases == 1 {
                break;
            }
        }
        soonest
    }

    // Those of some rows that are worth a try: the one for which cases close the box, or else those that do not add up, of
    // which more may be found than was looked for.
    fn worthy(
        &self,
        alloc: Global,
        missing: &[usize],
        closed: Option<usize>,
    ) -> Result<List<RowName>, NoMemory> {
        let mut rows = List::new(alloc);
        for row in missing {
            let is_worthy = match closed {
                Some(closed) => *row == closed,
                None => rows.len() < MOST_ROWS && self.known.rows.form(*row).is_none(),
            };
            if let (Some(name), true) = (self.known.rows.name_of(*row), is_worthy) {
                rows.push(name)?;
            }
        }
        Ok(rows)
    }

    /// Rows that may refute a box at whose cheapest point this row is the first that misses its goal.
    pub fn rows(
        &mut self,
        alloc: Global,
        problem: &Problem,
        region: &PBox,
        failing: RowName,
    ) -> Result<List<RowName>, NoMemory> {
        let row = self.noted(alloc, problem, failing)?;
        let spans = self.slots.spans_of(alloc, region)?;
        let point = self.slots.cheapest(alloc, spans.as_slice())?;
        let missing = self.missing(alloc, point.as_slice(), row)?;
        match self.soonest(missing.as_slice(), spans.as_slice()) {
            Some((cases, row)) => {
                self.limit = cases
                    .saturating_mul(BOUNDS_OF_CASE)
                    .clamp(FEWEST_BOUNDS, MOST_BOUNDS);
                self.worthy(alloc, missing.as_slice(), Some(row))
            }
            None => {
                self.limit = FEWEST_BOUNDS;
                self.worthy(alloc, missing.as_slice(), None)
            }
        }
    }

    /// How many bounds may be taken as one of the rows that were told last is tried.
    pub fn limit(&self) -> u32 {
        self.limit
    }

    // Raises the guess above what a box costs.
    fn grow(&mut self, cost: u64) {
        if self.guess.cost <= cost {
            self.guess.cost = cost.saturating_add(cost / 5).saturating_add(1);
        }
    }

    // How many rows are tried: more if one of them adds up, since these take little time.
    fn sample(&self, missing: &[usize]) -> usize {
        for row in missing {
            if self.known.rows.form(*row).is_some() {
                return SAMPLE_OF_SUMS;
            }
        }
        SAMPLE
    }

    fn cut_for(
        &mut self,
        alloc: Global,
        spans: &[Span],
        point: &[i64],
        missing: &[usize],
    ) -> Result<Option<(Cut, Hint)>, NoMemory> {
        let cost = self.slots.cost(point);
        self.grow(cost);
        let question = Question {
            spans,
            point,
            slack: self.guess.cost.saturating_sub(cost),
            hint: self.hints.get(spans),
            most: MOST_BOXES,
            sample: self.sample(missing),
            slots: &self.slots,
        };
        let Some(choice) = question.answer(alloc, &mut self.known, missing)? else {
            return Ok(None);
        };
        let answer = match &self.guess.answer {
            Some(answer) => Some(answer.as_slice()),
            None => None,
        };
        let cut = cut_of(&choice.toggle, point, question.slack, answer);
        Ok(Some((cut, choice.hint)))
    }

    fn keep_hints(
        &mut self,
        alloc: Global,
        spans: &[Span],
        cut: Cut,
        hint: Hint,
    ) -> Result<(), NoMemory> {
        for is_upper in [false, true] {
            let half = cut.half(alloc, spans, is_upper)?;
            self.hints.put(half.as_slice(), hint);
        }
        Ok(())
    }

    /// Where to cut a box at whose cheapest point this row is the first that misses its goal: a parameter, from 1, and the
    /// greatest value of it in the lower half. The box is taken to be cut for the row.
    pub fn cut(
        &mut self,
        alloc: Global,
        problem: &Problem,
        region: &PBox,
        failing: RowName,
    ) -> Result<Option<(u32, i64)>, NoMemory> {
        let row = self.noted(alloc, problem, failing)?;
        let spans = self.slots.spans_of(alloc, region)?;
        let point = self.slots.cheapest(alloc, spans.as_slice())?;
        let missing = self.missing(alloc, point.as_slice(), row)?;
        if let Some(row) = row {
            self.known.rows.name(row, true);
        }
        let found = self.cut_for(
            alloc,
            spans.as_slice(),
            point.as_slice(),
            missing.as_slice(),
        )?;
        let Some((cut, hint)) = found else {
            return Ok(None);
        };
        self.keep_hints(alloc, spans.as_slice(), cut, hint)?;
        match self.slots.param_of(cut.slot) {
            Some(param) => Ok(Some((param, cut.cut))),
            None => Ok(None),
        }
    }
}
