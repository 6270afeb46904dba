// What the answer may cost: the search is run beside the board, with what rows add up to in place of their inequalities.

ghost use Rattle.std.specs.Prelude.{◌≡◌, true};
ghost use Rattle.qf_base.specs.Values.{In};

use crate::choice::Question;
use crate::cut::cut_of;
use crate::known::Known;
use crate::queue::{Key, Queue, Work};
use qf_base::{NoMemory, Point};
use qf_goal::Problem;
use qf_sums::{Slots, Span};
use std::alloc::Global;

const FIRST_COST: u64 = 8;

const MOST_RUNS: u32 = 400;

const MOST_NODES: u64 = 100_000;

const MOST_BOXES: u64 = 1000;

const SAMPLE: usize = 4;

const MOST_SPENT: u64 = 40_000_000;

/// What an answer may cost, and the point that was found, by slots.
#[derive(Drop)]
pub struct Guess {
    pub cost: u64,
    pub answer: Option<Vec<i64>>,
}

// How one run ends: at a point that repairs, at boxes that cost as much as was guessed, or without any hint.
enum End {
    Found(Vec<i64>),
    Reached,
    Lost,
}

// What became of one box.
enum Turn {
    Done,
    Found,
    Lost,
}

/// What runs work on.
#[derive(Clone, Copy)]
pub struct Ground<'a> {
    pub alloc: Global,
    pub problem: &'a Problem,
    pub slots: &'a Slots,
}

// Whether a point lies in the domains.
fn lies_in(problem: &Problem, point: &Point) -> bool
    ensures { result ≡ true → In problem.now.domains.region point.now }
{
    problem.domains().holds(point)
}

impl Ground<'_> {
    // Whether the first row that misses its goal at a point adds up: then it is added to the missing ones. No row misses it
    // at a point that repairs.
    fn find_missing(
        &self,
        known: &mut Known,
        point: &[i64],
        missing: &mut Vec<usize>,
    ) -> Result<bool, NoMemory> {
        let program = self.problem.program();
        let count = u64::from(program.starts()).saturating_add(u64::from(program.inserted()));
        known.spend(program.statements().as_slice().len(), count / 16);
        let olds = program.olds();
        let whole = self.slots.whole(self.alloc, olds, point)?;
        if !lies_in(self.problem, &whole) {
            return Ok(false);
        }
        let Some(name) = self.problem.first_failing(self.alloc, &whole)? else {
            return Ok(true);
        };
        let Some(row) = known.rows.note(self.alloc, self.problem, self.slots, name)? else {
            return Ok(false);
        };
        missing.push(row)?;
        Ok(true)
    }

    // Cuts a box, and says whether it could be cut.
    fn split(
        &self,
        known: &mut Known,
        queue: &mut Queue,
        key: &Key,
        work: &Work,
        missing: &[usize],
        cost: u64,
    ) -> Result<bool, NoMemory> {
        let question = Question {
            spans: work.spans.as_slice(),
            point: key.point.as_slice(),
            slack: cost.saturating_sub(key.cost),
            hint: work.hint,
            most: MOST_BOXES,
            sample: SAMPLE,
            slots: self.slots,
        };
        let Some(choice) = question.answer(self.alloc, known, missing)? else {
            return Ok(false);
        };
        let cut = cut_of(&choice.toggle, question.point, question.slack, None);
        if !cut.is_inside(question.spans) {
            return Ok(false);
        }
        for is_upper in [false, true] {
            let half = cut.half(self.alloc, question.spans, is_upper)?;
            queue.push(self.alloc, self.slots, half, Some(choice.hint))?;
        }
        Ok(true)
    }

    // Closes or cuts a box, unless its cheapest point repairs.
    fn turn(
        &self,
        known: &mut Known,
        queue: &mut Queue,
        key: &Key,
        work: &Work,
        cost: u64,
    ) -> Result<Turn, NoMemory> {
        let point = key.point.as_slice();
        let mut missing = known.rows.missing(self.alloc, self.slots, point)?;
        if missing.is_empty() && !self.find_missing(known, point, &mut missing)? {
            return Ok(Turn::Lost);
        }
        let Some(label) = missing.first().copied() else {
            return Ok(Turn::Found);
        };
        if known.is_closed(self.slots, missing.as_slice(), work.spans.as_slice()) {
            return Ok(Turn::Done);
        }
        known.rows.name(label, true);
        if self.split(known, queue, key, work, missing.as_slice(), cost)? {
            Ok(Turn::Done)
        } else {
            Ok(Turn::Lost)
        }
    }

    // Searches the boxes that cost less than a guess.
    fn run(
        &self,
        known: &mut Known,
        root: &[Span],
        cost: u64,
        left: &mut u64,
    ) -> Result<End, NoMemory> {
        known.rows.forget_names();
        let mut queue = Queue::new(self.alloc);
        let root = Vec::from_slice(self.alloc, root)?;
        queue.push(self.alloc, self.slots, root, None)?;
        for _ in 0..*left {
            *left = left.saturating_sub(1);
            let Some((key, work)) = queue.pop() else {
                return Ok(End::Lost);
            };
            if cost <= key.cost {
                return Ok(End::Reached);
            }
            known.spend(known.rows.open, 1);
            if MOST_SPENT < known.spent {
                return Ok(End::Lost);
            }
            match self.turn(known, &mut queue, &key, &work, cost)? {
                Turn::Done => {}
                Turn::Found => return Ok(End::Found(key.point)),
                Turn::Lost => return Ok(End::Lost),
            }
        }
        Ok(End::Lost)
    }

    /// A guess of what the answer in a box costs: runs with greater and greater ones, until one finds a point that repairs.
    pub fn guess(&self, known: &mut Known, root: &[Span]) -> Result<Guess, NoMemory> {
        let mut cost = FIRST_COST;
        let mut left = MOST_NODES;
        for _ in 0..MOST_RUNS {
            match self.run(known, root, cost, &mut left)? {
                End::Found(point) => {
                    return Ok(Guess {
                        cost: self.slots.cost(point.as_slice()),
                        answer: Some(point),
                    });
                }
                End::Reached => cost = cost.saturating_add(cost / 10).saturating_add(1),
                End::Lost => break,
            }
        }
        Ok(Guess { cost, answer: None })
    }
}
