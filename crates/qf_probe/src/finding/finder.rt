ghost use Rattle.std.specs.Prelude.{◌<◌, ◌^◌, length};

use super::log::{Entry, Log, end_of, read_end};
use super::queue::Queue;
use super::users::Users;
use qf_base::{Bound, Intervals, NoMemory};
use qf_lin::{Inequality, System};
use std::alloc::Global;

/// How it ended that bounds were taken: an interval crossed, nothing more followed, or the limit was reached.
#[derive(Clone, Copy)]
pub enum Outcome {
    Crossed(u32),
    Settled,
    Tired,
}

/// Bounds with what is still to be looked at, and how many inequalities may still be.
#[derive(Drop)]
pub struct Finder {
    pub log: Log,
    users: Users,
    queue: Queue,
    left: u32,
}

/// The inequality of a number, from 1.
pub fn numbered(system: &System, number: u32) -> Option<&Inequality> {
    if number == 0 {
        return None;
    }
    system.inequalities.as_slice().get(number as usize - 1)
}

// By how much the greatest value of the row's sum is above what the row asks for.
fn slack(row: &Inequality, log: &Log) -> i64 {
    let mut slack = row.least.wrapping_neg();
    let terms = row.terms.as_slice();
    for term in terms {
        let most = log.end(read_end(term.0, term.1));
        slack = slack.wrapping_add(term.0.wrapping_mul(most));
    }
    slack
}

// The bound that a row with this slack gives for a variable of this factor, where it is better than the present one.
fn better_bound(factor: i64, slack: i64, low: i64, high: i64) -> Option<Bound> {
    let width = high.wrapping_sub(low);
    if factor > 0 {
        if width.wrapping_mul(factor) <= slack {
            return None;
        }
        let by = slack.checked_div_euclid(factor)?;
        Some(Bound::Low(high.wrapping_sub(by)))
    } else {
        let size = factor.wrapping_neg();
        if width.wrapping_mul(size) <= slack {
            return None;
        }
        let by = slack.checked_div_euclid(size)?;
        Some(Bound::High(low.wrapping_add(by)))
    }
}

impl Finder {
    /// All inequalities are to be looked at, the last one first, since a row's goal stands at the end and the hull of a box
    /// has what follows from the others; and at most so many looks are to be taken.
    pub fn new(
        alloc: Global,
        system: &System,
        bounds: &Intervals,
        limit: u32,
    ) -> Result<Finder, NoMemory>
        requires few { length system.now.inequalities < 2 ^ 32 }
    {
        let count = system.inequalities.len();
        let mut queue = Queue::new(alloc, count)?;
        for place in (0..count as u32).rev() {
            queue.add(place + 1)?;
        }
        Ok(Finder {
            log: Log::new(alloc, bounds)?,
            users: Users::new(alloc, system)?,
            queue,
            left: limit,
        })
    }

    // The inequalities that read an end are to be looked at.
    fn wake(&mut self, end: usize) -> Result<(), NoMemory> {
        let mut at = self.users.first(end);
        while at > 0 {
            let (row, next) = self.users.link(at);
            self.queue.add(row)?;
            at = next.min(at - 1);
        }
        Ok(())
    }

    /// Takes a bound, by an inequality or, where that is 0, as a case.
    pub fn take(&mut self, row: u32, var: u32, bound: Bound) -> Result<(), NoMemory> {
        self.log.take(row, var, bound)?;
        self.wake(end_of(var, bound).0)
    }

    // Takes the bounds that an inequality gives; the variable whose interval crossed, if one did.
    fn look(&mut self, system: &System, number: u32) -> Result<Option<u32>, NoMemory> {
        let Some(row) = numbered(system, number) else {
            return Ok(None);
        };
        let slack = slack(row, &self.log);
        let terms = row.terms.as_slice();
        for term in terms {
            let (low, high) = self.log.interval(term.1);
            if let Some(bound) = better_bound(term.0, slack, low, high) {
                self.take(number, term.1, bound)?;
                let (low, high) = self.log.interval(term.1);
                if high < low {
                    return Ok(Some(term.1));
                }
            }
        }
        Ok(None)
    }

    /// Takes bounds until an interval crosses or nothing more follows.
    pub fn follow(&mut self, system: &System) -> Result<Outcome, NoMemory> {
        for _ in 0..self.left {
            self.left = self.left.saturating_sub(1);
            let Some(number) = self.queue.next() else {
                return Ok(Outcome::Settled);
            };
            if let Some(var) = self.look(system, number)? {
                self.queue.clear();
                return Ok(Outcome::Crossed(var));
            }
        }
        self.queue.clear();
        Ok(Outcome::Tired)
    }

    /// The last selector that may still be 0 or 1.
    pub fn last_open(&self, system: &System) -> Option<u32> {
        for var in system.selectors.as_slice().iter().rev() {
            let (low, high) = self.log.interval(*var);
            if low == 0 && high == 1 {
                return Some(*var);
            }
        }
        None
    }

    /// Notes that an entry's conclusion is needed, and so what its inequality read for it.
    pub fn need_reads(&mut self, system: &System, entry: Entry) {
        if let Some(row) = numbered(system, entry.row) {
            let terms = row.terms.as_slice();
            for term in terms {
                if term.1 != entry.var {
                    self.log.need(read_end(term.0, term.1));
                }
            }
        }
    }
}
