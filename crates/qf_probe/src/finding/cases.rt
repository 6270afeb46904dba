ghost use Rattle.std.specs.Prelude.{◌<◌, ◌^◌, length};

use super::finder::{Finder, Outcome};
use super::log::{high_end, low_end};
use qf_base::{Bound, Intervals, List, NoMemory};
use qf_lin::{Step, System};
use std::alloc::Global;

/// Which steps to keep: those that a conclusion needs, or all.
#[derive(Clone, Copy, PartialEq, Eq)]
pub enum Keep {
    Needed,
    All,
}

// How many cases may be nested.
const DEPTH: u32 = 8;

// Undoes what was taken since there were so many entries, and adds the steps to be kept, the last one first. Says whether
// the case that was taken among them was needed.
fn unwind(
    finder: &mut Finder,
    system: &System,
    from: usize,
    keep: Keep,
    steps: &mut Vec<Step>,
) -> Result<bool, NoMemory> {
    let mut is_used = false;
    for _ in from..finder.log.len() {
        let Some(entry) = finder.log.undo() else {
            break;
        };
        if !entry.is_needed && keep == Keep::Needed {
            continue;
        }
        if entry.row == 0 {
            is_used = true;
        } else {
            finder.need_reads(system, entry);
            steps.push(Step::Tight {
                inequality: entry.row,
                var: entry.var,
                bound: entry.bound,
            })?;
        }
    }
    Ok(is_used)
}

fn undo(finder: &mut Finder, from: usize) {
    for _ in from..finder.log.len() {
        let _ = finder.log.undo();
    }
}

// Takes away the steps between two places.
fn cut_out(steps: &mut Vec<Step>, from: usize, to: usize) -> Result<(), NoMemory> {
    if from <= to && to <= steps.len() {
        let mut kept = steps.split_off(to)?;
        steps.truncate(from);
        steps.append(&mut kept)?;
    }
    Ok(())
}

// Refutes the bounds with cases at most so deep, and undoes what was taken since there were so many entries. Where it does,
// it adds the steps, the last one first, and says whether the case among what was undone was needed.
#[cycle(closing)]
fn close(
    finder: &mut Finder,
    system: &System,
    from: usize,
    depth: u32,
    keep: Keep,
    steps: &mut Vec<Step>,
) -> Result<Option<bool>, NoMemory> {
    let is_closed = match finder.follow(system)? {
        Outcome::Crossed(var) => {
            finder.log.need(low_end(var));
            finder.log.need(high_end(var));
            steps.push(Step::Empty)?;
            true
        }
        Outcome::Settled => depth > 0 && close_cases(finder, system, depth - 1, keep, steps)?,
        Outcome::Tired => false,
    };
    if is_closed {
        Ok(Some(unwind(finder, system, from, keep, steps)?))
    } else {
        undo(finder, from);
        Ok(None)
    }
}

// Refutes both cases of the last open selector. A case that the other's refutation doesn't need is left out.
#[cycle(closing)]
fn close_cases(
    finder: &mut Finder,
    system: &System,
    depth: u32,
    keep: Keep,
    steps: &mut Vec<Step>,
) -> Result<bool, NoMemory> {
    let Some(var) = finder.last_open(system) else {
        return Ok(false);
    };
    let from = finder.log.len();
    let start = steps.len();
    finder.take(0, var, Bound::Low(1))?;
    match close(finder, system, from, depth, keep, steps)? {
        None => return Ok(false),
        Some(false) => return Ok(true),
        Some(true) => {}
    }
    let middle = steps.len();
    finder.take(0, var, Bound::High(0))?;
    match close(finder, system, from, depth, keep, steps)? {
        None => return Ok(false),
        Some(false) => cut_out(steps, start, middle)?,
        Some(true) => steps.push(Step::Case { var })?,
    }
    Ok(true)
}

/// Steps that may refute the bounds, found within so many looks at inequalities.
pub fn find(
    alloc: Global,
    system: &System,
    bounds: &Intervals,
    limit: u32,
    keep: Keep,
) -> Result<Option<List<Step>>, NoMemory>
    requires few { length system.now.inequalities < 2 ^ 32 }
{
    let mut steps = Vec::new(alloc);
    let mut finder = Finder::new(alloc, system, bounds, limit)?;
    let closed = close(&mut finder, system, 0, DEPTH, keep, &mut steps)?;
    if closed.is_none() {
        return Ok(None);
    }
    steps.reverse();
    Ok(Some(List::from_vec(steps)))
}
