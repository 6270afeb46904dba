ghost use Rattle.std.specs.Prelude.{◌≡◌, ◌<◌, ◌≤◌, ◌^◌, length, IfOk, IfSome, IfNone, List as Items};
ghost use Rattle.qf_ir.specs.Flow.{Place};
ghost use Rattle.qf_slice.specs.Marks.{AreSeeds, AreNeeded, IsNeededSet, IsNext, AreSettled, marked_from};

use qf_base::{List, NoMemory, ParamSet};
use qf_impact::impacts;
use qf_ir::{ColumnSet, Program};
use std::alloc::Global;

// The first set from low on, up to high, that is not marked and has something in common with the joined one.
fn unmarked_between(
    reaches: &[ColumnSet],
    marks: &[bool],
    joined: ColumnSet,
    low: usize,
    high: usize,
) -> Option<usize>
    requires same { length marks.now ≡ length reaches.now }
    requires high { high ≤ length reaches.now }
    ensures next { IfSome result (IsNext reaches.now marks.now joined) }
    ensures settled { IfNone result (AreSettled reaches.now marks.now joined low high) }
{
    for i in low..high {
        if !marks[i] && reaches[i].meets(joined) {
            return Some(i);
        }
    }
    None
}

// Such a set, which is looked for from a place on and then before it.
fn next_unmarked(
    reaches: &[ColumnSet],
    marks: &[bool],
    joined: ColumnSet,
    from: usize,
) -> Option<usize>
    requires same { length marks.now ≡ length reaches.now }
    requires from { from ≤ length reaches.now }
    ensures next { IfSome result (IsNext reaches.now marks.now joined) }
    ensures settled { IfNone result (AreSettled reaches.now marks.now joined 0 (length reaches.now)) }
{
    match unmarked_between(reaches, marks, joined, from, reaches.len()) {
        Some(next) => Some(next),
        None => unmarked_between(reaches, marks, joined, 0, from),
    }
}

/// Which parameters are needed; parameter k, from 1, stands at place k - 1. Those that reach a seed are needed, and with a
/// needed one all whose reach has something in common with its reach.
pub fn needed_list(
    alloc: Global,
    program: &Program,
    seeds: &ColumnSet,
) -> Result<List<bool>, NoMemory>
    ensures needed { IfOk result (λ marks. (places : Items Place) → AreSeeds seeds.now places → AreNeeded program.now.statements places marks) }
    ensures len { IfOk result (λ marks. length marks ≡ length program.now.olds) }
{
    let reaches = impacts(alloc, program)?;
    let reaches = reaches.as_slice();
    let mut marks = vec![in alloc; false; reaches.len()]?;
    let mut joined = *seeds;
    let mut from = 0;
    while let Some(next) = next_unmarked(reaches, marks.as_slice(), joined, from) {
        marks[next] = true;
        joined.add_all(reaches[next]);
        from = next;
    }
    Ok(List::from_vec(marks))
}

// The numbers of the marked parameters.
fn marked(alloc: Global, marks: &[bool]) -> Result<List<u32>, NoMemory>
    requires { length marks.now < 2 ^ 32 }
    ensures { IfOk result (λ params. params ≡ marked_from 1 marks.now) }
{
    let mut params = List::new(alloc);
    for i in 0..marks.len() {
        if marks[i] {
            params.push(i as u32 + 1)?;
        }
    }
    Ok(params)
}

/// The set of the needed parameters, by their numbers from 1: the least set that has the parameters that reach a seed, and
/// with a parameter all whose reach has something in common with its reach.
pub fn needed(alloc: Global, program: &Program, seeds: &ColumnSet) -> Result<ParamSet, NoMemory>
    ensures { IfOk result (λ params. (places : Items Place) → AreSeeds seeds.now places → IsNeededSet program.now.statements places params) }
{
    let _statements = program.statements();
    let marks = needed_list(alloc, program, seeds)?;
    let params = marked(alloc, marks.as_slice())?;
    ParamSet::new(alloc, &params)
}
