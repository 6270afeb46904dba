ghost use Rattle.std.specs.Prelude.{◌≡◌, ◌<◌, ◌^◌, length, IfOk, Ok};
ghost use Rattle.qf_inputs.specs.Known.{IsSoundStory};
ghost use Rattle.qf_app.specs.Answers as spec;
ghost use Rattle.qf_app.specs.Answers.{AreItsParameters, AreParameters, IsFinalTable, IsTable, if_narrow, or_refused};

use crate::answer::line_answer;
use crate::parameters::print_parameters;
use qf_base::{List, NoMemory, Point, Refusal, Status};
use qf_inputs::{Story, read_story, widths_within};
use qf_point::{DomainFault, Domains};
use qf_replay::replay;
use qf_shell::{Answer, refusal_answer};
use qf_table::print_table;
use std::alloc::Global;

// Each old constant as the only value of its parameter.
fn olds_alone(alloc: Global, olds: &List<i64>) -> Result<Domains, NoMemory>
    requires { length olds.now < 2 ^ 32 }
    ensures olds { IfOk result (λ domains. domains.olds ≡ olds.now) }
    ensures alone { IfOk result (λ domains. domains.region ≡ spec.olds_alone olds.now) }
{
    match Domains::new(alloc, olds, &List::new(alloc)) {
        Ok(domains) => Ok(domains),
        Err(fault) => match fault {
            DomainFault::NoMemory => Err(NoMemory),
            _ => unreachable!(),
        },
    }
}

// The final rows of a story with its old constants, unless a statement is too wide.
fn final_table(alloc: Global, story: &Story) -> Result<Answer, NoMemory>
    requires { IsSoundStory story.now }
    ensures { IfOk result (or_refused IsFinalTable (if_narrow (Ok story.now))) }
{
    let program = &story.program;
    let domains = olds_alone(alloc, program.olds())?;
    if let Err(refusal) = widths_within(alloc, program, &story.table, &domains)? {
        return refusal_answer(alloc, &refusal);
    }
    let olds = Point::new(alloc, program.olds())?;
    let rows = replay(alloc, program, &story.table, &olds)?;
    let table = print_table(alloc, program.columns(), program.texts(), &rows)?;
    Ok(line_answer(alloc, Status::Done, table))
}

// The final table of what was read, or its refusal.
fn table_or_refusal(alloc: Global, story: &Result<Story, Refusal>) -> Result<Answer, NoMemory>
    requires { IfOk story.now IsSoundStory }
    ensures { IfOk result (or_refused IsFinalTable (if_narrow story.now)) }
{
    match story {
        Ok(story) => final_table(alloc, story),
        Err(refusal) => refusal_answer(alloc, refusal),
    }
}

// The parameters of what was read, or its refusal.
fn parameters_or_refusal(alloc: Global, story: &Result<Story, Refusal>) -> Result<Answer, NoMemory>
    requires { IfOk story.now IsSoundStory }
    ensures { IfOk result (or_refused AreItsParameters story.now) }
{
    match story {
        Ok(story) => Ok(line_answer(
            alloc,
            Status::Done,
            print_parameters(alloc, story.log.parameters().as_slice())?,
        )),
        Err(refusal) => refusal_answer(alloc, refusal),
    }
}

/// The answer of `replay` to its two files: the final table as CSV, or their first refusal.
pub(crate) fn replayed(alloc: Global, initial: &[u8], log: &[u8]) -> Result<Answer, NoMemory>
    requires initial { length initial.now < 2 ^ 30 }
    requires log { length log.now < 2 ^ 30 }
    ensures { IfOk result (IsTable initial.now log.now) }
{
    let story = read_story(alloc, initial, log)?;
    let answer = table_or_refusal(alloc, &story);
    drop(story);
    answer
}

/// The answer of `params` to its two files: the parameters of the log as CSV, or their first refusal.
pub(crate) fn listed(alloc: Global, initial: &[u8], log: &[u8]) -> Result<Answer, NoMemory>
    requires initial { length initial.now < 2 ^ 30 }
    requires log { length log.now < 2 ^ 30 }
    ensures { IfOk result (AreParameters initial.now log.now) }
{
    let story = read_story(alloc, initial, log)?;
    let answer = parameters_or_refusal(alloc, &story);
    drop(story);
    answer
}
