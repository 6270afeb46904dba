ghost use Rattle.std.specs.Prelude.{◌≡◌, ◌<◌, ◌^◌, length, IfOk, IfErr, Ok, Err};
ghost use Rattle.std.specs.List.{AllByRecursion};
ghost use Rattle.qf_forms.specs.Complaints as forms;
ghost use Rattle.qf_forms.specs.Faults as faults;
ghost use Rattle.qf_forms.specs.Stated.{StatesNamesOnce, StatesSmallNumbers};
ghost use Rattle.qf_ir.specs.Plan.{Fits};
ghost use Rattle.qf_inputs.specs.Inputs.{AreInputs, with_complaints, with_domains, with_story};
ghost use Rattle.qf_inputs.specs.Known.{IsSoundStory, AreOf};
ghost use Rattle.qf_inputs.specs.Refusals.{or_refusal};
ghost use Rattle.qf_log.specs.Reading.{olds_of};

use crate::domains::{domains_in, widths_within};
use crate::refusal::refused;
use crate::story::{Story, read_story};
use qf_base::{List, NoMemory, Refusal};
use qf_forms::{Complaint, read_complaints};
use qf_goal::Problem;
use qf_log::Log;
use qf_point::Domains;
use std::alloc::Global;

/// What a table, its log, complaints and domains say together: the problem, and the log of which its program was made.
#[derive(Drop)]
pub struct Inputs {
    pub problem: Problem,
    pub log: Log,
}

// What is asked of a story: the domains, within which no statement is too wide, and the complaints.
#[derive(Drop)]
struct Asked {
    domains: Domains,
    complaints: List<Complaint>,
}

// The complaints in these bytes.
fn complaints_in(alloc: Global, bytes: &[u8]) -> Result<Result<List<Complaint>, Refusal>, NoMemory>
    requires { length bytes.now < 2 ^ 30 }
    ensures complaints { IfOk result (λ complaints. complaints ≡ or_refusal faults.refusal_of (forms.complaints_of bytes.now)) }
    ensures names { IfOk result (λ complaints. IfOk complaints (λ cs. AllByRecursion StatesNamesOnce cs)) }
    ensures numbers { IfOk result (λ complaints. IfOk complaints (λ cs. AllByRecursion StatesSmallNumbers cs)) }
{
    match read_complaints(alloc, bytes) {
        Ok(complaints) => Ok(Ok(complaints)),
        Err(fault) => Ok(Err(refused(fault.refusal())?)),
    }
}

// The complaints in these bytes, unless a statement of the story is too wide for the domains.
fn complaints_within(
    alloc: Global,
    story: &Story,
    domains: &Domains,
    complaints: &[u8],
) -> Result<Result<List<Complaint>, Refusal>, NoMemory>
    requires sound { IsSoundStory story.now }
    requires complaints { length complaints.now < 2 ^ 30 }
    ensures asked { IfOk result (λ asked. IfOk asked (λ cs. with_domains story.now complaints.now (Ok domains.now) ≡ with_complaints story.now domains.now (Ok cs))) }
    ensures refused { IfOk result (λ asked. IfErr asked (λ refusal. with_domains story.now complaints.now (Ok domains.now) ≡ Err refusal)) }
    ensures fits { IfOk result (λ asked. IfOk asked (λ cs. Fits story.now.program story.now.table domains.now.region)) }
    ensures names { IfOk result (λ asked. IfOk asked (λ cs. AllByRecursion StatesNamesOnce cs)) }
    ensures numbers { IfOk result (λ asked. IfOk asked (λ cs. AllByRecursion StatesSmallNumbers cs)) }
{
    if let Err(refusal) = widths_within(alloc, &story.program, &story.table, domains)? {
        return Ok(Err(refusal));
    }
    complaints_in(alloc, complaints)
}

// What the complaints in these bytes ask within the domains. Domains that are refused are let go by one call.
fn asked_within(
    alloc: Global,
    story: &Story,
    domains: Domains,
    complaints: &[u8],
) -> Result<Result<Asked, Refusal>, NoMemory>
    requires sound { IsSoundStory story.now }
    requires complaints { length complaints.now < 2 ^ 30 }
    ensures asked { IfOk result (λ asked. IfOk asked (λ a. with_domains story.now complaints.now (Ok domains) ≡ with_complaints story.now domains (Ok a.complaints))) }
    ensures refused { IfOk result (λ asked. IfErr asked (λ refusal. with_domains story.now complaints.now (Ok domains) ≡ Err refusal)) }
    ensures domains { IfOk result (λ asked. IfOk asked (λ a. a.domains ≡ domains)) }
    ensures fits { IfOk result (λ asked. IfOk asked (λ a. Fits story.now.program story.now.table domains.region)) }
    ensures names { IfOk result (λ asked. IfOk asked (λ a. AllByRecursion StatesNamesOnce a.complaints)) }
    ensures numbers { IfOk result (λ asked. IfOk asked (λ a. AllByRecursion StatesSmallNumbers a.complaints)) }
{
    match complaints_within(alloc, story, &domains, complaints) {
        Ok(Ok(complaints)) => Ok(Ok(Asked {
            domains,
            complaints,
        })),
        Ok(Err(refusal)) => {
            drop(domains);
            Ok(Err(refusal))
        }
        Err(memory) => {
            drop(domains);
            Err(memory)
        }
    }
}

// What the complaints and the domains in these bytes ask of a story, unless a statement is too wide for the domains.
fn asked_of(
    alloc: Global,
    story: &Story,
    complaints: &[u8],
    domains: &[u8],
) -> Result<Result<Asked, Refusal>, NoMemory>
    requires sound { IsSoundStory story.now }
    requires complaints { length complaints.now < 2 ^ 30 }
    requires domains { length domains.now < 2 ^ 30 }
    ensures asked { IfOk result (λ asked. IfOk asked (λ a. with_story (Ok story.now) complaints.now domains.now ≡ with_complaints story.now a.domains (Ok a.complaints))) }
    ensures refused { IfOk result (λ asked. IfErr asked (λ refusal. with_story (Ok story.now) complaints.now domains.now ≡ Err refusal)) }
    ensures olds { IfOk result (λ asked. IfOk asked (λ a. a.domains.olds ≡ story.now.program.olds)) }
    ensures fits { IfOk result (λ asked. IfOk asked (λ a. Fits story.now.program story.now.table a.domains.region)) }
    ensures names { IfOk result (λ asked. IfOk asked (λ a. AllByRecursion StatesNamesOnce a.complaints)) }
    ensures numbers { IfOk result (λ asked. IfOk asked (λ a. AllByRecursion StatesSmallNumbers a.complaints)) }
{
    match domains_in(alloc, story.program.olds(), domains)? {
        Ok(domains) => asked_within(alloc, story, domains, complaints),
        Err(refusal) => Ok(Err(refusal)),
    }
}

// The problem of a story and of what is asked of it.
fn problem_of(
    alloc: Global,
    story: Story,
    asked: Asked,
) -> Result<Result<Inputs, Refusal>, NoMemory>
    requires sound { IsSoundStory story }
    requires olds { asked.domains.olds ≡ story.program.olds }
    requires fits { Fits story.program story.table asked.domains.region }
    requires names { AllByRecursion StatesNamesOnce asked.complaints }
    requires numbers { AllByRecursion StatesSmallNumbers asked.complaints }
    ensures inputs { IfOk result (λ inputs. inputs ≡ with_complaints story asked.domains (Ok asked.complaints)) }
    ensures log { IfOk result (λ inputs. IfOk inputs (λ i. i.log ≡ story.log)) }
    ensures olds { IfOk result (λ inputs. IfOk inputs (λ i. i.problem.plan.olds ≡ olds_of i.log)) }
{
    let Story {
        table,
        log,
        program,
    } = story;
    let Asked {
        domains,
        complaints,
    } = asked;
    let problem = Problem::new(alloc, program, table, &complaints, domains);
    drop(complaints);
    match problem {
        Ok(problem) => Ok(Ok(Inputs { problem, log })),
        Err(fault) => {
            drop(log);
            Ok(Err(refused(fault.refusal())?))
        }
    }
}

// The problem of a story, of the complaints and of the domains in these bytes. A story that is refused is let go by one call.
fn over_story(
    alloc: Global,
    story: Story,
    complaints: &[u8],
    domains: &[u8],
) -> Result<Result<Inputs, Refusal>, NoMemory>
    requires sound { IsSoundStory story }
    requires complaints { length complaints.now < 2 ^ 30 }
    requires domains { length domains.now < 2 ^ 30 }
    ensures inputs { IfOk result (λ inputs. inputs ≡ with_story (Ok story) complaints.now domains.now) }
    ensures log { IfOk result (λ inputs. IfOk inputs (λ i. i.log ≡ story.log)) }
    ensures olds { IfOk result (λ inputs. IfOk inputs (λ i. i.problem.plan.olds ≡ olds_of i.log)) }
{
    match asked_of(alloc, &story, complaints, domains) {
        Ok(Ok(asked)) => problem_of(alloc, story, asked),
        Ok(Err(refusal)) => {
            drop(story);
            Ok(Err(refusal))
        }
        Err(memory) => {
            drop(story);
            Err(memory)
        }
    }
}

/// What a table, its log, complaints and domains say together, or their first refusal: that of the story, of the domains,
/// of the widths, and of the complaints, in this order.
pub fn read_inputs(
    alloc: Global,
    initial: &[u8],
    log: &[u8],
    complaints: &[u8],
    domains: &[u8],
) -> Result<Result<Inputs, Refusal>, NoMemory>
    requires initial { length initial.now < 2 ^ 30 }
    requires log { length log.now < 2 ^ 30 }
    requires complaints { length complaints.now < 2 ^ 30 }
    requires domains { length domains.now < 2 ^ 30 }
    ensures inputs { IfOk result (AreInputs initial.now log.now complaints.now domains.now) }
    ensures read { IfOk result (λ inputs. IfOk inputs (AreOf log.now)) }
{
    match read_story(alloc, initial, log)? {
        Ok(story) => over_story(alloc, story, complaints, domains),
        Err(refusal) => Ok(Err(refusal)),
    }
}
