ghost use Rattle.std.specs.Prelude.{◌≡◌, ◌<◌, ◌^◌, [], ◌∷◌, length, IfOk};
ghost use Rattle.qf_certtext.specs.Spelling.{spelling};
ghost use Rattle.qf_goal.specs.SoundCase.{IsSoundCase};
ghost use Rattle.qf_inputs.specs.Known.{AreOf, IsSearchable};
ghost use Rattle.qf_inputs.specs.Opened.{inputs_in};
ghost use Rattle.qf_point.specs.Domains.{AreSmall, HasSmallEnds};
ghost use Rattle.qf_search.specs.Solving.{IsSolved, answer_in, cert_of, tree_in};
ghost use Rattle.qf_app.specs.Answers.{IsDiagnosis, or_refused};
ghost use Rattle.qf_app.specs.Finding.{IsFound, Says, budget_line};
ghost use Rattle.qf_app.specs.Meaning as meaning;

use crate::command::Diagnose;
use qf_base::{List, NoMemory, Refusal, Status, Text};
use qf_certtext::write;
use qf_goal::Problem;
use qf_inputs::{Opened, read_question};
use qf_search::{Found, diagnose};
use qf_shell::{Answer, refusal_answer};
use qf_splice::repaired;
use qf_tree::{Answer as Claim, Cert};
use std::alloc::Global;

// What is known of every problem.
fn note_sound(problem: &Problem)
    ensures sound { IsSoundCase problem.now }
    ensures ends { AreSmall problem.now.domains.olds → HasSmallEnds problem.now.domains.region }
{
    let _program = problem.program();
    let _region = problem.domains().region();
}

// The lines of a budget that was too small, under which no repair costs less than this.
fn budget_answer(alloc: Global, least: u128) -> Result<List<u8>, NoMemory>
    ensures { IfOk result (λ line. line ≡ budget_line least) }
{
    let line = format!(in alloc; "budget\nat least {least}\n")?;
    Ok(List::from_vec(line.into_bytes()))
}

// The status of what was found, and what is said: the text of the log with the constants of the least repair, `none`, or
// that the budget was too small.
fn said(
    alloc: Global,
    words: &Diagnose<'_>,
    log: &[u8],
    opened: &Opened,
    found: &Found,
) -> Result<(Status, List<u8>), NoMemory>
    requires read { AreOf log.now (inputs_in opened.now) }
    requires searchable { IsSearchable opened.now }
    requires bytes { length log.now < 2 ^ 30 }
    requires solved { IsSolved opened.now.problem opened.now.root words.now.budget found.now }
    ensures { IfOk result (λ said. Says (meaning.diagnosis words.now) log.now opened.now (tree_in found.now) (answer_in found.now) said.0 said.1) }
{
    note_sound(&opened.problem);
    match found {
        Found::Repair(point, _) => { Ok((Status::Done, repaired(alloc, log, &opened.log, point)?)) }
        Found::Nothing(_) => Ok((Status::Nothing, List::from_slice(alloc, b"none\n")?)),
        Found::Budget(_, least) => Ok((Status::Budget, budget_answer(alloc, *least)?)),
    }
}

// The certificate of what was found.
fn certificate_of(found: Found) -> Cert
    ensures { result ≡ cert_of found }
{
    match found {
        Found::Repair(point, tree) => Cert {
            answer: Claim::Repair(point),
            tree,
        },
        Found::Nothing(tree) => Cert {
            answer: Claim::Nothing,
            tree,
        },
        Found::Budget(tree, _) => Cert {
            answer: Claim::Budget,
            tree,
        },
    }
}

// The text of a certificate under its name.
fn files_of(alloc: Global, name: &str, cert: &Cert) -> Result<List<(Text, List<u8>)>, NoMemory>
    ensures { IfOk result (λ files. files ≡ (name.now, spelling cert.now) ∷ []) }
{
    let bytes = write(alloc, cert)?;
    let name = Text::new(alloc, name)?;
    let mut files = List::new(alloc);
    files.push((name, bytes))?;
    Ok(files)
}

// The answer that puts a certificate and says a line with a status.
fn with_certificate(
    alloc: Global,
    words: &Diagnose<'_>,
    said: (Status, List<u8>),
    cert: Cert,
) -> Result<Answer, NoMemory>
    ensures status { IfOk result (λ answer. answer.status ≡ said.0) }
    ensures files { IfOk result (λ answer. answer.files ≡ (words.now.certificate.now, spelling cert) ∷ []) }
    ensures line { IfOk result (λ answer. answer.line ≡ said.1) }
{
    let (status, line) = said;
    let files = files_of(alloc, words.certificate, &cert);
    drop(cert);
    match files {
        Ok(files) => Ok(Answer {
            status,
            files,
            line,
        }),
        Err(memory) => {
            drop(line);
            Err(memory)
        }
    }
}

// The answer to a question that is accepted.
fn found(
    alloc: Global,
    words: &Diagnose<'_>,
    log: &[u8],
    opened: &Opened,
) -> Result<Answer, NoMemory>
    requires read { AreOf log.now (inputs_in opened.now) }
    requires searchable { IsSearchable opened.now }
    requires bytes { length log.now < 2 ^ 30 }
    ensures { IfOk result (IsFound (meaning.diagnosis words.now) log.now opened.now) }
{
    let found = diagnose(alloc, &opened.problem, words.budget)?;
    match said(alloc, words, log, opened, &found) {
        Ok(said) => with_certificate(alloc, words, said, certificate_of(found)),
        Err(memory) => {
            drop(found);
            Err(memory)
        }
    }
}

// The answer to what was read, or its refusal.
fn answered(
    alloc: Global,
    words: &Diagnose<'_>,
    log: &[u8],
    question: &Result<Opened, Refusal>,
) -> Result<Answer, NoMemory>
    requires read { IfOk question.now (λ opened. AreOf log.now (inputs_in opened)) }
    requires searchable { IfOk question.now IsSearchable }
    requires bytes { length log.now < 2 ^ 30 }
    ensures { IfOk result (or_refused (IsFound (meaning.diagnosis words.now) log.now) question.now) }
{
    match question {
        Ok(opened) => found(alloc, words, log, opened),
        Err(refusal) => refusal_answer(alloc, refusal),
    }
}

/// The answer of `diagnose` to its four files: a certificate, which is put under the name that the words give, with the text
/// of the log with the constants of the least repair, `none`, or that the budget was too small; or their first refusal.
pub(crate) fn diagnosis(
    alloc: Global,
    words: &Diagnose<'_>,
    initial: &[u8],
    log: &[u8],
    complaints: &[u8],
    domains: &[u8],
) -> Result<Answer, NoMemory>
    requires initial { length initial.now < 2 ^ 30 }
    requires log { length log.now < 2 ^ 30 }
    requires complaints { length complaints.now < 2 ^ 30 }
    requires domains { length domains.now < 2 ^ 30 }
    ensures { IfOk result (IsDiagnosis (meaning.diagnosis words.now) initial.now log.now complaints.now domains.now) }
{
    let question = read_question(alloc, initial, log, complaints, domains)?;
    let answer = answered(alloc, words, log, &question);
    drop(question);
    answer
}
