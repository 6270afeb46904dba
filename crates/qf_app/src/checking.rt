ghost use Rattle.std.specs.Prelude.{◌≡◌, ℕ, ◌<◌, ◌^◌, List, [], length, IfOk};
ghost use Rattle.qf_base.specs.declared.status.Status.TheVariants as status;
ghost use Rattle.qf_certtext.specs.Texts.{IsText};
ghost use Rattle.qf_tree.specs.Lines.{HasSpelling};
ghost use Rattle.qf_inputs.specs.declared.opened.Opened.{Opened as OpenedValue};
ghost use Rattle.qf_app.specs.Answers.{IsCheck, IsLine, or_refused};
ghost use Rattle.qf_app.specs.Checking.{IsChecked, IsFaultLine, accepted_line, rejected_line};

use crate::answer::line_answer;
use qf_base::{List, NoMemory, Refusal, Status};
use qf_certtext::{CertFault, read};
use qf_check::{CheckFault, Verdict, check};
use qf_goal::Problem;
use qf_inputs::{Opened, read_question};
use qf_shell::{Answer, refusal_answer};
use qf_tree::Cert;
use std::alloc::Global;

// What is said of a certificate that is accepted.
fn accepted(alloc: Global, verdict: Verdict) -> Result<Answer, NoMemory>
    ensures { IfOk result (IsLine status.Done (accepted_line verdict)) }
{
    let line = match verdict {
        Verdict::Repair(cost) => format!(in alloc; "accepted: repair {cost}\n")?,
        Verdict::Nothing => format!(in alloc; "accepted: none\n")?,
        Verdict::Budget(least) => format!(in alloc; "accepted: budget, at least {least}\n")?,
    };
    Ok(line_answer(alloc, Status::Done, List::from_vec(line.into_bytes())))
}

// What is said of a certificate whose line with this number breaks its rule.
fn rejected(alloc: Global, number: u64) -> Result<Answer, NoMemory>
    ensures { IfOk result (IsLine status.Rejected (rejected_line number)) }
{
    let line = format!(in alloc; "rejected: line {number}\n")?;
    Ok(line_answer(alloc, Status::Rejected, List::from_vec(line.into_bytes())))
}

// What is said of bytes that are no certificate's text.
fn unread(alloc: Global, fault: CertFault) -> Result<Answer, NoMemory>
    ensures status { IfOk result (λ a. a.status ≡ status.Rejected) }
    ensures files { IfOk result (λ a. a.files ≡ []) }
    ensures line { IfOk result (λ a. IsFaultLine fault a.line) }
{
    let line = match fault {
        CertFault::BadLine(number) => format!(in alloc; "rejected: bad line {number}\n")?,
        CertFault::CutShort => format!(in alloc; "rejected: cut short\n")?,
        CertFault::Trailing(number) => format!(in alloc; "rejected: trailing line {number}\n")?,
        CertFault::NoMemory => return Err(NoMemory),
    };
    Ok(line_answer(alloc, Status::Rejected, List::from_vec(line.into_bytes())))
}

// What the checker says of a certificate that was read.
fn judged(alloc: Global, problem: &Problem, cert: &Cert) -> Result<Answer, NoMemory>
    requires { HasSpelling cert.now }
    ensures { (bytes : List ℕ) → IsText cert.now bytes → IfOk result (IsChecked problem.now bytes) }
{
    match check(alloc, problem, cert) {
        Ok(verdict) => accepted(alloc, verdict),
        Err(CheckFault::Rejected(number)) => rejected(alloc, number),
        Err(CheckFault::NoMemory) => Err(NoMemory),
    }
}

// What is said of the bytes of a certificate for a problem.
fn read_and_judged(alloc: Global, problem: &Problem, bytes: &[u8]) -> Result<Answer, NoMemory>
    ensures { IfOk result (IsChecked problem.now bytes.now) }
{
    match read(alloc, bytes) {
        Ok(cert) => judged(alloc, problem, &cert),
        Err(fault) => unread(alloc, fault),
    }
}

// What is said of the bytes of a certificate for what was read, or its refusal.
fn answered(
    alloc: Global,
    question: &Result<Opened, Refusal>,
    bytes: &[u8],
) -> Result<Answer, NoMemory>
    ensures { IfOk result (or_refused (λ (o : OpenedValue). IsChecked o.problem bytes.now) question.now) }
{
    match question {
        Ok(opened) => read_and_judged(alloc, &opened.problem, bytes),
        Err(refusal) => refusal_answer(alloc, refusal),
    }
}

/// The answer of `check` to its five files: that the certificate is accepted, with its verdict; why it is rejected; or the
/// line of the first refusal of the four others.
pub(crate) fn checked(
    alloc: Global,
    initial: &[u8],
    log: &[u8],
    complaints: &[u8],
    domains: &[u8],
    certificate: &[u8],
) -> Result<Answer, NoMemory>
    requires initial { length initial.now < 2 ^ 30 }
    requires log { length log.now < 2 ^ 30 }
    requires complaints { length complaints.now < 2 ^ 30 }
    requires domains { length domains.now < 2 ^ 30 }
    ensures { IfOk result (IsCheck initial.now log.now complaints.now domains.now certificate.now) }
{
    let question = read_question(alloc, initial, log, complaints, domains)?;
    let answer = answered(alloc, &question, certificate);
    drop(question);
    answer
}
