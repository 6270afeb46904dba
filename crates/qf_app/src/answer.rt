ghost use Rattle.std.specs.Prelude.{◌≡◌, ◌≤◌, ◌^◌, [], length, take, IfOk};
ghost use Rattle.std.specs.List.{AllByRecursion};
ghost use Rattle.qf_app.specs.Answers.{IsLine, answers_of};
ghost use Rattle.qf_app.specs.Meaning.{meaning_of};
ghost use Rattle.qf_app.specs.Request.{input_words};

use crate::checking::checked;
use crate::command::Command;
use crate::diagnosis::diagnosis;
use crate::replaying::{listed, replayed};
use qf_base::{List, NoMemory, Status};
use qf_shell::Answer;
use std::alloc::Global;

/// The answer that says a line with a status, and puts nothing.
pub(crate) fn line_answer(alloc: Global, status: Status, line: List<u8>) -> Answer
    ensures { IsLine status line result }
{
    Answer {
        status,
        files: List::new(alloc),
        line,
    }
}

/// The answer of a command to its files, in the order in which they are read. A fifth, the certificate, may be long.
pub(crate) fn answer_to(
    alloc: Global,
    command: &Command<'_>,
    files: &[List<u8>],
) -> Result<Answer, NoMemory>
    requires count { length files.now ≡ length (input_words (meaning_of command.now)) }
    requires short { AllByRecursion (λ bytes. length bytes ≤ 2 ^ 26) (take 4 files.now) }
    ensures { IfOk result (λ answer. answers_of (meaning_of command.now) files.now answer) }
{
    match (command, files) {
        (Command::Diagnose(words), [initial, log, complaints, domains]) => diagnosis(
            alloc,
            words,
            initial.as_slice(),
            log.as_slice(),
            complaints.as_slice(),
            domains.as_slice(),
        ),
        (Command::Check(_), [initial, log, complaints, domains, certificate]) => checked(
            alloc,
            initial.as_slice(),
            log.as_slice(),
            complaints.as_slice(),
            domains.as_slice(),
            certificate.as_slice(),
        ),
        (Command::Replay(_), [initial, log]) => replayed(alloc, initial.as_slice(), log.as_slice()),
        (Command::Params(_), [initial, log]) => listed(alloc, initial.as_slice(), log.as_slice()),
        _ => unreachable!(),
    }
}
