ghost use Rattle.std.specs.Prelude.{◌≡◌, IfOk};
ghost use Rattle.qf_shell.specs.Promise as spec;

use qf_base::{List, NoMemory, Refusal, Status, Text, refusal_line};
use std::alloc::Global;

/// What is delivered: the files that are put, in order, each a name with its bytes; the line that is said behind them; and
/// the status that comes once all of it was delivered.
#[derive(Drop)]
pub struct Answer {
    pub status: Status,
    pub files: List<(Text, List<u8>)>,
    pub line: List<u8>,
}

/// A refusal as an answer: its line, and nothing is put.
pub fn refusal_answer(alloc: Global, refusal: &Refusal) -> Result<Answer, NoMemory>
    ensures { IfOk result (λ answer. answer ≡ spec.refusal_answer refusal.now) }
{
    let line = refusal_line(alloc, refusal)?;
    Ok(Answer {
        status: Status::Refused,
        files: List::new(alloc),
        line,
    })
}
