ghost use Rattle.qf_app.specs.Meaning.{meaning_of};
ghost use Rattle.qf_app.specs.Promise.{Promise};

use crate::answer::answer_to;
use crate::command::Command;
use qf_base::{Desk, NoMemory, Status};
use qf_shell::{deliver, deliver_end, read_files};
use std::alloc::Global;

/// Does what the command asks for: reads its files in their order, and delivers the answer to them.
pub(crate) fn work<D: Desk>(alloc: Global, command: &Command<'_>, desk: &mut D) -> Status
    ensures { Promise (meaning_of command.now) (D.state desk.old) (D.state desk.new) result }
{
    let inputs = match command.inputs(alloc) {
        Ok(inputs) => inputs,
        Err(NoMemory) => return Status::NoMemory,
    };
    let files = match read_files(alloc, inputs.as_slice(), desk) {
        Ok(files) => files,
        Err(end) => return deliver_end(alloc, end, desk),
    };
    match answer_to(alloc, command, files.as_slice()) {
        Ok(answer) => deliver(alloc, &answer, desk),
        Err(NoMemory) => Status::NoMemory,
    }
}
