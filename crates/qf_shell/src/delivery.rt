ghost use Rattle.std.specs.Prelude.{◌≡◌, ◌≢◌, ◌≤◌, ℕ, List, OnOk, OnErr, IsErrOf};
ghost use Rattle.qf_base.specs.Desk.{Rose, NeverFalls, with_more, GrewByPart};
ghost use Rattle.qf_shell.specs.Delivery.{put_size, names_of, put_names, ArePut, IsDeliveredWhole, IsDeliveredInPart, AnyPutRose, AnyWriteRose, Delivers};
ghost use Rattle.qf_shell.specs.Ends.{DeliversEnd};

use crate::answer::{Answer, refusal_answer};
use crate::files::ReadEnd;
use qf_base::{Desk, DeskFault, Kind, List, NoMemory, Refusal, Status, Text};
use std::alloc::Global;

// The most bytes that one call puts.
const MOST_PIECE: usize = 65_536;

// Puts the bytes under the name, piece by piece: one call where they are few, also where there are none.
fn put_file<D: Desk>(alloc: Global, name: &str, bytes: &[u8], desk: &mut D) -> Result<(), DeskFault>
    ensures put { OnOk result ((D.state desk.new).made name.now ≡ with_more ((D.state desk.old).made name.now) bytes.now) }
    ensures part { OnErr result (GrewByPart bytes.now ((D.state desk.old).made name.now) ((D.state desk.new).made name.now)) }
    ensures others { (other : List ℕ) → other ≢ name.now → (D.state desk.new).made other ≡ (D.state desk.old).made other }
    ensures fits { IsErrOf result DeskFault.TooLong → ⊥ }
    ensures failed { IsErrOf result DeskFault.Failed → Rose ((D.state desk.old).put_faults name.now) ((D.state desk.new).put_faults name.now) }
    ensures held { (D.state desk.new).held ≡ (D.state desk.old).held }
    ensures said { (D.state desk.new).said ≡ (D.state desk.old).said }
    ensures was_read { (D.state desk.new).was_read ≡ (D.state desk.old).was_read }
    ensures counts { NeverFalls (D.state desk.old) (D.state desk.new) }
{
    let mut rest = bytes;
    loop {
        let (piece, more) = rest.split_at(rest.len().min(MOST_PIECE));
        desk.put(alloc, name, piece)?;
        if more.is_empty() {
            return Ok(());
        }
        rest = more;
    }
}

// Puts the files, in order.
fn put_files<D: Desk>(
    alloc: Global,
    files: &[(Text, List<u8>)],
    desk: &mut D,
) -> Result<(), DeskFault>
    ensures put { OnOk result (ArePut (put_size files.now) files.now (D.state desk.old) (D.state desk.new)) }
    ensures part { OnErr result ((n : ℕ) × (n ≤ put_size files.now) × ArePut n files.now (D.state desk.old) (D.state desk.new)) }
    ensures fits { IsErrOf result DeskFault.TooLong → ⊥ }
    ensures failed { IsErrOf result DeskFault.Failed → AnyPutRose (names_of files.now) (D.state desk.old) (D.state desk.new) }
    ensures held { (D.state desk.new).held ≡ (D.state desk.old).held }
    ensures said { (D.state desk.new).said ≡ (D.state desk.old).said }
    ensures was_read { (D.state desk.new).was_read ≡ (D.state desk.old).was_read }
    ensures counts { NeverFalls (D.state desk.old) (D.state desk.new) }
{
    for file in files {
        if let Err(fault) = put_file(alloc, file.0.as_str(), file.1.as_slice(), desk) {
            return Err(fault);
        }
    }
    Ok(())
}

// Puts the files of an answer, then says its line.
fn put_and_say<D: Desk>(alloc: Global, answer: &Answer, desk: &mut D) -> Result<(), DeskFault>
    ensures whole { OnOk result (IsDeliveredWhole answer.now (D.state desk.old) (D.state desk.new)) }
    ensures part { OnErr result (IsDeliveredInPart answer.now (D.state desk.old) (D.state desk.new)) }
    ensures fits { IsErrOf result DeskFault.TooLong → ⊥ }
    ensures failed { IsErrOf result DeskFault.Failed → AnyWriteRose (put_names answer.now) (D.state desk.old) (D.state desk.new) }
    ensures held { (D.state desk.new).held ≡ (D.state desk.old).held }
    ensures was_read { (D.state desk.new).was_read ≡ (D.state desk.old).was_read }
    ensures counts { NeverFalls (D.state desk.old) (D.state desk.new) }
{
    put_files(alloc, answer.files.as_slice(), desk)?;
    desk.say(alloc, answer.line.as_slice())
}

/// Delivers an answer: puts its files in order, each in pieces of at most 65,536 bytes, then says its line in one call. Its
/// status comes where all of that was done. Where a call fails, the beginning was delivered, and `WriteFault` or `NoMemory`
/// comes.
pub fn deliver<D: Desk>(alloc: Global, answer: &Answer, desk: &mut D) -> Status
    ensures { Delivers answer.now (D.state desk.old) (D.state desk.new) result }
{
    match put_and_say(alloc, answer, desk) {
        Ok(()) => answer.status,
        Err(DeskFault::TooLong) => unreachable!(),
        Err(DeskFault::Failed) => Status::WriteFault,
        Err(DeskFault::NoMemory) => Status::NoMemory,
    }
}

/// Ends a command whose files were not all read: the refusal of the one that is too long is said, and nothing else.
pub fn deliver_end<D: Desk>(alloc: Global, end: ReadEnd, desk: &mut D) -> Status
    ensures { DeliversEnd end (D.state desk.old) (D.state desk.new) result }
{
    match end {
        ReadEnd::TooLong(number) => {
            match refusal_answer(alloc, &Refusal::at(Kind::TooLong, number)) {
                Ok(answer) => deliver(alloc, &answer, desk),
                Err(NoMemory) => Status::NoMemory,
            }
        }
        ReadEnd::Failed => Status::ReadFault,
        ReadEnd::NoMemory => Status::NoMemory,
    }
}
