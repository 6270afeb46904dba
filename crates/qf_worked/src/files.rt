//! Files that are delivered to those of the runtime, and read back.

use qf_base::{Desk, DeskFault, List, NoMemory, Status, Text};
use qf_shell::{Answer, deliver};
use std::alloc::Global;

// More bytes than one call puts.
const LONG: u32 = 70_000;

const MOST_BYTES: u64 = 1 << 20;

// So many bytes, no two neighbours of which are equal.
fn bytes_of(alloc: Global, length: u32) -> Result<List<u8>, NoMemory> {
    let mut bytes = List::new(alloc);
    for i in 0..length {
        bytes.push((i % 251) as u8)?;
    }
    Ok(bytes)
}

// Files of these lengths, under their names.
fn files_of(alloc: Global, lengths: &[(&str, u32)]) -> Result<List<(Text, List<u8>)>, NoMemory> {
    let mut files = List::new(alloc);
    for (name, length) in lengths {
        files.push((Text::new(alloc, name)?, bytes_of(alloc, *length)?))?;
    }
    Ok(files)
}

// Whether a read of each file gives its bytes.
fn are_there<D: Desk>(
    alloc: Global,
    files: &[(Text, List<u8>)],
    desk: &mut D,
) -> Result<bool, DeskFault> {
    for file in files {
        let bytes = desk.read(alloc, file.0.as_str(), MOST_BYTES)?;
        if bytes.as_slice() != file.1.as_slice() {
            return Ok(false);
        }
    }
    Ok(true)
}

/// Delivers a file that takes two calls, one that takes one, and one of no bytes, with a line behind them; and says whether
/// they are read back as they were put.
pub fn deliver_and_read<D: Desk>(alloc: Global, desk: &mut D) -> Result<Status, NoMemory> {
    let answer = Answer {
        status: Status::Done,
        files: files_of(
            alloc,
            &[("made_long", LONG), ("made_short", 5), ("made_empty", 0)],
        )?,
        line: List::from_slice(alloc, b"files: three were put\n")?,
    };
    let status = deliver(alloc, &answer, desk);
    if status != Status::Done {
        return Ok(status);
    }
    Ok(said_of(alloc, are_there(alloc, answer.files.as_slice(), desk), desk))
}

// Says what became of the files.
fn said_of<D: Desk>(alloc: Global, found: Result<bool, DeskFault>, desk: &mut D) -> Status {
    let line = match found {
        Ok(true) => b"files: they are read back as they were put\n".as_slice(),
        Ok(false) => b"files: they are read back otherwise\n".as_slice(),
        Err(_) => return Status::ReadFault,
    };
    match desk.say(alloc, line) {
        Ok(()) => Status::Done,
        Err(_) => Status::WriteFault,
    }
}
