//! Reading a stream to its end and writing a piece whole, over any reader and writer.
ghost use Rattle.std.specs.Prelude.{◌≡◌, ℕ, ◌<◌, ◌≤◌, length, take, IfOk, IfSome, OnOk, OnErr, IsErrOf};
ghost use Rattle.std.specs.Io.KnownBytes.{Appends};
ghost use Rattle.qf_base.specs.Desk.{Rose};

use crate::{DeskFault, List};
use std::alloc::Global;
use std::io::{Read, Write};

// Counts a fault.
pub(crate) fn failed(faults: &mut u64) -> DeskFault
    ensures fault { result ≡ DeskFault.Failed }
    ensures rose { Rose faults.old faults.new }
    ensures later { faults.old ≤ faults.new }
{
    *faults = faults.saturating_add(1);
    DeskFault::Failed
}

/// The bytes that the reader has left, if they are at most `most`; else `TooLong`. An error of the reader is `Failed`, and
/// raises the count of faults.
pub fn read_all<R: Read>(
    alloc: Global,
    reader: &mut R,
    most: u64,
    faults: &mut u64,
) -> Result<List<u8>, DeskFault>
    ensures within { IfOk result (λ bytes. length bytes ≤ most) }
    ensures all { IfOk result (λ bytes. IfSome (R.remaining reader.old) (λ left. bytes ≡ left)) }
    ensures too_long { IsErrOf result DeskFault.TooLong → IfSome (R.remaining reader.old) (λ left. most < length left) }
    ensures failed { IsErrOf result DeskFault.Failed → Rose faults.old faults.new }
    ensures later { faults.old ≤ faults.new }
{
    let mut bytes = List::new(alloc);
    let mut buffer = [0; 4096];
    loop {
        let Ok(count) = reader.read(&mut buffer) else {
            return Err(failed(faults));
        };
        if count == 0 {
            return Ok(bytes);
        }
        if count as u64 > most - bytes.len() {
            return Err(DeskFault::TooLong);
        }
        bytes.extend(&buffer[..count])?;
    }
}

/// Writes all of the piece. After an `Ok` the writer holds the whole piece behind what it held, and after a failure a
/// prefix of it. An error of the writer, and a write that takes no byte, is `Failed`, the one failure, and raises the count
/// of faults.
pub fn write_all<W: Write>(writer: &mut W, piece: &[u8], faults: &mut u64) -> Result<(), DeskFault>
    ensures whole { OnOk result (Appends (W.contents writer.old) (W.contents writer.new) piece.now) }
    ensures part { OnErr result ((k : ℕ) × Appends (W.contents writer.old) (W.contents writer.new) (take k piece.now)) }
    ensures failed { OnErr result (Rose faults.old faults.new) }
    ensures fault { OnErr result (IsErrOf result DeskFault.Failed) }
    ensures later { faults.old ≤ faults.new }
{
    let mut rest = piece;
    while !rest.is_empty() {
        match writer.write(rest) {
            Ok(count) if count > 0 => rest = &rest[count..],
            _ => return Err(failed(faults)),
        }
    }
    Ok(())
}
