//! The log's bytes with other constants.

ghost use Rattle.std.specs.Prelude.{◌≡◌, ◌++◌, ◌+◌, ◌<◌, ◌≤◌, ◌^◌, IfOk, OnOk, length};
ghost use Rattle.std.specs.Fmt.{signed_decimal};
ghost use Rattle.qf_log.specs.Ready.{AreApart};
ghost use Rattle.qf_log.specs.Reading.{IsLogOf};
ghost use Rattle.qf_splice.specs.RepairedText.{joins, byte_before, parted, literal, repaired_text};
ghost use Rattle.qf_splice.specs.Laws.{IsPointOf, SaysWith};

use qf_base::{List, NoMemory, Point};
use qf_log::{Log, ParamPlace};
use std::alloc::Global;

/// Whether a numeral that begins so would join the byte before it.
fn joins(before: u8, first: u8) -> bool
    ensures { result ≡ joins before first }
{
    (first == b'-' && before == b'-')
        || (first.is_ascii_digit()
            && (before.is_ascii_alphabetic() || before.is_ascii_digit() || before == b'_'))
}

fn byte_before(bytes: &[u8], start: u64) -> Option<u8>
    ensures { result ≡ byte_before bytes.now start }
{
    if start == 0 {
        None
    } else {
        bytes.get((start - 1) as usize).copied()
    }
}

/// Adds the numeral, with a space before it where it would join the byte before.
fn add_parted(text: &mut List<u8>, before: Option<u8>, numeral: &[u8]) -> Result<(), NoMemory>
    ensures { OnOk result (text.new ≡ text.old ++ parted before numeral.now) }
{
    if let (Some(before), [first, ..]) = (before, numeral) {
        if joins(before, *first) {
            text.push(b' ')?;
        }
    }
    text.extend(numeral)
}

fn add_literal(
    alloc: Global,
    text: &mut List<u8>,
    bytes: &[u8],
    place: ParamPlace,
    value: i64,
) -> Result<(), NoMemory>
    requires start { place.start ≤ place.end }
    requires end { place.end ≤ length bytes.now }
    ensures { OnOk result (text.new ≡ text.old ++ literal bytes.now place value) }
{
    if value == place.old {
        return text.extend(&bytes[place.start as usize..place.end as usize]);
    }
    let numeral = format!(in alloc; "{value}")?;
    add_parted(text, byte_before(bytes, place.start), numeral.as_bytes())
}

/// The bytes with these values at the places of the parameters.
fn with_values(
    alloc: Global,
    bytes: &[u8],
    places: &[ParamPlace],
    point: &Point,
) -> Result<List<u8>, NoMemory>
    requires order { AreApart 0 places.now (length bytes.now) }
    requires values { length point.now ≡ length places.now }
    requires count { length places.now < 2 ^ 32 }
    ensures { IfOk result (λ text. text ≡ repaired_text bytes.now places.now point.now) }
{
    let mut text = List::new(alloc);
    let mut at = 0;
    for number in 0..places.len() {
        let place = places[number];
        text.extend(&bytes[at..place.start as usize])?;
        add_literal(alloc, &mut text, bytes, place, point.get(number as u32))?;
        at = place.end as usize;
    }
    text.extend(&bytes[at..])?;
    Ok(text)
}

/// The log's bytes with the literal of each changed parameter replaced by the numeral of its new value: `-` and digits, no
/// leading zeros. A space is put before a numeral that begins with `-` right behind a `-`, or with a digit right behind an
/// ASCII letter, a digit or `_`. All other bytes stay, the literals of unchanged parameters too.
///
/// The log is what these bytes say, and the point has a value within 2^50 for each of its parameters. The text then says
/// the same statements, with the point as its constants. The time is linear in the bytes.
pub fn repaired(alloc: Global, bytes: &[u8], log: &Log, point: &Point) -> Result<List<u8>, NoMemory>
    requires read { IsLogOf bytes.now log.now }
    requires few { length bytes.now < 2 ^ 30 }
    requires point { IsPointOf log.now point.now }
    ensures text { IfOk result (λ text. text ≡ repaired_text bytes.now log.now.parameters point.now) }
    ensures says { IfOk result (λ text. SaysWith log.now point.now text) }
{
    with_values(alloc, bytes, log.parameters().as_slice(), point)
}
