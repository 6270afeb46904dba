//! Texts with escapes: `\n`, `\r`, `\\`, and `\xNN` with two hexadecimal digits in lower case.

use crate::row::Fault;
use qf_base::{List, NoMemory};
use std::alloc::Global;
use std::fmt::Write;

// Which byte of an escape comes next, if one has begun, and its first digit.
#[derive(Clone, Copy)]
enum Place {
    Outside,
    Letter,
    FirstDigit,
    SecondDigit(u8),
}

fn digit(byte: u8) -> Option<u8> {
    match byte {
        b'0'..=b'9' => Some(byte - b'0'),
        b'a'..=b'f' => Some(byte - b'a' + 10),
        _ => None,
    }
}

// The place behind a byte, and the byte that it completes, if the byte may stand there.
fn after(place: Place, byte: u8) -> Option<(Place, Option<u8>)> {
    match (place, byte) {
        (Place::Outside, b'\\') => Some((Place::Letter, None)),
        (Place::Outside, _) => Some((Place::Outside, Some(byte))),
        (Place::Letter, b'n') => Some((Place::Outside, Some(b'\n'))),
        (Place::Letter, b'r') => Some((Place::Outside, Some(b'\r'))),
        (Place::Letter, b'\\') => Some((Place::Outside, Some(b'\\'))),
        (Place::Letter, b'x') => Some((Place::FirstDigit, None)),
        (Place::Letter, _) => None,
        (Place::FirstDigit, _) => Some((Place::SecondDigit(digit(byte)?), None)),
        (Place::SecondDigit(first), _) => {
            Some((
                Place::Outside,
                Some(first.wrapping_mul(16).wrapping_add(digit(byte)?)),
            ))
        }
    }
}

/// The bytes that a text with escapes stands for.
pub fn unescaped(alloc: Global, text: &str) -> Result<List<u8>, Fault> {
    let mut bytes = List::new(alloc);
    let mut place = Place::Outside;
    for byte in text.as_bytes() {
        let (next, completed) = after(place, *byte).ok_or(Fault::Unknown)?;
        place = next;
        if let Some(completed) = completed {
            bytes.push(completed)?;
        }
    }
    match place {
        Place::Outside => Ok(bytes),
        _ => Err(Fault::Unknown),
    }
}

fn add_escaped(text: &mut String, byte: u8) -> Result<(), NoMemory> {
    match byte {
        b'\n' => text.push_str("\\n")?,
        b'\r' => text.push_str("\\r")?,
        b'\\' => text.push_str("\\\\")?,
        b' '..=b'~' => text.push(char::from(byte))?,
        _ => write!(text, "\\x{byte:02x}")?,
    }
    Ok(())
}

/// Adds the text that stands for the bytes.
pub fn escape(text: &mut String, bytes: &[u8]) -> Result<(), NoMemory> {
    for byte in bytes {
        add_escaped(text, *byte)?;
    }
    Ok(())
}
