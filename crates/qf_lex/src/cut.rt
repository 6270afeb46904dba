//! The piece at the front of the bytes.

ghost use Rattle.std.specs.Prelude.{◌≡◌, option_map};
ghost use Rattle.qf_lex.specs.Pieces.{class_of, goes_on, pairs};
ghost use Rattle.qf_lex.specs.FirstPiece.{span, string_at, at_class, at_symbol, at_mark, first_piece};
ghost use Rattle.qf_lex.specs.Views.{piece_of};
ghost use Rattle.qf_lex.specs.declared.bytes.Class.TheVariants as class;

use crate::bytes::{Before, Class, Run};

/// What a byte is to the scan.
fn class_of(byte: u8) -> Class
    ensures { result ≡ class_of byte }
{
    match byte {
        b' ' | b'\t' | b'\r' | b'\n' => Class::Blank,
        b'a'..=b'z' | b'A'..=b'Z' | b'_' => Class::Letter,
        b'0'..=b'9' => Class::Digit,
        b'\'' => Class::Quote,
        b'-' => Class::Dash,
        b'<' => Class::Less,
        b'>' => Class::Greater,
        b'=' => Class::Equals,
        b'!' => Class::Bang,
        b'(' | b')' | b',' | b';' | b'+' | b'*' => Class::Plain,
        _ => Class::Other,
    }
}

/// Whether a byte goes on a run.
fn goes_on(run: Run, byte: u8) -> bool
    ensures { result ≡ goes_on run byte }
{
    match run {
        Run::Word => matches!(class_of(byte), Class::Letter | Class::Digit),
        Run::Digits => matches!(class_of(byte), Class::Digit),
        Run::Line => byte != b'\n',
    }
}

/// Whether two bytes make one symbol: `<>`, `<=`, `>=`, `!=`.
fn pairs(first: Class, second: Class) -> bool
    ensures { result ≡ pairs first second }
{
    match first {
        Class::Less => matches!(second, Class::Greater | Class::Equals),
        Class::Greater | Class::Bang => matches!(second, Class::Equals),
        _ => false,
    }
}

/// The run at the front, and the bytes after it.
fn split_run(run: Run, bytes: &[u8]) -> (&[u8], &[u8])
    ensures { (result.0.now, result.1.now) ≡ span (goes_on run) bytes.now }
{
    let mut n = 0;
    while n < bytes.len() && goes_on(run, bytes[n]) {
        n += 1;
    }
    bytes.split_at(n)
}

/// A piece of a log, with its bytes.
#[derive(Clone, Copy)]
pub enum Piece<'a> {
    /// A byte order mark.
    Mark,
    Blank(u8),
    /// A comment, with the bytes behind its `--` and before the line feed.
    Comment(&'a [u8]),
    Word(&'a [u8]),
    /// A number: whether a `-` is part of it, and its digits.
    Number(bool, &'a [u8]),
    /// A string, with the bytes between its quotes as they stand.
    Str(&'a [u8]),
    /// A symbol of one byte.
    One(u8),
    /// A symbol of two bytes.
    Two(u8, u8),
}

/// The bytes before the closing quote, and those after it.
fn split_string(bytes: &[u8]) -> Option<(&[u8], &[u8])>
    ensures { option_map (λ p. (p.0.now, p.1.now)) result ≡ string_at bytes.now }
{
    let mut n = 0;
    while n < bytes.len() {
        if bytes[n] != b'\'' {
            n += 1;
        } else if n + 1 < bytes.len() && bytes[n + 1] == b'\'' {
            n += 2;
        } else {
            return Some((&bytes[..n], &bytes[n + 1..]));
        }
    }
    None
}

/// The piece that a `-` begins: a comment, a number or a symbol.
fn after_dash<'a>(before: Before, dash: u8, rest: &'a [u8]) -> Option<(Piece<'a>, &'a [u8])>
    ensures { option_map (λ p. (piece_of p.0, p.1.now)) result ≡ at_class before dash rest.now class.Dash }
{
    let [next, after @ ..] = rest else {
        return Some((Piece::One(dash), rest));
    };
    match class_of(*next) {
        Class::Dash => {
            let (text, after) = split_run(Run::Line, after);
            Some((Piece::Comment(text), after))
        }
        Class::Digit => match before {
            Before::Value => Some((Piece::One(dash), rest)),
            _ => {
                let (digits, after) = split_run(Run::Digits, rest);
                Some((Piece::Number(true, digits), after))
            }
        },
        _ => Some((Piece::One(dash), rest)),
    }
}

/// A symbol of two bytes, or of the first alone where that is one.
fn symbol<'a>(first: u8, kind: Class, rest: &'a [u8]) -> Option<(Piece<'a>, &'a [u8])>
    ensures { option_map (λ p. (piece_of p.0, p.1.now)) result ≡ at_symbol first rest.now kind }
{
    if let [next, after @ ..] = rest {
        if pairs(kind, class_of(*next)) {
            return Some((Piece::Two(first, *next), after));
        }
    }
    match kind {
        Class::Bang => None,
        _ => Some((Piece::One(first), rest)),
    }
}

/// A byte order mark, where nothing but marks stands before it.
fn mark<'a>(before: Before, bytes: &'a [u8]) -> Option<(Piece<'a>, &'a [u8])>
    ensures { option_map (λ p. (piece_of p.0, p.1.now)) result ≡ at_mark before bytes.now }
{
    match (before, bytes) {
        (Before::Start, [0xEF, 0xBB, 0xBF, after @ ..]) => Some((Piece::Mark, after)),
        _ => None,
    }
}

/// The piece at the front of the bytes, and the bytes after it.
#[tactic(auto, unfolding(crate::specs::FirstPiece::first_piece))]
pub fn first_piece<'a>(before: Before, bytes: &'a [u8]) -> Option<(Piece<'a>, &'a [u8])>
    ensures { option_map (λ p. (piece_of p.0, p.1.now)) result ≡ first_piece before bytes.now }
{
    let [first, rest @ ..] = bytes else {
        return None;
    };
    let kind = class_of(*first);
    match kind {
        Class::Blank => Some((Piece::Blank(*first), rest)),
        Class::Letter => {
            let (text, after) = split_run(Run::Word, bytes);
            Some((Piece::Word(text), after))
        }
        Class::Digit => {
            let (digits, after) = split_run(Run::Digits, bytes);
            Some((Piece::Number(false, digits), after))
        }
        Class::Quote => {
            let (body, after) = split_string(rest)?;
            Some((Piece::Str(body), after))
        }
        Class::Dash => after_dash(before, *first, rest),
        Class::Other => mark(before, bytes),
        _ => symbol(*first, kind, rest),
    }
}
