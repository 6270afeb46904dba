//! The tokens of a log, from the first byte to the last.

ghost use Rattle.std.specs.Prelude.{◌≡◌, ◌≢◌, ◌+◌, ◌-◌, ◌^◌, ◌<◌, ◌≤◌, ◌⊎◌, ℕ, List as Sequence, [], ◌∷◌, length, min, Ok, Err, MatchResult, IfOk, IfErr};
ghost use Rattle.std.specs.List.{All};
ghost use Rattle.qf_lex.specs.Pieces.{text_of, then_before};
ghost use Rattle.qf_lex.specs.Tokens.{value_of, kind_of, IsSound, FaultIn, FaultOf, TokensOf, FirstFaultOf, AreInOrder, StandsIn};
ghost use Rattle.qf_lex.specs.Views.{piece_of};
ghost use Rattle.qf_lex.specs.declared.token.Token.{Token};
ghost use Rattle.qf_lex.specs.declared.token.LexFault.{LexFault};

use crate::bytes::Before;
use crate::cut::{Piece, first_piece};
use crate::token::{LexFault, Token, TokenKind};
use crate::words::is_reserved;
use qf_base::List;
use std::alloc::Global;
use std::str::from_utf8;

/// The greatest size of a number.
const MOST: u64 = 1 << 50;

/// The number that the digits write, or one above the limit where it is above.
fn capped_value(digits: &[u8]) -> u64
    ensures { result ≡ min (value_of digits.now) (2 ^ 50 + 1) }
{
    let mut value: u64 = 0;
    for d in digits {
        let next = 10 * value + u64::from(d.saturating_sub(b'0'));
        value = if next > MOST { MOST + 1 } else { next };
    }
    value
}

/// The kind of token that a piece at this offset makes, if it makes one.
fn kind_of(at: u64, piece: Piece<'_>) -> Result<Option<TokenKind>, LexFault>
    requires { at + length (text_of (piece_of piece)) < 2 ^ 64 }
    ensures { MatchResult result
        (λ k. (k ≡ kind_of (piece_of piece.entry)) × IsSound (piece_of piece.entry))
        (λ e. FaultIn at (piece_of piece.entry) e) }
{
    match piece {
        Piece::Mark | Piece::Blank(_) | Piece::Comment(_) => Ok(None),
        Piece::Word(_) => Ok(Some(TokenKind::Word)),
        Piece::Number(minus, digits) => {
            let value = capped_value(digits);
            if value > MOST {
                return Err(LexFault::NumberTooBig(at));
            }
            let size = value as i64;
            Ok(Some(TokenKind::Number(if minus { -size } else { size })))
        }
        Piece::Str(body) => match from_utf8(body) {
            Ok(_) => Ok(Some(TokenKind::Str)),
            Err(e) => Err(LexFault::BadByte(at + 1 + e.valid_up_to() as u64)),
        },
        Piece::One(_) | Piece::Two(_, _) => Ok(Some(TokenKind::Symbol)),
    }
}

/// What stands before the next piece, after this one.
fn then_before(before: Before, piece: Piece<'_>) -> Before
    ensures { result ≡ then_before before (piece_of piece.entry) }
{
    match piece {
        Piece::Mark => before,
        Piece::Blank(_) | Piece::Comment(_) => match before {
            Before::Value => Before::Value,
            _ => Before::Other,
        },
        Piece::Word(word) => {
            if is_reserved(word) {
                Before::Other
            } else {
                Before::Value
            }
        }
        Piece::Number(_, _) => Before::Value,
        Piece::One(b')') => Before::Value,
        Piece::One(_) | Piece::Two(_, _) | Piece::Str(_) => Before::Other,
    }
}

/// The fault at an offset where no piece fits the bytes, which begin with this one.
fn stuck(at: u64, first: u8) -> LexFault
    ensures { (rest : Sequence ℕ) → FaultOf at (first ∷ rest) result }
{
    if first == b'\'' {
        LexFault::OpenString(at)
    } else {
        LexFault::BadByte(at)
    }
}

/// The tokens of the bytes, or their first fault.
fn read_tokens(alloc: Global, bytes: &[u8]) -> Result<List<Token>, LexFault>
    ensures reads { IfOk result (λ found. TokensOf bytes.now found) }
    ensures faults { IfErr result (λ e. e ≢ LexFault.NoMemory → FirstFaultOf bytes.now e) }
{
    let mut found = List::new(alloc);
    let mut before = Before::Start;
    let mut rest = bytes;
    while let [first, ..] = rest {
        let at = (bytes.len() - rest.len()) as u64;
        let Some((piece, after)) = first_piece(before, rest) else {
            return Err(stuck(at, *first));
        };
        let end = (bytes.len() - after.len()) as u64;
        if let Some(kind) = kind_of(at, piece)? {
            found.push(Token {
                start: at,
                end,
                kind,
            })?;
        }
        before = then_before(before, piece);
        rest = after;
    }
    Ok(found)
}

/// The tokens of a log in the order of its bytes, or its first fault, read from left to right.
///
/// Byte order marks at the very start, spaces, tabs, CR and LF are blanks. As in ISO/IEC 9075-2, `--` begins a comment up
/// to the next line feed or the end, and in a string two quotes stand for one. A symbol is the longest that fits. A `-`
/// directly before a digit belongs to the number, unless the token before it is a number, `)` or a word that is not
/// reserved. The time is linear in the bytes, and the memory in the tokens.
///
/// A quote that nothing closes is `OpenString` at the quote, whatever follows it; bytes between two quotes that are no
/// UTF-8 are `BadByte` at the first byte behind the longest front that is; a number past 2^50 in size is `NumberTooBig` at
/// its first byte, its `-` included; any other byte that begins no token is `BadByte`.
pub fn tokens(alloc: Global, bytes: &[u8]) -> Result<List<Token>, LexFault>
    // What is answered is the reading of the bytes, or their first fault.
    ensures reads { IfOk result (λ found. TokensOf bytes.now found) }
    ensures faults { IfErr result (λ e. e ≢ LexFault.NoMemory → FirstFaultOf bytes.now e) }

    // Bytes that have a reading, or a fault, are answered so, unless memory runs out.
    ensures only_tokens { (ts : Sequence Token) → TokensOf bytes.now ts →
        MatchResult result (λ found. found ≡ ts) (λ e. e ≡ LexFault.NoMemory) }
    ensures only_fault { (f : LexFault) → FirstFaultOf bytes.now f →
        (result ≡ Err f) ⊎ (result ≡ Err LexFault.NoMemory) }

    // No token begins before the end of the one before it, and the slice of each is a sound piece of its kind.
    ensures in_order { IfOk result (λ found. AreInOrder 0 found) }
    ensures slices { IfOk result (λ found. All (StandsIn bytes.now) found) }
{
    read_tokens(alloc, bytes)
}
