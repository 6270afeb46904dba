//! Tokens, and the faults of a scan.

ghost use Rattle.std.specs.Prelude.{◌≡◌};
ghost use Rattle.qf_lex.specs.declared.token.LexFault.TheVariants.{NoMemory};
ghost use Rattle.qf_lex.specs.Refusals.{refusal_of};

use qf_base::{Kind, Refusal};

/// What a token is. Its text is its slice of the log's bytes.
#[derive(Clone, Copy, PartialEq, Eq)]
pub enum TokenKind {
    /// A reserved word or a name: an ASCII letter or `_`, then letters, digits and `_`.
    Word,
    /// A whole number within 2^50 in size: digits, with the `-` before them that belongs to it. Zeros may lead.
    Number(i64),
    /// A text with the quotes round it: UTF-8, in which `''` stands for one quote.
    Str,
    /// `(` `)` `,` `;` `=` `<>` `!=` `<=` `>=` `<` `>` `+` `-` or `*`.
    Symbol,
}

/// A token of a log: the bytes from offset `start` up to offset `end`, which is the first behind it. Offsets count from
/// 0 over all bytes of the file, byte order marks included.
#[derive(Clone, Copy, PartialEq, Eq)]
pub struct Token {
    pub start: u64,
    pub end: u64,
    pub kind: TokenKind,
}

/// The first fault of a scan, with the offset of its byte, from 0 over all bytes of the file.
#[derive(Clone, Copy, PartialEq, Eq)]
pub enum LexFault {
    /// A byte that begins no token, or that between two quotes is the first behind the longest front that is UTF-8.
    BadByte(u64),
    /// A quote that no other closes.
    OpenString(u64),
    /// The first byte of a number past 2^50 in size, its `-` included.
    NumberTooBig(u64),
    NoMemory,
}

impl LexFault {
    /// The refusal that tells this fault, with its offset as the only place; `None` exactly for `NoMemory`.
    pub fn refusal(&self) -> Option<Refusal>
        ensures { result ≡ refusal_of self.now }
    {
        match self {
            LexFault::BadByte(offset) => Some(Refusal::at(Kind::BadByte, *offset)),
            LexFault::OpenString(offset) => Some(Refusal::at(Kind::OpenString, *offset)),
            LexFault::NumberTooBig(offset) => Some(Refusal::at(Kind::NumberTooBig, *offset)),
            LexFault::NoMemory => None,
        }
    }
}

impl From<qf_base::NoMemory> for LexFault {
    ghost from_gives = { λ _ fault. fault ≡ NoMemory };

    fn from(_: qf_base::NoMemory) -> Self {
        LexFault::NoMemory
    }
}
