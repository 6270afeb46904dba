//! Bytes, runs of bytes, and what stands before a piece.

/// What a byte is to the scan.
#[derive(Clone, Copy)]
pub enum Class {
    /// A space, a tab, CR or LF.
    Blank,
    /// An ASCII letter or `_`.
    Letter,
    Digit,
    /// `'`.
    Quote,
    /// `-`.
    Dash,
    /// `<`.
    Less,
    /// `>`.
    Greater,
    /// `=`.
    Equals,
    /// `!`.
    Bang,
    /// A symbol that no other byte joins: `(` `)` `,` `;` `+` `*`.
    Plain,
    Other,
}

/// Runs of bytes that end where a byte of another kind comes.
#[derive(Clone, Copy)]
pub enum Run {
    Word,
    Digits,
    /// All up to a line feed.
    Line,
}

/// What stands before a piece, blanks and comments left out.
#[derive(Clone, Copy)]
pub enum Before {
    /// Nothing but byte order marks: another mark may follow.
    Start,
    /// A number, a name or `)`: a `-` before a digit is a symbol.
    Value,
    /// Anything else: a `-` before a digit belongs to the number.
    Other,
}
