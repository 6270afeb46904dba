//! Words between single spaces, and what they say.

ghost use Rattle.std.specs.Prelude.{◌≡◌, ◌+◌, ◌<◌, ◌≤◌, [], ◌∷◌, ◌++◌, All, length, position, option_map, IfSome, IfNone, ◌==◌, false};
ghost use Rattle.qf_csv.specs.Numerals.{count_of};
ghost use Rattle.qf_certtext.specs.Words.{words_of, plain_within, value_of_word, end_of_word, param_of_word, row_of_word};
ghost use Rattle.qf_certtext.specs.Views.{only_word, three_words};

use qf_base::RowName;
use qf_csv::{count, is_plain, numeral_within};

const BOUND_LIMIT: i64 = 1 << 60;

fn place_of(byte: u8, bytes: &[u8]) -> Option<usize>
    ensures { result ≡ position (λ b. b == byte) bytes.now }
{
    bytes.iter().position(|other| *other == byte)
}

/// What stands before the first such byte and what stands behind it, where there is one.
pub(crate) fn split_at(byte: u8, bytes: &[u8]) -> Option<(&[u8], &[u8])>
    ensures some { IfSome result (λ p. bytes.now ≡ p.0.now ++ byte ∷ p.1.now) }
    ensures first { IfSome result (λ p. All (λ b. (b == byte) ≡ false) p.0.now) }
    ensures none { IfNone result (All (λ b. (b == byte) ≡ false) bytes.now) }
{
    let place = place_of(byte, bytes)?;
    Some((&bytes[..place], &bytes[place + 1..]))
}

/// The first word and the bytes behind the space after it, where there is a space.
pub(crate) fn split_word(bytes: &[u8]) -> Option<(&[u8], &[u8])>
    ensures some { IfSome result (λ p. words_of bytes.now ≡ p.0.now ∷ words_of p.1.now) }
    ensures shorter { IfSome result (λ p. length p.1.now < length bytes.now) }
    ensures none { IfNone result (words_of bytes.now ≡ bytes.now ∷ []) }
{
    split_at(b' ', bytes)
}

/// The bytes, where they are one word.
pub(crate) fn only_word(bytes: &[u8]) -> Option<&[u8]>
    ensures { option_map (λ word. word.now) result ≡ only_word (words_of bytes.now) }
{
    match split_word(bytes) {
        None => Some(bytes),
        Some(_) => None,
    }
}

/// The words, where there are three.
pub(crate) fn three_words(bytes: &[u8]) -> Option<(&[u8], &[u8], &[u8])>
    ensures { option_map (λ p. (p.0.now, p.1.now, p.2.now)) result ≡ three_words (words_of bytes.now) }
{
    let (first, rest) = split_word(bytes)?;
    let (second, last) = split_word(rest)?;
    let third = only_word(last)?;
    Some((first, second, third))
}

fn plain_within(word: &[u8], least: i64, most: i64) -> Option<i64>
    ensures { result ≡ plain_within least most word.now }
{
    if is_plain(word) {
        numeral_within(word, least, most)
    } else {
        None
    }
}

/// A plain numeral that fits 64 bits with a sign.
pub(crate) fn value_of_word(word: &[u8]) -> Option<i64>
    ensures { result ≡ value_of_word word.now }
{
    plain_within(word, i64::MIN, i64::MAX)
}

/// A plain numeral within 2^60.
pub(crate) fn end_of_word(word: &[u8]) -> Option<i64>
    ensures { result ≡ end_of_word word.now }
{
    plain_within(word, -BOUND_LIMIT, BOUND_LIMIT)
}

/// `p` and the number of a parameter.
pub(crate) fn param_of_word(word: &[u8]) -> Option<u32>
    ensures { result ≡ param_of_word word.now }
{
    match word {
        [b'p', digits @ ..] => count(digits),
        _ => None,
    }
}

/// `r` or `i` and the number of a row.
pub(crate) fn row_of_word(word: &[u8]) -> Option<RowName>
    ensures { result ≡ row_of_word word.now }
{
    match word {
        [b'r', digits @ ..] => count(digits).map(RowName::Start),
        [b'i', digits @ ..] => count(digits).map(RowName::Inserted),
        _ => None,
    }
}
