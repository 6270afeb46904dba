//! Lines of a certificate's text.

ghost use Rattle.std.specs.Prelude.{◌≡◌, ◌<◌, ◌∷◌, length, IfOk, IfSome, option_map, MatchOption, bytes_eq};
ghost use lib.Chars.{codes};
ghost use Rattle.qf_base.specs.declared.names.Bound.TheVariants.{Low, High};
ghost use Rattle.qf_tree.specs.declared.line.Line.{Line as TextLine};
ghost use Rattle.qf_certtext.specs.Spelling.{Spells};
ghost use Rattle.qf_certtext.specs.Words.{words_of, words_behind, bare_line, short_line, split_line, bound_line, long_line, numbered_line, values_of_words, bare_answer, answer_of_words, answer_behind, line_behind, line_of_words};

use crate::words::{
    end_of_word, only_word, param_of_word, row_of_word, split_word, three_words, value_of_word,
};
use qf_base::{Bound, List, NoMemory, Point};
use qf_csv::count;
use qf_tree::{Answer, Line};
use std::alloc::Global;

fn bare_line(word: &[u8]) -> Option<Line>
    ensures { result ≡ bare_line word.now }
{
    if word == b"empty".as_slice() {
        Some(Line::Empty)
    } else if word == b"dear".as_slice() {
        Some(Line::Dear)
    } else if word == b"open".as_slice() {
        Some(Line::Open)
    } else if word == b"end".as_slice() {
        Some(Line::End)
    } else {
        None
    }
}

fn short_line(kind: &[u8], word: &[u8]) -> Option<Line>
    ensures { result ≡ short_line kind.now word.now }
{
    if kind == b"qfix-cert".as_slice() {
        if word == b"1".as_slice() {
            Some(Line::Head)
        } else {
            None
        }
    } else if kind == b"refuted".as_slice() {
        let row = row_of_word(word)?;
        Some(Line::Refuted { row })
    } else if kind == b"case".as_slice() {
        let var = count(word)?;
        Some(Line::Case { var })
    } else {
        None
    }
}

fn split_line(param: &[u8], cut: &[u8], row: &[u8]) -> Option<Line>
    ensures { result ≡ split_line param.now cut.now row.now }
{
    let param = param_of_word(param)?;
    let cut = value_of_word(cut)?;
    let row = row_of_word(row)?;
    Some(Line::Split { param, cut, row })
}

fn lower_line(inequality: &[u8], var: &[u8], least: &[u8]) -> Option<Line>
    ensures { result ≡ bound_line Low inequality.now var.now least.now }
{
    let inequality = count(inequality)?;
    let var = count(var)?;
    let bound = Bound::Low(end_of_word(least)?);
    Some(Line::Tight {
        inequality,
        var,
        bound,
    })
}

fn upper_line(inequality: &[u8], var: &[u8], most: &[u8]) -> Option<Line>
    ensures { result ≡ bound_line High inequality.now var.now most.now }
{
    let inequality = count(inequality)?;
    let var = count(var)?;
    let bound = Bound::High(end_of_word(most)?);
    Some(Line::Tight {
        inequality,
        var,
        bound,
    })
}

fn long_line(kind: &[u8], first: &[u8], second: &[u8], third: &[u8]) -> Option<Line>
    ensures { result ≡ long_line kind.now first.now second.now third.now }
{
    if kind == b"split".as_slice() {
        split_line(first, second, third)
    } else if kind == b"ge".as_slice() {
        lower_line(first, second, third)
    } else if kind == b"le".as_slice() {
        upper_line(first, second, third)
    } else {
        None
    }
}

fn numbered_line(kind: &[u8], rest: &[u8]) -> Option<Line>
    ensures { result ≡ numbered_line kind.now (words_of rest.now) }
{
    if let Some(word) = only_word(rest) {
        return short_line(kind, word);
    }
    let (first, second, third) = three_words(rest)?;
    long_line(kind, first, second, third)
}

// The first word, and the bytes behind the space after it.
fn first_word(bytes: &[u8]) -> (&[u8], Option<&[u8]>)
    ensures words { words_of bytes.now ≡ result.0.now ∷ words_behind (option_map (λ rest. rest.now) result.1) }
    ensures shorter { IfSome result.1 (λ rest. length rest.now < length bytes.now) }
{
    match split_word(bytes) {
        Some((word, rest)) => (word, Some(rest)),
        None => (bytes, None),
    }
}

#[tactic(auto, using(crate::proofs::Values::one_more_value, crate::proofs::Values::no_value))]
fn read_values(alloc: Global, rest: Option<&[u8]>) -> Result<Option<List<i64>>, NoMemory>
    ensures { IfOk result (λ values. values ≡ values_of_words (words_behind (option_map (λ bytes. bytes.now) rest.entry))) }
{
    let mut values = List::new(alloc);
    let mut behind = rest;
    while let Some(bytes) = behind {
        let (word, more) = first_word(bytes);
        match value_of_word(word) {
            Some(value) => values.push(value)?,
            None => return Ok(None),
        }
        behind = more;
    }
    Ok(Some(values))
}

fn bare_answer(kind: &[u8], rest: Option<&[u8]>) -> Option<Answer>
    ensures { result ≡ bare_answer kind.now (words_behind (option_map (λ bytes. bytes.now) rest.entry)) }
{
    match rest {
        Some(_) => None,
        None if kind == b"none".as_slice() => Some(Answer::Nothing),
        None if kind == b"budget".as_slice() => Some(Answer::Budget),
        None => None,
    }
}

// A point with the values of the words.
fn read_point(alloc: Global, rest: Option<&[u8]>) -> Result<Option<Point>, NoMemory>
    ensures { IfOk result (λ point. point ≡ values_of_words (words_behind (option_map (λ bytes. bytes.now) rest.entry))) }
{
    match read_values(alloc, rest)? {
        Some(values) => Ok(Some(Point::new(alloc, &values)?)),
        None => Ok(None),
    }
}

fn read_answer(alloc: Global, bytes: &[u8]) -> Result<Option<Answer>, NoMemory>
    ensures { IfOk result (λ answer. answer ≡ answer_behind (words_of bytes.now)) }
{
    let (kind, rest) = first_word(bytes);
    if kind == b"repair".as_slice() {
        Ok(read_point(alloc, rest)?.map(Answer::Repair))
    } else if kind == b"best".as_slice() {
        Ok(read_point(alloc, rest)?.map(Answer::Best))
    } else {
        Ok(bare_answer(kind, rest))
    }
}

fn is_answer(kind: &[u8]) -> bool
    ensures { result ≡ bytes_eq kind.now (codes "answer") }
{
    kind == b"answer".as_slice()
}

/// The line that the words of the bytes are.
pub(crate) fn read_words(alloc: Global, bytes: &[u8]) -> Result<Option<Line>, NoMemory>
    ensures { IfOk result (λ line. line ≡ line_of_words (words_of bytes.now)) }
{
    let Some((kind, rest)) = split_word(bytes) else {
        return Ok(bare_line(bytes));
    };
    if is_answer(kind) {
        Ok(read_answer(alloc, rest)?.map(Line::Answer))
    } else {
        Ok(numbered_line(kind, rest))
    }
}

/// The line that the bytes, in which no line feed stands, spell: `None` where they spell none.
pub fn read_line(alloc: Global, bytes: &[u8]) -> Result<Option<Line>, NoMemory>
    ensures { IfOk result (λ found. MatchOption found ((line : TextLine) → Spells line bytes.now → ⊥) (λ line. Spells line bytes.now)) }
{
    read_words(alloc, bytes)
}
