//! Conditions, read from lexemes by recursive descent.

ghost use Rattle.std.specs.Prelude.{◌≡◌, ◌<◌, IfOk, length, option_map};
ghost use Rattle.qf_grammar.specs.Spelling.{all_of, any_of};
ghost use Rattle.qf_grammar.specs.Reading.{seen, behind, is_or, test_of, negated_at, grouped_at, unit_at, conj_with, chain_with};

use crate::compares::{behind_and, behind_not, compare};
use crate::lexeme::{Key, Lexeme};
use crate::sums::{behind_close, behind_open};
use crate::tree::Condition;
use qf_base::{Boxed, List, NoMemory};
use std::alloc::Global;

/// How deep brackets and NOT may nest.
const DEPTH: u8 = 32;

fn behind_or(lexemes: &[Lexeme]) -> Option<&[Lexeme]>
    ensures { option_map (λ rest. rest.now) result ≡ behind is_or lexemes.now }
{
    match lexemes {
        [Lexeme::Key(Key::Or), rest @ ..] => Some(rest),
        _ => None,
    }
}

/// All of the parts; of one, that one.
fn all_of(parts: List<Condition>) -> Condition
    requires { 0 < length parts }
    ensures { result ≡ all_of parts }
{
    if parts.len() == 1 {
        let mut parts = parts.into_vec();
        parts.remove(0)
    } else {
        Condition::All(parts)
    }
}

/// Any of the parts; of one, that one.
fn any_of(parts: List<Condition>) -> Condition
    requires { 0 < length parts }
    ensures { result ≡ any_of parts }
{
    if parts.len() == 1 {
        let mut parts = parts.into_vec();
        parts.remove(0)
    } else {
        Condition::Any(parts)
    }
}

/// The comparison at the front.
fn tested(alloc: Global, lexemes: &[Lexeme]) -> Result<Option<(Condition, &[Lexeme])>, NoMemory>
    ensures { IfOk result (λ o. seen o ≡ test_of lexemes.now) }
{
    let Some((compare, rest)) = compare(alloc, lexemes)? else {
        return Ok(None);
    };
    Ok(Some((Condition::Test(compare), rest)))
}

/// The unit at the front, which stands behind NOT.
#[cycle(conditions)]
fn negated(
    alloc: Global,
    depth: u8,
    lexemes: &[Lexeme],
) -> Result<Option<(Condition, &[Lexeme])>, NoMemory>
    ensures { IfOk result (λ o. seen o ≡ negated_at depth lexemes.now) }
{
    if depth == 0 {
        return Ok(None);
    }
    let Some((inner, rest)) = unit(alloc, depth - 1, lexemes)? else {
        return Ok(None);
    };
    Ok(Some((Condition::Not(Boxed::new(alloc, inner)?), rest)))
}

/// The condition at the front, which stands behind an opening bracket, up to the closing one.
#[cycle(conditions)]
fn grouped(
    alloc: Global,
    depth: u8,
    lexemes: &[Lexeme],
) -> Result<Option<(Condition, &[Lexeme])>, NoMemory>
    ensures { IfOk result (λ o. seen o ≡ grouped_at depth lexemes.now) }
{
    if depth == 0 {
        return Ok(None);
    }
    let Some((inner, rest)) = chain(alloc, depth - 1, lexemes)? else {
        return Ok(None);
    };
    match behind_close(rest) {
        Some(rest) => Ok(Some((inner, rest))),
        None => {
            drop(inner);
            Ok(None)
        }
    }
}

#[cycle(conditions)]
fn unit(
    alloc: Global,
    depth: u8,
    lexemes: &[Lexeme],
) -> Result<Option<(Condition, &[Lexeme])>, NoMemory>
    ensures { IfOk result (λ o. seen o ≡ unit_at depth lexemes.now) }
{
    if let Some(rest) = behind_not(lexemes) {
        return negated(alloc, depth, rest);
    }
    if let Some(rest) = behind_open(lexemes) {
        return grouped(alloc, depth, rest);
    }
    tested(alloc, lexemes)
}

#[cycle(conditions)]
fn conj(
    alloc: Global,
    depth: u8,
    lexemes: &[Lexeme],
) -> Result<Option<(Condition, &[Lexeme])>, NoMemory>
    ensures { IfOk result (λ o. seen o ≡ conj_with (unit_at depth) lexemes.now) }
{
    let mut parts = List::new(alloc);
    let mut rest = lexemes;
    for _ in 0..lexemes.len() {
        let Some((part, after)) = unit(alloc, depth, rest)? else {
            return Ok(None);
        };
        parts.push(part)?;
        match behind_and(after) {
            Some(next) => rest = next,
            None => return Ok(Some((all_of(parts), after))),
        }
    }
    Ok(None)
}

#[cycle(conditions)]
fn chain(
    alloc: Global,
    depth: u8,
    lexemes: &[Lexeme],
) -> Result<Option<(Condition, &[Lexeme])>, NoMemory>
    ensures { IfOk result (λ o. seen o ≡ chain_with (unit_at depth) lexemes.now) }
{
    let mut parts = List::new(alloc);
    let mut rest = lexemes;
    for _ in 0..lexemes.len() {
        let Some((part, after)) = conj(alloc, depth, rest)? else {
            return Ok(None);
        };
        parts.push(part)?;
        match behind_or(after) {
            Some(next) => rest = next,
            None => return Ok(Some((any_of(parts), after))),
        }
    }
    Ok(None)
}

/// The condition at the front, and what is behind it.
pub(crate) fn condition(
    alloc: Global,
    lexemes: &[Lexeme],
) -> Result<Option<(Condition, &[Lexeme])>, NoMemory>
    ensures { IfOk result (λ o. seen o ≡ chain_with (unit_at 32) lexemes.now) }
{
    chain(alloc, DEPTH, lexemes)
}
