//! Comparisons, read from lexemes.

ghost use Rattle.std.specs.Prelude.{◌≡◌, IfOk, option_map};
ghost use Rattle.qf_grammar.specs.Reading.{seen, one_at, relation_of, behind, is_and, is_not, is_between, is_in, first_not_at, between_at, between_side, within_at, relate_at, test_at, compare_at};

use crate::lexeme::{Key, Lexeme, Mark};
use crate::sums::{side, sum, tuple};
use crate::tree::{Compare, Relation, Several, Side, Term};
use qf_base::NoMemory;
use std::alloc::Global;

/// What is behind AND.
pub(crate) fn behind_and(lexemes: &[Lexeme]) -> Option<&[Lexeme]>
    ensures { option_map (λ rest. rest.now) result ≡ behind is_and lexemes.now }
{
    match lexemes {
        [Lexeme::Key(Key::And), rest @ ..] => Some(rest),
        _ => None,
    }
}

/// What is behind NOT.
pub(crate) fn behind_not(lexemes: &[Lexeme]) -> Option<&[Lexeme]>
    ensures { option_map (λ rest. rest.now) result ≡ behind is_not lexemes.now }
{
    match lexemes {
        [Lexeme::Key(Key::Not), rest @ ..] => Some(rest),
        _ => None,
    }
}

fn behind_between(lexemes: &[Lexeme]) -> Option<&[Lexeme]>
    ensures { option_map (λ rest. rest.now) result ≡ behind is_between lexemes.now }
{
    match lexemes {
        [Lexeme::Key(Key::Between), rest @ ..] => Some(rest),
        _ => None,
    }
}

fn behind_in(lexemes: &[Lexeme]) -> Option<&[Lexeme]>
    ensures { option_map (λ rest. rest.now) result ≡ behind is_in lexemes.now }
{
    match lexemes {
        [Lexeme::Key(Key::In), rest @ ..] => Some(rest),
        _ => None,
    }
}

/// Whether NOT stands at the front, and what is behind it.
fn first_not(lexemes: &[Lexeme]) -> (bool, &[Lexeme])
    ensures { (result.0, result.1.now) ≡ first_not_at lexemes.now }
{
    match lexemes {
        [Lexeme::Key(Key::Not), rest @ ..] => (true, rest),
        _ => (false, lexemes),
    }
}

fn relation(lexemes: &[Lexeme]) -> Option<(Relation, &[Lexeme])>
    ensures { seen result ≡ one_at relation_of lexemes.now }
{
    match lexemes {
        [Lexeme::Mark(Mark::Equal), rest @ ..] => Some((Relation::Equal, rest)),
        [Lexeme::Mark(Mark::Unequal), rest @ ..] => Some((Relation::Unequal, rest)),
        [Lexeme::Mark(Mark::Less), rest @ ..] => Some((Relation::Less, rest)),
        [Lexeme::Mark(Mark::LessEqual), rest @ ..] => Some((Relation::LessEqual, rest)),
        [Lexeme::Mark(Mark::Greater), rest @ ..] => Some((Relation::Greater, rest)),
        [Lexeme::Mark(Mark::GreaterEqual), rest @ ..] => Some((Relation::GreaterEqual, rest)),
        _ => None,
    }
}

#[tactic(auto, unfolding(crate::specs::Reading::between_at))]
fn between(
    alloc: Global,
    value: Several<Term>,
    negated: bool,
    lexemes: &[Lexeme],
) -> Result<Option<(Compare, &[Lexeme])>, NoMemory>
    ensures { IfOk result (λ o. seen o ≡ between_at value negated lexemes.now) }
{
    let Some((low, rest)) = sum(alloc, lexemes)? else {
        return Ok(None);
    };
    let Some(rest) = behind_and(rest) else {
        return Ok(None);
    };
    let Some((high, rest)) = sum(alloc, rest)? else {
        return Ok(None);
    };
    Ok(Some((Compare::Between(value, negated, low, high), rest)))
}

fn between_side(
    alloc: Global,
    left: Side,
    negated: bool,
    lexemes: &[Lexeme],
) -> Result<Option<(Compare, &[Lexeme])>, NoMemory>
    ensures { IfOk result (λ o. seen o ≡ between_side left negated lexemes.now) }
{
    match left {
        Side::Sum(value) => between(alloc, value, negated, lexemes),
        Side::Text(_) => Ok(None),
    }
}

fn within(
    alloc: Global,
    left: Side,
    negated: bool,
    lexemes: &[Lexeme],
) -> Result<Option<(Compare, &[Lexeme])>, NoMemory>
    ensures { IfOk result (λ o. seen o ≡ within_at left negated lexemes.now) }
{
    let Some((items, rest)) = tuple(alloc, lexemes)? else {
        return Ok(None);
    };
    Ok(Some((Compare::Within(left, negated, items), rest)))
}

fn relate(
    alloc: Global,
    left: Side,
    negated: bool,
    lexemes: &[Lexeme],
) -> Result<Option<(Compare, &[Lexeme])>, NoMemory>
    ensures { IfOk result (λ o. seen o ≡ relate_at left negated lexemes.now) }
{
    if negated {
        return Ok(None);
    }
    let Some((relation, rest)) = relation(lexemes) else {
        return Ok(None);
    };
    let Some((right, rest)) = side(alloc, rest)? else {
        return Ok(None);
    };
    Ok(Some((Compare::Relate(left, relation, right), rest)))
}

/// What is behind the first side and NOT.
#[tactic(auto, unfolding(crate::specs::Reading::test_at))]
fn test(
    alloc: Global,
    left: Side,
    negated: bool,
    lexemes: &[Lexeme],
) -> Result<Option<(Compare, &[Lexeme])>, NoMemory>
    ensures { IfOk result (λ o. seen o ≡ test_at left negated lexemes.now) }
{
    if let Some(rest) = behind_between(lexemes) {
        return between_side(alloc, left, negated, rest);
    }
    if let Some(rest) = behind_in(lexemes) {
        return within(alloc, left, negated, rest);
    }
    relate(alloc, left, negated, lexemes)
}

/// The comparison at the front.
#[tactic(auto, unfolding(crate::specs::Reading::compare_at))]
pub(crate) fn compare(
    alloc: Global,
    lexemes: &[Lexeme],
) -> Result<Option<(Compare, &[Lexeme])>, NoMemory>
    ensures { IfOk result (λ o. seen o ≡ compare_at lexemes.now) }
{
    let Some((left, rest)) = side(alloc, lexemes)? else {
        return Ok(None);
    };
    let (negated, rest) = first_not(rest);
    test(alloc, left, negated, rest)
}
