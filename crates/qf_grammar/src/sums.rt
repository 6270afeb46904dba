//! Sums, sides of comparisons and lists of constants, read from lexemes.

ghost use Rattle.std.specs.Prelude.{◌≡◌, IfOk, length, option_map};
ghost use Rattle.qf_grammar.specs.Reading.{seen, one_at, factor_of, second_at, term_at, sign_of, first_sign_at, next_term, further_at, sum_at, side_at, behind, is_star, is_comma, is_open, is_close, item_of, text_of, comma_at, items_at, tuple_at};

use crate::lexeme::{Lexeme, Mark};
use crate::tree::{Factor, Item, Several, Side, Term};
use qf_base::{List, NoMemory};
use std::alloc::Global;

/// The number or the name at the front.
pub(crate) fn factor(lexemes: &[Lexeme]) -> Option<(Factor, &[Lexeme])>
    ensures { seen result ≡ one_at factor_of lexemes.now }
{
    match lexemes {
        [Lexeme::Number(number), rest @ ..] => Some((Factor::Number(*number), rest)),
        [Lexeme::Name(name), rest @ ..] => Some((Factor::Name(*name), rest)),
        _ => None,
    }
}

fn second(minus: bool, left: Factor, lexemes: &[Lexeme]) -> Option<(Term, &[Lexeme])>
    ensures { seen result ≡ second_at minus left lexemes.now }
{
    match lexemes {
        [Lexeme::Mark(Mark::Star), rest @ ..] => {
            let (right, rest) = factor(rest)?;
            Some((
                Term {
                    minus,
                    left,
                    right: Some(right),
                },
                rest,
            ))
        }
        _ => Some((
            Term {
                minus,
                left,
                right: None,
            },
            lexemes,
        )),
    }
}

#[tactic(auto, unfolding(crate::specs::Reading::term_at))]
fn term(minus: bool, lexemes: &[Lexeme]) -> Option<(Term, &[Lexeme])>
    ensures { seen result ≡ term_at minus lexemes.now }
{
    let (left, rest) = factor(lexemes)?;
    second(minus, left, rest)
}

/// The sign before a further term.
fn sign(lexemes: &[Lexeme]) -> Option<(bool, &[Lexeme])>
    ensures { seen result ≡ one_at sign_of lexemes.now }
{
    match lexemes {
        [Lexeme::Mark(Mark::Plus), rest @ ..] => Some((false, rest)),
        [Lexeme::Mark(Mark::Minus), rest @ ..] => Some((true, rest)),
        _ => None,
    }
}

/// The minus before a first term, if one stands there.
fn first_sign(lexemes: &[Lexeme]) -> (bool, &[Lexeme])
    ensures { (result.0, result.1.now) ≡ first_sign_at lexemes.now }
{
    match lexemes {
        [Lexeme::Mark(Mark::Minus), rest @ ..] => (true, rest),
        _ => (false, lexemes),
    }
}

fn further_terms(
    alloc: Global,
    lexemes: &[Lexeme],
) -> Result<Option<(List<Term>, &[Lexeme])>, NoMemory>
    ensures { IfOk result (λ o. seen o ≡ further_at next_term (length lexemes.now) lexemes.now) }
{
    let mut terms = List::new(alloc);
    let mut rest = lexemes;
    for _ in 0..lexemes.len() {
        let Some((minus, next)) = sign(rest) else {
            break;
        };
        let Some((term, after)) = term(minus, next) else {
            return Ok(None);
        };
        terms.push(term)?;
        rest = after;
    }
    Ok(Some((terms, rest)))
}

/// The sum at the front.
#[tactic(auto, unfolding(crate::specs::Reading::sum_at))]
pub(crate) fn sum(
    alloc: Global,
    lexemes: &[Lexeme],
) -> Result<Option<(Several<Term>, &[Lexeme])>, NoMemory>
    ensures { IfOk result (λ o. seen o ≡ sum_at lexemes.now) }
{
    let (minus, rest) = first_sign(lexemes);
    let Some((first, rest)) = term(minus, rest) else {
        return Ok(None);
    };
    let Some((others, rest)) = further_terms(alloc, rest)? else {
        return Ok(None);
    };
    Ok(Some((Several { first, others }, rest)))
}

fn text(lexemes: &[Lexeme]) -> Option<(u32, &[Lexeme])>
    ensures { seen result ≡ one_at text_of lexemes.now }
{
    match lexemes {
        [Lexeme::Text(text), rest @ ..] => Some((*text, rest)),
        _ => None,
    }
}

/// The side of a comparison at the front.
#[tactic(auto, unfolding(crate::specs::Reading::side_at))]
pub(crate) fn side(alloc: Global, lexemes: &[Lexeme]) -> Result<Option<(Side, &[Lexeme])>, NoMemory>
    ensures { IfOk result (λ o. seen o ≡ side_at lexemes.now) }
{
    if let Some((text, rest)) = text(lexemes) {
        return Ok(Some((Side::Text(text), rest)));
    }
    let Some((sum, rest)) = sum(alloc, lexemes)? else {
        return Ok(None);
    };
    Ok(Some((Side::Sum(sum), rest)))
}

/// What is behind `*`.
pub(crate) fn behind_star(lexemes: &[Lexeme]) -> Option<&[Lexeme]>
    ensures { option_map (λ rest. rest.now) result ≡ behind is_star lexemes.now }
{
    match lexemes {
        [Lexeme::Mark(Mark::Star), rest @ ..] => Some(rest),
        _ => None,
    }
}

/// What is behind a comma.
pub(crate) fn behind_comma(lexemes: &[Lexeme]) -> Option<&[Lexeme]>
    ensures { option_map (λ rest. rest.now) result ≡ behind is_comma lexemes.now }
{
    match lexemes {
        [Lexeme::Mark(Mark::Comma), rest @ ..] => Some(rest),
        _ => None,
    }
}

/// What is behind an opening bracket.
pub(crate) fn behind_open(lexemes: &[Lexeme]) -> Option<&[Lexeme]>
    ensures { option_map (λ rest. rest.now) result ≡ behind is_open lexemes.now }
{
    match lexemes {
        [Lexeme::Mark(Mark::Open), rest @ ..] => Some(rest),
        _ => None,
    }
}

/// What is behind a closing bracket.
pub(crate) fn behind_close(lexemes: &[Lexeme]) -> Option<&[Lexeme]>
    ensures { option_map (λ rest. rest.now) result ≡ behind is_close lexemes.now }
{
    match lexemes {
        [Lexeme::Mark(Mark::Close), rest @ ..] => Some(rest),
        _ => None,
    }
}

fn item(lexemes: &[Lexeme]) -> Option<(Item, &[Lexeme])>
    ensures { seen result ≡ one_at item_of lexemes.now }
{
    match lexemes {
        [Lexeme::Number(number), rest @ ..] => Some((Item::Number(*number), rest)),
        [Lexeme::Text(text), rest @ ..] => Some((Item::Text(*text), rest)),
        _ => None,
    }
}

fn further_items(
    alloc: Global,
    lexemes: &[Lexeme],
) -> Result<Option<(List<Item>, &[Lexeme])>, NoMemory>
    ensures { IfOk result (λ o. seen o ≡ further_at (comma_at (one_at item_of)) (length lexemes.now) lexemes.now) }
{
    let mut items = List::new(alloc);
    let mut rest = lexemes;
    for _ in 0..lexemes.len() {
        let Some(next) = behind_comma(rest) else {
            break;
        };
        let Some((item, after)) = item(next) else {
            return Ok(None);
        };
        items.push(item)?;
        rest = after;
    }
    Ok(Some((items, rest)))
}

#[tactic(auto, unfolding(crate::specs::Reading::items_at))]
fn items(alloc: Global, lexemes: &[Lexeme]) -> Result<Option<(Several<Item>, &[Lexeme])>, NoMemory>
    ensures { IfOk result (λ o. seen o ≡ items_at lexemes.now) }
{
    let Some((first, rest)) = item(lexemes) else {
        return Ok(None);
    };
    let Some((others, rest)) = further_items(alloc, rest)? else {
        return Ok(None);
    };
    Ok(Some((Several { first, others }, rest)))
}

/// Constants in brackets.
#[tactic(auto, unfolding(crate::specs::Reading::tuple_at))]
pub(crate) fn tuple(
    alloc: Global,
    lexemes: &[Lexeme],
) -> Result<Option<(Several<Item>, &[Lexeme])>, NoMemory>
    ensures { IfOk result (λ o. seen o ≡ tuple_at lexemes.now) }
{
    let Some(rest) = behind_open(lexemes) else {
        return Ok(None);
    };
    let Some((items, rest)) = items(alloc, rest)? else {
        return Ok(None);
    };
    let Some(rest) = behind_close(rest) else {
        return Ok(None);
    };
    Ok(Some((items, rest)))
}
