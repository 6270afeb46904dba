//! Statements, read from lexemes.

ghost use Rattle.std.specs.Prelude.{◌≡◌, IfOk, length, option_map};
ghost use Rattle.qf_grammar.specs.Reading.{seen, one_at, name_of, behind, is_equal, comma_at, further_at, assign_at, assigns_at, filter_at, update_at, delete_at, names_at, tuple_at, tuples_at, columns_at, values_at, insert_at, form_at};

use crate::conditions::condition;
use crate::keywords::{
    behind_delete, behind_from, behind_insert, behind_into, behind_set, behind_update,
    behind_values, behind_where,
};
use crate::lexeme::{Lexeme, Mark};
use crate::sums::{behind_close, behind_comma, behind_open, side, tuple};
use crate::tree::{Assign, Condition, Form, Item, Several};
use qf_base::{List, NoMemory};
use std::alloc::Global;

fn name(lexemes: &[Lexeme]) -> Option<(u32, &[Lexeme])>
    ensures { seen result ≡ one_at name_of lexemes.now }
{
    match lexemes {
        [Lexeme::Name(name), rest @ ..] => Some((*name, rest)),
        _ => None,
    }
}

fn behind_equal(lexemes: &[Lexeme]) -> Option<&[Lexeme]>
    ensures { option_map (λ rest. rest.now) result ≡ behind is_equal lexemes.now }
{
    match lexemes {
        [Lexeme::Mark(Mark::Equal), rest @ ..] => Some(rest),
        _ => None,
    }
}

#[tactic(auto, unfolding(crate::specs::Reading::assign_at))]
fn assign(alloc: Global, lexemes: &[Lexeme]) -> Result<Option<(Assign, &[Lexeme])>, NoMemory>
    ensures { IfOk result (λ o. seen o ≡ assign_at lexemes.now) }
{
    let Some((column, rest)) = name(lexemes) else {
        return Ok(None);
    };
    let Some(rest) = behind_equal(rest) else {
        return Ok(None);
    };
    let Some((value, rest)) = side(alloc, rest)? else {
        return Ok(None);
    };
    Ok(Some((Assign { column, value }, rest)))
}

fn further_assigns(
    alloc: Global,
    lexemes: &[Lexeme],
) -> Result<Option<(List<Assign>, &[Lexeme])>, NoMemory>
    ensures { IfOk result (λ o. seen o ≡ further_at (comma_at assign_at) (length lexemes.now) lexemes.now) }
{
    let mut assigns = List::new(alloc);
    let mut rest = lexemes;
    for _ in 0..lexemes.len() {
        let Some(next) = behind_comma(rest) else {
            break;
        };
        let Some((assign, after)) = assign(alloc, next)? else {
            return Ok(None);
        };
        assigns.push(assign)?;
        rest = after;
    }
    Ok(Some((assigns, rest)))
}

#[tactic(auto, unfolding(crate::specs::Reading::assigns_at))]
fn assigns(
    alloc: Global,
    lexemes: &[Lexeme],
) -> Result<Option<(Several<Assign>, &[Lexeme])>, NoMemory>
    ensures { IfOk result (λ o. seen o ≡ assigns_at lexemes.now) }
{
    let Some((first, rest)) = assign(alloc, lexemes)? else {
        return Ok(None);
    };
    let Some((others, rest)) = further_assigns(alloc, rest)? else {
        return Ok(None);
    };
    Ok(Some((Several { first, others }, rest)))
}

/// WHERE and a condition, or nothing, up to the end.
#[tactic(auto, unfolding(crate::specs::Reading::filter_at))]
fn filter(alloc: Global, lexemes: &[Lexeme]) -> Result<Option<Option<Condition>>, NoMemory>
    ensures { IfOk result (λ o. o ≡ filter_at lexemes.now) }
{
    let Some(rest) = behind_where(lexemes) else {
        return match lexemes {
            [] => Ok(Some(None)),
            _ => Ok(None),
        };
    };
    let Some((condition, rest)) = condition(alloc, rest)? else {
        return Ok(None);
    };
    match rest {
        [] => Ok(Some(Some(condition))),
        _ => Ok(None),
    }
}

#[tactic(auto, unfolding(crate::specs::Reading::update_at))]
fn update(alloc: Global, lexemes: &[Lexeme]) -> Result<Option<Form>, NoMemory>
    ensures { IfOk result (λ o. o ≡ update_at lexemes.now) }
{
    let Some((table, rest)) = name(lexemes) else {
        return Ok(None);
    };
    let Some(rest) = behind_set(rest) else {
        return Ok(None);
    };
    let Some((sets, rest)) = assigns(alloc, rest)? else {
        return Ok(None);
    };
    let Some(filter) = filter(alloc, rest)? else {
        return Ok(None);
    };
    Ok(Some(Form::Update(table, sets, filter)))
}

#[tactic(auto, unfolding(crate::specs::Reading::delete_at))]
fn delete(alloc: Global, lexemes: &[Lexeme]) -> Result<Option<Form>, NoMemory>
    ensures { IfOk result (λ o. o ≡ delete_at lexemes.now) }
{
    let Some(rest) = behind_from(lexemes) else {
        return Ok(None);
    };
    let Some((table, rest)) = name(rest) else {
        return Ok(None);
    };
    let Some(filter) = filter(alloc, rest)? else {
        return Ok(None);
    };
    Ok(Some(Form::Delete(table, filter)))
}

fn further_names(
    alloc: Global,
    lexemes: &[Lexeme],
) -> Result<Option<(List<u32>, &[Lexeme])>, NoMemory>
    ensures { IfOk result (λ o. seen o ≡ further_at (comma_at (one_at name_of)) (length lexemes.now) lexemes.now) }
{
    let mut names = List::new(alloc);
    let mut rest = lexemes;
    for _ in 0..lexemes.len() {
        let Some(next) = behind_comma(rest) else {
            break;
        };
        let Some((name, after)) = name(next) else {
            return Ok(None);
        };
        names.push(name)?;
        rest = after;
    }
    Ok(Some((names, rest)))
}

#[tactic(auto, unfolding(crate::specs::Reading::names_at))]
fn names(alloc: Global, lexemes: &[Lexeme]) -> Result<Option<(Several<u32>, &[Lexeme])>, NoMemory>
    ensures { IfOk result (λ o. seen o ≡ names_at lexemes.now) }
{
    let Some((first, rest)) = name(lexemes) else {
        return Ok(None);
    };
    let Some((others, rest)) = further_names(alloc, rest)? else {
        return Ok(None);
    };
    Ok(Some((Several { first, others }, rest)))
}

fn further_tuples(
    alloc: Global,
    lexemes: &[Lexeme],
) -> Result<Option<(List<Several<Item>>, &[Lexeme])>, NoMemory>
    ensures { IfOk result (λ o. seen o ≡ further_at (comma_at tuple_at) (length lexemes.now) lexemes.now) }
{
    let mut tuples = List::new(alloc);
    let mut rest = lexemes;
    for _ in 0..lexemes.len() {
        let Some(next) = behind_comma(rest) else {
            break;
        };
        let Some((tuple, after)) = tuple(alloc, next)? else {
            return Ok(None);
        };
        tuples.push(tuple)?;
        rest = after;
    }
    Ok(Some((tuples, rest)))
}

#[tactic(auto, unfolding(crate::specs::Reading::tuples_at))]
fn tuples(
    alloc: Global,
    lexemes: &[Lexeme],
) -> Result<Option<(Several<Several<Item>>, &[Lexeme])>, NoMemory>
    ensures { IfOk result (λ o. seen o ≡ tuples_at lexemes.now) }
{
    let Some((first, rest)) = tuple(alloc, lexemes)? else {
        return Ok(None);
    };
    let Some((others, rest)) = further_tuples(alloc, rest)? else {
        return Ok(None);
    };
    Ok(Some((Several { first, others }, rest)))
}

/// The list of columns, if one stands there.
#[tactic(auto, unfolding(crate::specs::Reading::columns_at))]
fn columns(
    alloc: Global,
    lexemes: &[Lexeme],
) -> Result<Option<(Option<Several<u32>>, &[Lexeme])>, NoMemory>
    ensures { IfOk result (λ o. seen o ≡ columns_at lexemes.now) }
{
    let Some(rest) = behind_open(lexemes) else {
        return Ok(Some((None, lexemes)));
    };
    let Some((names, rest)) = names(alloc, rest)? else {
        return Ok(None);
    };
    let Some(rest) = behind_close(rest) else {
        return Ok(None);
    };
    Ok(Some((Some(names), rest)))
}

/// What is behind INTO and the name of the table.
#[tactic(auto, unfolding(crate::specs::Reading::values_at))]
fn values(alloc: Global, table: u32, lexemes: &[Lexeme]) -> Result<Option<Form>, NoMemory>
    ensures { IfOk result (λ o. o ≡ values_at table lexemes.now) }
{
    let Some((columns, rest)) = columns(alloc, lexemes)? else {
        return Ok(None);
    };
    let Some(rest) = behind_values(rest) else {
        return Ok(None);
    };
    let Some((tuples, rest)) = tuples(alloc, rest)? else {
        return Ok(None);
    };
    match rest {
        [] => Ok(Some(Form::Insert(table, columns, tuples))),
        _ => Ok(None),
    }
}

#[tactic(auto, unfolding(crate::specs::Reading::insert_at))]
fn insert(alloc: Global, lexemes: &[Lexeme]) -> Result<Option<Form>, NoMemory>
    ensures { IfOk result (λ o. o ≡ insert_at lexemes.now) }
{
    let Some(rest) = behind_into(lexemes) else {
        return Ok(None);
    };
    let Some((table, rest)) = name(rest) else {
        return Ok(None);
    };
    values(alloc, table, rest)
}

/// The statement that the lexemes spell.
#[tactic(auto, unfolding(crate::specs::Reading::form_at))]
pub(crate) fn form(alloc: Global, lexemes: &[Lexeme]) -> Result<Option<Form>, NoMemory>
    ensures { IfOk result (λ o. o ≡ form_at lexemes.now) }
{
    if let Some(rest) = behind_update(lexemes) {
        return update(alloc, rest);
    }
    if let Some(rest) = behind_delete(lexemes) {
        return delete(alloc, rest);
    }
    if let Some(rest) = behind_insert(lexemes) {
        return insert(alloc, rest);
    }
    Ok(None)
}
