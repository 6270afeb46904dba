//! The statements of a log, from its lexemes.

ghost use Rattle.std.specs.Prelude.{◌≡◌, ◌<◌, ◌^◌, IfOk, IfSome, length, option_map, Some};
ghost use Rattle.qf_grammar.specs.Spelling.{IsForm};
ghost use Rattle.qf_grammar.specs.declared.tree.Form.{Form};
ghost use Rattle.qf_grammar.specs.Statements.{is_semicolon, cut_at, has_lexemes, table_of, is_table, first_table, judged_with, judged, Gives, statements_of};

use crate::fault::LogFault;
use crate::forms::form;
use crate::lexeme::{Lexeme, Mark};
use crate::tree::Form;
use crate::uses::{Use, read_uses, some_alike, some_big};
use qf_base::{List, NoMemory};
use std::alloc::Global;

/// A statement of a log with what it uses, in the order of its text.
#[derive(Drop)]
pub struct Stated {
    pub form: Form,
    pub uses: List<Use>,
}

fn is_semicolon(lexeme: Lexeme) -> bool
    ensures { result ≡ is_semicolon lexeme }
{
    matches!(lexeme, Lexeme::Mark(Mark::Semicolon))
}

/// The piece before the first semicolon, and the lexemes behind it, where there is one.
fn cut(lexemes: &[Lexeme]) -> (&[Lexeme], Option<&[Lexeme]>)
    ensures { (result.0.now, option_map (λ rest. rest.now) result.1) ≡ cut_at lexemes.now }
{
    for place in 0..lexemes.len() {
        if is_semicolon(lexemes[place]) {
            return (&lexemes[..place], Some(&lexemes[place + 1..]));
        }
    }
    (lexemes, None)
}

fn has_lexemes(piece: &[Lexeme]) -> bool
    ensures { result ≡ has_lexemes piece.now }
{
    match piece {
        [] => false,
        _ => true,
    }
}

fn table_of(form: &Form) -> u32
    ensures { result ≡ table_of form.now }
{
    match form {
        Form::Update(table, _, _) => *table,
        Form::Delete(table, _) => *table,
        Form::Insert(table, _, _) => *table,
    }
}

fn is_table(first: Option<u32>, table: u32) -> bool
    ensures { result ≡ is_table first table }
{
    match first {
        None => true,
        Some(first) => first == table,
    }
}

fn first_table(first: Option<u32>, form: &Form) -> Option<u32>
    ensures { result ≡ first_table first form.now }
{
    match first {
        None => Some(table_of(form)),
        Some(table) => Some(table),
    }
}

/// Statement `number`, which is of this form and uses these, or its first fault.
fn judge_form(
    numbers: &[i64],
    first: Option<u32>,
    number: u32,
    form: Form,
    uses: List<Use>,
) -> Result<Stated, LogFault>
    ensures { result ≡ judged_with numbers.now first number form uses }
{
    if some_alike(uses.as_slice()) {
        return Err(LogFault::NotLinear(number));
    }
    if some_big(numbers, uses.as_slice()) {
        return Err(LogFault::BigCoefficient(number));
    }
    if !is_table(first, table_of(&form)) {
        return Err(LogFault::OtherTable(number));
    }
    Ok(Stated { form, uses })
}

/// The statement of a piece, whose number is `number`, or its first fault.
fn judge(
    alloc: Global,
    numbers: &[i64],
    first: Option<u32>,
    number: u32,
    piece: &[Lexeme],
) -> Result<Stated, LogFault>
    ensures { Gives result (judged numbers.now first number piece.now) }
{
    let Some(form) = form(alloc, piece)? else {
        return Err(LogFault::BadSyntax(number));
    };
    match read_uses(alloc, piece) {
        Ok(uses) => judge_form(numbers, first, number, form, uses),
        Err(fault) => {
            drop(form);
            Err(LogFault::from(fault))
        }
    }
}

/// The statements that the lexemes spell, or their first fault: the first statement with a fault counts, and of its
/// faults the first in the order of `LogFault`. Statements stand between semicolons and are numbered from 1; a piece
/// without lexemes is none. The value of `Lexeme::Number(n)` stands at place n of `numbers`.
pub fn statements(
    alloc: Global,
    lexemes: &[Lexeme],
    numbers: &[i64],
) -> Result<List<Stated>, LogFault>
    requires { length lexemes.now < 2 ^ 30 }
    ensures { Gives result (statements_of numbers.now lexemes.now) }
{
    let mut found = List::new(alloc);
    let mut first = None;
    let mut number = 1;
    let mut left = Some(lexemes);
    while let Some(rest) = left {
        let (piece, after) = cut(rest);
        if has_lexemes(piece) {
            let stated = judge(alloc, numbers, first, number, piece)?;
            first = first_table(first, &stated.form);
            found.push(stated)?;
            number += 1;
        }
        left = after;
    }
    Ok(found)
}

/// The statement that the lexemes spell, in one of its three forms; `None` where they spell none.
pub fn read_form(alloc: Global, lexemes: &[Lexeme]) -> Result<Option<Form>, NoMemory>
    // What is answered is spelled so.
    ensures found { IfOk result (λ o. IfSome o (λ f. IsForm 32 lexemes.now f)) }
    // What is spelled so is answered, unless memory runs out.
    ensures only { IfOk result (λ o. (f : Form) → IsForm 32 lexemes.now f → o ≡ Some f) }
{
    form(alloc, lexemes)
}
