//! The parameters of a log: its whole-number literals that are no coefficients.

ghost use Rattle.std.specs.Prelude.{◌≡◌, ◌++◌, ◌+◌, ◌<◌, ◌^◌, filter, length, OnOk, IfOk};
ghost use Rattle.std.specs.List.{flat_map};
ghost use Rattle.qf_log.specs.Parameters.{is_number, number_at, token_at, place_of, places_in, places_from, coefficient_in, ids_from, ids_of, parameters_in};

use qf_base::{List, NoMemory};
use qf_grammar::{Factor, Stated, Use};
use qf_lex::{Token, TokenKind};
use std::alloc::Global;

/// A parameter of a log: the number of its statement, from 1, its literal, which is the bytes from offset `start` up to
/// offset `end`, and the literal's value. Offsets count from 0 over all bytes of the file.
#[derive(Clone, Copy, PartialEq, Eq)]
pub struct ParamPlace {
    pub statement: u32,
    pub start: u64,
    pub end: u64,
    pub old: i64,
}

/// The tokens that are numbers.
pub(crate) fn number_tokens(alloc: Global, tokens: &[Token]) -> Result<List<Token>, NoMemory>
    ensures { IfOk result (λ found. found ≡ filter (λ t. is_number t.kind) tokens.now) }
{
    let mut found = List::new(alloc);
    for token in tokens {
        if is_number(token.kind) {
            found.push(*token)?;
        }
    }
    Ok(found)
}

fn is_number(kind: TokenKind) -> bool
    ensures { result ≡ is_number kind }
{
    matches!(kind, TokenKind::Number(_))
}

const NO_TOKEN: Token = Token {
    start: 0,
    end: 0,
    kind: TokenKind::Number(0),
};

fn token_at(tokens: &[Token], place: u32) -> Token
    ensures { result ≡ token_at tokens.now place }
{
    let place = place as usize;
    if place < tokens.len() {
        tokens[place]
    } else {
        NO_TOKEN
    }
}

/// The value of a number.
pub(crate) fn number_at(numbers: &[i64], place: u32) -> i64
    ensures { result ≡ number_at numbers.now place }
{
    let place = place as usize;
    if place < numbers.len() {
        numbers[place]
    } else {
        0
    }
}

fn place_of(tokens: &[Token], numbers: &[i64], statement: u32, place: u32) -> ParamPlace
    ensures { result ≡ place_of tokens.now numbers.now statement place }
{
    let token = token_at(tokens, place);
    ParamPlace {
        statement,
        start: token.start,
        end: token.end,
        old: number_at(numbers, place),
    }
}

/// Adds the parameters of a statement.
fn add_places(
    into: &mut List<ParamPlace>,
    tokens: &[Token],
    numbers: &[i64],
    statement: u32,
    uses: &[Use],
) -> Result<(), NoMemory>
    ensures { OnOk result (into.new ≡ into.old ++ places_in tokens.now numbers.now statement uses.now) }
{
    for used in uses {
        if let Use::Number(place) = *used {
            into.push(place_of(tokens, numbers, statement, place))?;
        }
    }
    Ok(())
}

/// The parameters of the statements in the order of the log.
pub(crate) fn parameters(
    alloc: Global,
    tokens: &[Token],
    numbers: &[i64],
    stated: &[Stated],
) -> Result<List<ParamPlace>, NoMemory>
    requires { length stated.now < 2 ^ 31 }
    ensures { IfOk result (λ found. found ≡ places_from tokens.now numbers.now 1 stated.now) }
{
    let mut found = List::new(alloc);
    for place in 0..stated.len() {
        let uses = stated[place].uses.as_slice();
        add_places(&mut found, tokens, numbers, place as u32 + 1, uses)?;
    }
    Ok(found)
}

/// Adds the numbers of the parameters among these uses, behind `count` others; a coefficient has 0. Answers how many
/// parameters there are then.
fn add_ids(ids: &mut List<u32>, count: u32, uses: &[Use]) -> Result<u32, NoMemory>
    requires { count + length uses.now < 2 ^ 32 }
    ensures count { IfOk result (λ n. n ≡ count + length (parameters_in uses.now)) }
    ensures ids { OnOk result (ids.new ≡ ids.old ++ ids_from count uses.now) }
{
    let mut last = count;
    for used in uses {
        match *used {
            Use::Number(_) => {
                last += 1;
                ids.push(last)?;
            }
            Use::Product(left, right) => {
                add_coefficient(ids, left)?;
                add_coefficient(ids, right)?;
            }
            Use::Name(_) | Use::Text(_) => {}
        }
    }
    Ok(last)
}

fn add_coefficient(ids: &mut List<u32>, factor: Factor) -> Result<(), NoMemory>
    ensures { OnOk result (ids.new ≡ ids.old ++ coefficient_in factor) }
{
    match factor {
        Factor::Number(_) => ids.push(0),
        Factor::Name(_) => Ok(()),
    }
}

/// The numbers of the parameters, from 1, by the places of their literals among the numbers of the log.
pub(crate) fn ids_of(alloc: Global, stated: &[Stated]) -> Result<List<u32>, NoMemory>
    requires { length (flat_map (λ s. s.uses) stated.now) < 2 ^ 32 }
    ensures { IfOk result (λ ids. ids ≡ ids_of stated.now) }
{
    let mut ids = List::new(alloc);
    let mut count = 0;
    for one in stated {
        count = add_ids(&mut ids, count, one.uses.as_slice())?;
    }
    Ok(ids)
}
