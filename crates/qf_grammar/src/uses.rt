//! What lexemes name and multiply.

ghost use Rattle.std.specs.Prelude.{◌≡◌, IfOk};
ghost use Rattle.std.specs.List.{list_any};
ghost use Rattle.qf_grammar.specs.Reading.{seen};
ghost use Rattle.qf_grammar.specs.Usage.{single, product_at, use_at, uses_in, is_alike, is_past, is_big, has_big_factor};

use crate::lexeme::Lexeme;
use crate::sums::{behind_star, factor};
use crate::tree::Factor;
use qf_base::{List, NoMemory};
use std::alloc::Global;

/// The size that no coefficient passes.
const MOST: u64 = 1_000_000;

/// What a statement uses: a name, a text or a number that stands alone, by its number, or the two factors of a product.
/// A number that stands alone is a parameter, and one in a product with a name a coefficient.
#[derive(Clone, Copy, PartialEq, Eq)]
pub enum Use {
    Name(u32),
    Text(u32),
    Number(u32),
    Product(Factor, Factor),
}

/// The two factors of a product at the front, and what is behind them.
fn product(lexemes: &[Lexeme]) -> Option<((Factor, Factor), &[Lexeme])>
    ensures { seen result ≡ product_at lexemes.now }
{
    let (left, rest) = factor(lexemes)?;
    let rest = behind_star(rest)?;
    let (right, rest) = factor(rest)?;
    Some(((left, right), rest))
}

/// What a lexeme names that stands alone.
fn single(lexeme: Lexeme) -> Option<Use>
    ensures { result ≡ single lexeme }
{
    match lexeme {
        Lexeme::Name(name) => Some(Use::Name(name)),
        Lexeme::Text(text) => Some(Use::Text(text)),
        Lexeme::Number(number) => Some(Use::Number(number)),
        _ => None,
    }
}

/// The product or the single lexeme at the front, where it names something, and what is behind it.
fn next_use(lexemes: &[Lexeme]) -> Option<(Option<Use>, &[Lexeme])>
    ensures { seen result ≡ use_at lexemes.now }
{
    if let Some(((left, right), rest)) = product(lexemes) {
        return Some((Some(Use::Product(left, right)), rest));
    }
    match lexemes {
        [first, rest @ ..] => Some((single(*first), rest)),
        [] => None,
    }
}

/// What the lexemes name and multiply, in order.
pub(crate) fn read_uses(alloc: Global, lexemes: &[Lexeme]) -> Result<List<Use>, NoMemory>
    ensures { IfOk result (λ found. found ≡ uses_in lexemes.now) }
{
    let mut found = List::new(alloc);
    let mut rest = lexemes;
    while let Some((used, after)) = next_use(rest) {
        if let Some(used) = used {
            found.push(used)?;
        }
        rest = after;
    }
    Ok(found)
}

fn is_alike(used: Use) -> bool
    ensures { result ≡ is_alike used }
{
    match used {
        Use::Product(Factor::Number(_), Factor::Number(_)) => true,
        Use::Product(Factor::Name(_), Factor::Name(_)) => true,
        _ => false,
    }
}

fn is_big(numbers: &[i64], number: u32) -> bool
    ensures { result ≡ is_big numbers.now number }
{
    match numbers.get(number as usize) {
        Some(value) => value.unsigned_abs() > MOST,
        None => false,
    }
}

fn has_big_factor(numbers: &[i64], used: Use) -> bool
    ensures { result ≡ has_big_factor numbers.now used }
{
    match used {
        Use::Product(Factor::Number(number), Factor::Name(_)) => is_big(numbers, number),
        Use::Product(Factor::Name(_), Factor::Number(number)) => is_big(numbers, number),
        _ => false,
    }
}

/// Whether two names or two numbers are multiplied.
pub(crate) fn some_alike(uses: &[Use]) -> bool
    ensures { result ≡ list_any is_alike uses.now }
{
    for used in uses {
        if is_alike(*used) {
            return true;
        }
    }
    false
}

/// Whether a coefficient is too big.
pub(crate) fn some_big(numbers: &[i64], uses: &[Use]) -> bool
    ensures { result ≡ list_any (has_big_factor numbers.now) uses.now }
{
    for used in uses {
        if has_big_factor(numbers, *used) {
            return true;
        }
    }
    false
}
