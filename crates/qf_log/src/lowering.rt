//! The statements of a log as the program has them.

ghost use Rattle.std.specs.Prelude.{◌≡◌, ◌≤◌, ◌^◌, pos, map, unsigned_abs, IfOk, option_map};
ghost use Rattle.qf_log.specs.Parameters.{number_at};
ghost use Rattle.qf_log.specs.Lowered.{AreSmall, id_at, signed, column_term, parameter_term, lowered_product, lowered_term, lowered_several, lowered_sum, lowered_side, lowered_item, op_of, not_if, lowered_compare, lowered_condition, lowered_assign, lowered_columns, lowered_form};

use crate::places::number_at;
use qf_base::{Boxed, List, NoMemory};
use qf_grammar::{Assign, Compare, Condition, Factor, Form, Item, Relation, Several, Side, Stated};
use qf_ir::{Atom, Cond, Expr, Op, Statement, Term, Terms};
use std::alloc::Global;

fn id_at(ids: &[u32], place: u32) -> u32
    ensures { result ≡ id_at ids.now place }
{
    let place = place as usize;
    if place < ids.len() { ids[place] } else { 0 }
}

fn signed(minus: bool, value: i64) -> i64
    requires { unsigned_abs value ≤ 2 ^ 50 }
    ensures { result ≡ signed minus value }
{
    if minus { -value } else { value }
}

fn column_term(factor: i64, column: u32) -> Term
    ensures { result ≡ column_term factor column }
{
    Term {
        factor,
        atom: Atom::Column(column),
    }
}

fn parameter_term(ids: &[u32], factor: i64, place: u32) -> Term
    ensures { result ≡ parameter_term ids.now factor place }
{
    Term {
        factor,
        atom: Atom::Param(id_at(ids, place)),
    }
}

/// A number alone is a parameter, a name alone a column, and a number with a name the column's factor.
fn lower_term(values: &[i64], ids: &[u32], term: qf_grammar::Term) -> Term
    requires { AreSmall values.now }
    ensures { result ≡ lowered_term values.now ids.now term }
{
    let unit = signed(term.minus, 1);
    match (term.left, term.right) {
        (Factor::Number(place), None) => parameter_term(ids, unit, place),
        (Factor::Name(column), None) => column_term(unit, column),
        (Factor::Number(place), Some(Factor::Name(column))) => {
            column_term(signed(term.minus, number_at(values, place)), column)
        }
        (Factor::Name(column), Some(Factor::Number(place))) => {
            column_term(signed(term.minus, number_at(values, place)), column)
        }
        // No statement that is read has such a term.
        (Factor::Number(column), Some(Factor::Number(_))) => column_term(unit, column),
        (Factor::Name(column), Some(Factor::Name(_))) => column_term(unit, column),
    }
}

fn lower_sum(
    alloc: Global,
    values: &[i64],
    ids: &[u32],
    sum: &Several<qf_grammar::Term>,
) -> Result<Expr, NoMemory>
    requires { AreSmall values.now }
    ensures { IfOk result (λ e. e ≡ lowered_sum values.now ids.now sum.now) }
{
    let mut terms = Terms::new(alloc);
    terms.push(lower_term(values, ids, sum.first))?;
    for term in sum.others.as_slice() {
        terms.push(lower_term(values, ids, *term))?;
    }
    Ok(Expr::Sum(terms))
}

fn lower_side(alloc: Global, values: &[i64], ids: &[u32], side: &Side) -> Result<Expr, NoMemory>
    requires { AreSmall values.now }
    ensures { IfOk result (λ e. e ≡ lowered_side values.now ids.now side.now) }
{
    match side {
        Side::Sum(sum) => lower_sum(alloc, values, ids, sum),
        Side::Text(text) => Ok(Expr::Word(*text)),
    }
}

fn lower_item(alloc: Global, ids: &[u32], item: Item) -> Result<Expr, NoMemory>
    ensures { IfOk result (λ e. e ≡ lowered_item ids.now item) }
{
    match item {
        Item::Number(place) => {
            let mut terms = Terms::new(alloc);
            terms.push(parameter_term(ids, 1, place))?;
            Ok(Expr::Sum(terms))
        }
        Item::Text(text) => Ok(Expr::Word(text)),
    }
}

fn lower_items(alloc: Global, ids: &[u32], items: &Several<Item>) -> Result<List<Expr>, NoMemory>
    ensures { IfOk result (λ es. es ≡ lowered_several (lowered_item ids.now) items.now) }
{
    let mut lowered = List::new(alloc);
    lowered.push(lower_item(alloc, ids, items.first)?)?;
    for item in items.others.as_slice() {
        lowered.push(lower_item(alloc, ids, *item)?)?;
    }
    Ok(lowered)
}

fn op_of(relation: Relation) -> Op
    ensures { result ≡ op_of relation }
{
    match relation {
        Relation::Equal => Op::Eq,
        Relation::Unequal => Op::Ne,
        Relation::Less => Op::Lt,
        Relation::LessEqual => Op::Le,
        Relation::Greater => Op::Gt,
        Relation::GreaterEqual => Op::Ge,
    }
}

fn not_if(alloc: Global, negated: bool, cond: Cond) -> Result<Cond, NoMemory>
    ensures { IfOk result (λ c. c ≡ not_if negated cond) }
{
    if negated {
        Ok(Cond::Not(Boxed::new(alloc, cond)?))
    } else {
        Ok(cond)
    }
}

fn lower_compare(
    alloc: Global,
    values: &[i64],
    ids: &[u32],
    compare: &Compare,
) -> Result<Cond, NoMemory>
    requires { AreSmall values.now }
    ensures { IfOk result (λ c. c ≡ lowered_compare values.now ids.now compare.now) }
{
    match compare {
        Compare::Relate(left, relation, right) => Ok(Cond::Compare(
            op_of(*relation),
            lower_side(alloc, values, ids, left)?,
            lower_side(alloc, values, ids, right)?,
        )),
        Compare::Between(value, negated, low, high) => {
            let value = lower_sum(alloc, values, ids, value)?;
            let low = lower_sum(alloc, values, ids, low)?;
            let high = lower_sum(alloc, values, ids, high)?;
            not_if(alloc, *negated, Cond::Between(value, low, high))
        }
        Compare::Within(value, negated, items) => {
            let value = lower_side(alloc, values, ids, value)?;
            let items = lower_items(alloc, ids, items)?;
            not_if(alloc, *negated, Cond::Within(value, items))
        }
    }
}

#[cycle(lowering)]
fn lower_condition(
    alloc: Global,
    values: &[i64],
    ids: &[u32],
    condition: &Condition,
) -> Result<Cond, NoMemory>
    requires { AreSmall values.now }
    ensures { IfOk result (λ c. c ≡ lowered_condition values.now ids.now condition.now) }
{
    match condition {
        Condition::Test(compare) => lower_compare(alloc, values, ids, compare),
        Condition::All(parts) => Ok(Cond::All(lower_parts(alloc, values, ids, parts.as_slice())?)),
        Condition::Any(parts) => Ok(Cond::Any(lower_parts(alloc, values, ids, parts.as_slice())?)),
        Condition::Not(part) => {
            let lowered = lower_condition(alloc, values, ids, part.get())?;
            Ok(Cond::Not(Boxed::new(alloc, lowered)?))
        }
    }
}

#[cycle(lowering)]
fn lower_parts(
    alloc: Global,
    values: &[i64],
    ids: &[u32],
    parts: &[Condition],
) -> Result<List<Cond>, NoMemory>
    requires { AreSmall values.now }
    ensures { IfOk result (λ cs. cs ≡ map (lowered_condition values.now ids.now) parts.now) }
{
    let mut lowered = List::new(alloc);
    for part in parts {
        lowered.push(lower_condition(alloc, values, ids, part)?)?;
    }
    Ok(lowered)
}

fn lower_filter(
    alloc: Global,
    values: &[i64],
    ids: &[u32],
    filter: &Option<Condition>,
) -> Result<Option<Cond>, NoMemory>
    requires { AreSmall values.now }
    ensures { IfOk result (λ o. o ≡ option_map (lowered_condition values.now ids.now) filter.now) }
{
    match filter {
        None => Ok(None),
        Some(condition) => Ok(Some(lower_condition(alloc, values, ids, condition)?)),
    }
}

fn lower_sets(
    alloc: Global,
    values: &[i64],
    ids: &[u32],
    sets: &Several<Assign>,
) -> Result<List<(u32, Expr)>, NoMemory>
    requires { AreSmall values.now }
    ensures { IfOk result (λ s. s ≡ lowered_several (lowered_assign values.now ids.now) sets.now) }
{
    let mut lowered = List::new(alloc);
    let first = lower_side(alloc, values, ids, &sets.first.value)?;
    lowered.push((sets.first.column, first))?;
    for set in sets.others.as_slice() {
        lowered.push((set.column, lower_side(alloc, values, ids, &set.value)?))?;
    }
    Ok(lowered)
}

fn lower_tuples(
    alloc: Global,
    ids: &[u32],
    tuples: &Several<Several<Item>>,
) -> Result<List<List<Expr>>, NoMemory>
    ensures { IfOk result (λ ts. ts ≡ lowered_several (lowered_several (lowered_item ids.now)) tuples.now) }
{
    let mut lowered = List::new(alloc);
    lowered.push(lower_items(alloc, ids, &tuples.first)?)?;
    for tuple in tuples.others.as_slice() {
        lowered.push(lower_items(alloc, ids, tuple)?)?;
    }
    Ok(lowered)
}

fn lower_columns(alloc: Global, columns: &Option<Several<u32>>) -> Result<List<u32>, NoMemory>
    ensures { IfOk result (λ cs. cs ≡ lowered_columns columns.now) }
{
    let mut lowered = List::new(alloc);
    if let Some(names) = columns {
        lowered.push(names.first)?;
        lowered.extend(names.others.as_slice())?;
    }
    Ok(lowered)
}

fn lower_form(
    alloc: Global,
    values: &[i64],
    ids: &[u32],
    form: &Form,
) -> Result<Statement, NoMemory>
    requires { AreSmall values.now }
    ensures { IfOk result (λ s. s ≡ lowered_form values.now ids.now form.now) }
{
    match form {
        Form::Update(_, sets, filter) => Ok(Statement::Update {
            sets: lower_sets(alloc, values, ids, sets)?,
            filter: lower_filter(alloc, values, ids, filter)?,
        }),
        Form::Delete(_, filter) => Ok(Statement::Delete {
            filter: lower_filter(alloc, values, ids, filter)?,
        }),
        Form::Insert(_, columns, tuples) => Ok(Statement::Insert {
            columns: lower_columns(alloc, columns)?,
            tuples: lower_tuples(alloc, ids, tuples)?,
        }),
    }
}

/// The statements over the log's own columns and codes: `values` are the log's numbers by their places, `ids` their numbers
/// as parameters.
pub(crate) fn lower(
    alloc: Global,
    values: &[i64],
    ids: &[u32],
    stated: &[Stated],
) -> Result<List<Statement>, NoMemory>
    requires { AreSmall values.now }
    ensures { IfOk result (λ s. s ≡ map (λ one. lowered_form values.now ids.now one.form) stated.now) }
{
    let mut lowered = List::new(alloc);
    for one in stated {
        lowered.push(lower_form(alloc, values, ids, &one.form)?)?;
    }
    Ok(lowered)
}
