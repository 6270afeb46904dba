ghost use Rattle.std.specs.Prelude.{◌≡◌, length, slice_get};
ghost use Rattle.std.specs.List.{list_all, list_any, range_with_len};
ghost use Rattle.qf_ir.specs.Checked as spec;
ghost use Rattle.qf_ir.specs.Parts.{exprs_in, comparisons_in};

use crate::ast::{Atom, Cond, Expr, Op, Term};
use crate::table::ColumnKind;

fn is_int_kind(kind: Option<ColumnKind>) -> bool
    ensures { result ≡ spec.is_int_kind kind }
{
    match kind {
        None => false,
        Some(ColumnKind::Int) => true,
        Some(ColumnKind::Text) => false,
    }
}

fn is_text_kind(kind: Option<ColumnKind>) -> bool
    ensures { result ≡ spec.is_text_kind kind }
{
    match kind {
        None => false,
        Some(ColumnKind::Int) => false,
        Some(ColumnKind::Text) => true,
    }
}

fn kind_of(kinds: &[ColumnKind], column: u32) -> Option<ColumnKind>
    ensures { result ≡ slice_get kinds.now column }
{
    kinds.get(column as usize).copied()
}

fn is_number(kinds: &[ColumnKind], atom: Atom) -> bool
    ensures { result ≡ spec.is_number kinds.now atom }
{
    match atom {
        Atom::Column(column) => is_int_kind(kind_of(kinds, column)),
        Atom::Param(_) => true,
    }
}

fn is_text_column(kinds: &[ColumnKind], atom: Atom) -> bool
    ensures { result ≡ spec.is_text_column kinds.now atom }
{
    match atom {
        Atom::Column(column) => is_text_kind(kind_of(kinds, column)),
        Atom::Param(_) => false,
    }
}

fn are_numbers(kinds: &[ColumnKind], terms: &[Term]) -> bool
    ensures { result ≡ list_all (λ t. spec.is_number kinds.now t.atom) terms.now }
{
    for term in terms {
        if !is_number(kinds, term.atom) {
            return false;
        }
    }
    true
}

fn is_int(kinds: &[ColumnKind], expr: &Expr) -> bool
    ensures { result ≡ spec.is_int kinds.now expr.now }
{
    match expr {
        Expr::Sum(terms) => are_numbers(kinds, terms.as_slice()),
        Expr::Word(_) => false,
    }
}

fn is_text_sum(kinds: &[ColumnKind], terms: &[Term]) -> bool
    ensures { result ≡ spec.is_text kinds.now (Expr.Sum terms.now) }
{
    match terms {
        [term] => term.factor == 1 && is_text_column(kinds, term.atom),
        _ => false,
    }
}

fn is_text(kinds: &[ColumnKind], expr: &Expr) -> bool
    ensures { result ≡ spec.is_text kinds.now expr.now }
{
    match expr {
        Expr::Sum(terms) => is_text_sum(kinds, terms.as_slice()),
        Expr::Word(_) => true,
    }
}

fn are_ints(kinds: &[ColumnKind], exprs: &[Expr]) -> bool
    ensures { result ≡ list_all (spec.is_int kinds.now) exprs.now }
{
    for expr in exprs {
        if !is_int(kinds, expr) {
            return false;
        }
    }
    true
}

fn are_texts(kinds: &[ColumnKind], exprs: &[Expr]) -> bool
    ensures { result ≡ list_all (spec.is_text kinds.now) exprs.now }
{
    for expr in exprs {
        if !is_text(kinds, expr) {
            return false;
        }
    }
    true
}

fn is_equality(op: Op) -> bool
    ensures { result ≡ spec.is_equality op }
{
    match op {
        Op::Eq | Op::Ne => true,
        Op::Lt | Op::Le | Op::Gt | Op::Ge => false,
    }
}

/// Whether the sides of a test are all ints, or all texts where it takes texts.
pub(crate) fn test_agrees(kinds: &[ColumnKind], test: &Cond) -> bool
    ensures { result ≡ spec.test_agrees kinds.now test.now }
{
    match test {
        Cond::Compare(op, left, right) => {
            (is_int(kinds, left) && is_int(kinds, right))
                || (is_equality(*op) && is_text(kinds, left) && is_text(kinds, right))
        }
        Cond::Between(x, lo, hi) => is_int(kinds, x) && is_int(kinds, lo) && is_int(kinds, hi),
        Cond::Within(x, items) => {
            (is_int(kinds, x) && are_ints(kinds, items.as_slice()))
                || (is_text(kinds, x) && are_texts(kinds, items.as_slice()))
        }
        Cond::All(_) => true,
        Cond::Any(_) => true,
        Cond::Not(_) => true,
    }
}

fn goes_into(kinds: &[ColumnKind], kind: Option<ColumnKind>, expr: &Expr) -> bool
    ensures { result ≡ spec.goes_into kinds.now kind expr.now }
{
    match kind {
        None => false,
        Some(ColumnKind::Int) => is_int(kinds, expr),
        Some(ColumnKind::Text) => is_text(kinds, expr),
    }
}

/// Whether an expression is of a column's kind.
pub(crate) fn set_agrees(kinds: &[ColumnKind], column: u32, expr: &Expr) -> bool
    ensures { result ≡ spec.set_agrees kinds.now (column, expr.now) }
{
    goes_into(kinds, kind_of(kinds, column), expr)
}

/// Whether each item of a tuple is of its column's kind, where both are there.
pub(crate) fn tuple_agrees(kinds: &[ColumnKind], columns: &[u32], tuple: &[Expr]) -> bool
    ensures { result ≡ spec.tuple_agrees kinds.now columns.now tuple.now }
{
    for (place, column) in columns.iter().enumerate() {
        if place >= tuple.len() {
            return true;
        }
        if !set_agrees(kinds, *column, &tuple[place]) {
            return false;
        }
    }
    true
}
