ghost use Rattle.std.specs.Prelude.{◌≡◌, map, IfOk};
ghost use Rattle.qf_ir.specs.Numbered as spec;

use crate::ast::{Atom, Cond, Expr, Statement, Term};
use crate::making::numbering::Numbering;
use crate::terms::Terms;
use qf_base::{Boxed, List, NoMemory};
use std::alloc::Global;

fn term(numbering: &Numbering, term: &Term) -> Term
    ensures { result ≡ spec.numbered_term numbering.now term.now }
{
    match term.atom {
        Atom::Column(place) => Term {
            factor: term.factor,
            atom: Atom::Column(numbering.column(place)),
        },
        Atom::Param(_) => *term,
    }
}

fn terms(alloc: Global, numbering: &Numbering, terms: &[Term]) -> Result<Terms, NoMemory>
    ensures { IfOk result (λ made. made ≡ map (spec.numbered_term numbering.now) terms.now) }
{
    let mut made = Terms::new(alloc);
    for old in terms {
        made.push(term(numbering, old))?;
    }
    Ok(made)
}

fn expr(alloc: Global, numbering: &Numbering, expr: &Expr) -> Result<Expr, NoMemory>
    ensures { IfOk result (λ made. made ≡ spec.numbered_expr numbering.now expr.now) }
{
    match expr {
        Expr::Sum(old) => Ok(Expr::Sum(terms(alloc, numbering, old.as_slice())?)),
        Expr::Word(place) => Ok(Expr::Word(numbering.code(*place))),
    }
}

fn exprs(alloc: Global, numbering: &Numbering, exprs: &[Expr]) -> Result<List<Expr>, NoMemory>
    ensures { IfOk result (λ made. made ≡ spec.numbered_exprs numbering.now exprs.now) }
{
    let mut made = List::new(alloc);
    for old in exprs {
        made.push(expr(alloc, numbering, old)?)?;
    }
    Ok(made)
}

#[cycle(renumber)]
fn cond(alloc: Global, numbering: &Numbering, cond: &Cond) -> Result<Cond, NoMemory>
    ensures { IfOk result (λ made. made ≡ spec.numbered_cond numbering.now cond.now) }
{
    match cond {
        Cond::Compare(op, left, right) => Ok(Cond::Compare(
            *op,
            expr(alloc, numbering, left)?,
            expr(alloc, numbering, right)?,
        )),
        Cond::Between(x, lo, hi) => Ok(Cond::Between(
            expr(alloc, numbering, x)?,
            expr(alloc, numbering, lo)?,
            expr(alloc, numbering, hi)?,
        )),
        Cond::Within(x, items) => Ok(Cond::Within(
            expr(alloc, numbering, x)?,
            exprs(alloc, numbering, items.as_slice())?,
        )),
        Cond::All(parts) => Ok(Cond::All(conds(alloc, numbering, parts.as_slice())?)),
        Cond::Any(parts) => Ok(Cond::Any(conds(alloc, numbering, parts.as_slice())?)),
        Cond::Not(part) => Ok(Cond::Not(one(alloc, numbering, part.get())?)),
    }
}

#[cycle(renumber)]
fn one(alloc: Global, numbering: &Numbering, part: &Cond) -> Result<Boxed<Cond>, NoMemory>
    ensures { IfOk result (λ made. made ≡ spec.numbered_cond numbering.now part.now) }
{
    Ok(Boxed::new(alloc, cond(alloc, numbering, part)?)?)
}

#[cycle(renumber)]
fn conds(alloc: Global, numbering: &Numbering, conds: &[Cond]) -> Result<List<Cond>, NoMemory>
    ensures { IfOk result (λ made. made ≡ map (spec.numbered_cond numbering.now) conds.now) }
{
    let mut made = List::new(alloc);
    for old in conds {
        made.push(cond(alloc, numbering, old)?)?;
    }
    Ok(made)
}

fn filter(
    alloc: Global,
    numbering: &Numbering,
    filter: &Option<Cond>,
) -> Result<Option<Cond>, NoMemory>
    ensures { IfOk result (λ made. made ≡ spec.numbered_where numbering.now filter.now) }
{
    match filter {
        None => Ok(None),
        Some(old) => Ok(Some(cond(alloc, numbering, old)?)),
    }
}

fn sets(
    alloc: Global,
    numbering: &Numbering,
    sets: &[(u32, Expr)],
) -> Result<List<(u32, Expr)>, NoMemory>
    ensures { IfOk result (λ made. made ≡ map (spec.numbered_set numbering.now) sets.now) }
{
    let mut made = List::new(alloc);
    for set in sets {
        made.push((numbering.column(set.0), expr(alloc, numbering, &set.1)?))?;
    }
    Ok(made)
}

fn columns(alloc: Global, numbering: &Numbering, places: &[u32]) -> Result<List<u32>, NoMemory>
    ensures { IfOk result (λ made. made ≡ map (spec.found_at numbering.now.columns) places.now) }
{
    let mut made = List::new(alloc);
    for place in places {
        made.push(numbering.column(*place))?;
    }
    Ok(made)
}

fn tuples(
    alloc: Global,
    numbering: &Numbering,
    tuples: &[List<Expr>],
) -> Result<List<List<Expr>>, NoMemory>
    ensures { IfOk result (λ made. made ≡ map (spec.numbered_exprs numbering.now) tuples.now) }
{
    let mut made = List::new(alloc);
    for tuple in tuples {
        made.push(exprs(alloc, numbering, tuple.as_slice())?)?;
    }
    Ok(made)
}

fn statement(
    alloc: Global,
    numbering: &Numbering,
    statement: &Statement,
) -> Result<Statement, NoMemory>
    ensures { IfOk result (λ made. made ≡ spec.numbered_statement numbering.now statement.now) }
{
    match statement {
        Statement::Update {
            sets: old,
            filter: place,
        } => Ok(Statement::Update {
            sets: sets(alloc, numbering, old.as_slice())?,
            filter: filter(alloc, numbering, place)?,
        }),
        Statement::Delete { filter: place } => Ok(Statement::Delete {
            filter: filter(alloc, numbering, place)?,
        }),
        Statement::Insert {
            columns: list,
            tuples: old,
        } => Ok(Statement::Insert {
            columns: columns(alloc, numbering, list.as_slice())?,
            tuples: tuples(alloc, numbering, old.as_slice())?,
        }),
    }
}

/// The statements with the program's columns and codes.
pub(crate) fn renumbered(
    alloc: Global,
    numbering: &Numbering,
    statements: &[Statement],
) -> Result<List<Statement>, NoMemory>
    ensures { IfOk result (λ made. made ≡ map (spec.numbered_statement numbering.now) statements.now) }
{
    let mut made = List::new(alloc);
    for old in statements {
        made.push(statement(alloc, numbering, old)?)?;
    }
    Ok(made)
}
