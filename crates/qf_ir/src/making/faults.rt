ghost use Rattle.std.specs.Prelude.{◌≡◌, ◌+◌, ◌==◌, ◌<◌, ◌≤◌, ◌||◌, nat_lt, true, [], length, map, IfOk};
ghost use Rattle.std.specs.List.{list_all, list_any, range_with_len};
ghost use Rattle.qf_ir.specs.Checked as spec;
ghost use Rattle.qf_ir.specs.Parts.{targets_of, statement_params, exprs_of, statement_tests};
ghost use Rattle.qf_ir.specs.Tables.{kinds_of};
ghost use Rattle.qf_ir.specs.Tallies.{capped, tally_of};
ghost use Rattle.qf_ir.specs.Steps.{are_too_many, tallied_fault, with_statement, Steps, Passes};

use crate::ast::{Expr, Statement};
use crate::column_set::ColumnSet;
use crate::fault::IrFault;
use crate::making::tally::{Tally, listed};
use crate::table::{Column, ColumnKind, Table};
use qf_base::{List, NoMemory};
use std::alloc::Global;

/// The kinds of the columns.
pub(crate) fn kinds_of(alloc: Global, columns: &[Column]) -> Result<List<ColumnKind>, NoMemory>
    ensures { IfOk result (λ kinds. kinds ≡ kinds_of columns.now) }
{
    let mut kinds = List::new(alloc);
    for column in columns {
        kinds.push(column.kind)?;
    }
    Ok(kinds)
}

/// The numbers of so many columns in order.
pub(crate) fn all_columns(alloc: Global, width: u32) -> Result<List<u32>, NoMemory>
    ensures { IfOk result (λ all. all ≡ range_with_len 0 width) }
{
    let mut all = List::new(alloc);
    for column in 0..width {
        all.push(column)?;
    }
    Ok(all)
}

fn sets_repeat(sets: &[(u32, Expr)]) -> bool
    requires { list_all (spec.is_column 32) (map (λ s. s.0) sets.now) ≡ true }
    ensures { result ≡ spec.repeats (map (λ s. s.0) sets.now) }
{
    let mut seen = ColumnSet::new();
    for set in sets {
        if seen.has(set.0) {
            return true;
        }
        seen.add(set.0);
    }
    false
}

fn columns_repeat(columns: &[u32]) -> bool
    requires { list_all (spec.is_column 32) columns.now ≡ true }
    ensures { result ≡ spec.repeats columns.now }
{
    let mut seen = ColumnSet::new();
    for column in columns {
        if seen.has(*column) {
            return true;
        }
        seen.add(*column);
    }
    false
}

fn repeats(statement: &Statement) -> bool
    requires { list_all (spec.is_column 32) (targets_of statement.now) ≡ true }
    ensures { result ≡ spec.repeats (targets_of statement.now) }
{
    match statement {
        Statement::Update { sets, .. } => sets_repeat(sets.as_slice()),
        Statement::Delete { .. } => false,
        Statement::Insert { columns, .. } => columns_repeat(columns.as_slice()),
    }
}

fn is_among(columns: &[u32], column: u32) -> bool
    ensures { result ≡ spec.is_among columns.now column }
{
    for other in columns {
        if column == *other {
            return true;
        }
    }
    false
}

fn are_among(columns: &[u32], all: &[u32]) -> bool
    ensures { result ≡ list_all (spec.is_among columns.now) all.now }
{
    for column in all {
        if !is_among(columns, *column) {
            return false;
        }
    }
    true
}

fn have_length(tuples: &[List<Expr>], len: u64) -> bool
    ensures { result ≡ list_all (λ tuple. length tuple == len) tuples.now }
{
    for tuple in tuples {
        if tuple.len() != len {
            return false;
        }
    }
    true
}

fn leaves_out(all: &[u32], statement: &Statement) -> bool
    requires { all.now ≡ range_with_len 0 (length all.now) }
    ensures { result ≡ spec.leaves_out (length all.now) statement.now }
{
    match statement {
        Statement::Update { .. } => false,
        Statement::Delete { .. } => false,
        Statement::Insert { columns, tuples } => {
            let columns = listed(all.len(), all, columns.as_slice());
            !are_among(columns, all) || !have_length(tuples.as_slice(), columns.len() as u64)
        }
    }
}

fn rows_of(statement: &Statement) -> u64
    ensures { result ≡ spec.rows_of statement.now }
{
    match statement {
        Statement::Update { .. } => 0,
        Statement::Delete { .. } => 0,
        Statement::Insert { tuples, .. } => tuples.len(),
    }
}

/// How far the statements before have come: how many they are, how many parameters they have, and how many rows there
/// are with those that they insert.
#[derive(Clone, Copy)]
pub(crate) struct Progress {
    pub(crate) number: u32,
    pub(crate) params: u64,
    pub(crate) rows: u64,
}

// What is past a limit stays past it.
fn is_too_many(progress: Progress, tally: Tally) -> bool
    ensures { result ≡ are_too_many progress tally }
{
    progress.number > 1000
        || progress.params > 4096
        || progress.rows > 200_000
        || tally.long
        || tally.comparisons > 64
}

// The fault of a statement, by its tally and the counts up to it.
fn fault_of(all: &[u32], progress: Progress, tally: Tally, statement: &Statement) -> Option<IrFault>
    requires columns { tally.known ≡ true → list_all (spec.is_column 32) (targets_of statement.now) ≡ true }
    requires all { all.now ≡ range_with_len 0 (length all.now) }
    ensures { result ≡ tallied_fault (length all.now) progress tally statement.now }
{
    let number = progress.number;
    if !tally.known {
        Some(IrFault::UnknownColumn(number))
    } else if !tally.agrees {
        Some(IrFault::WrongType(number))
    } else if repeats(statement) {
        Some(IrFault::RepeatedColumn(number))
    } else if leaves_out(all, statement) {
        Some(IrFault::MissingColumn(number))
    } else if is_too_many(progress, tally) {
        Some(IrFault::TooMany(number))
    } else {
        None
    }
}

// The counts with those of a statement.
fn advanced(progress: Progress, tally: Tally, statement: &Statement) -> Progress
    requires { progress.number ≤ 1000 }
    ensures { result ≡ with_statement progress tally statement.now }
{
    Progress {
        number: progress.number + 1,
        params: progress.params.saturating_add(tally.params),
        rows: progress.rows.saturating_add(rows_of(statement)),
    }
}

// The counts after a statement, or its fault.
fn step(
    kinds: &[ColumnKind],
    all: &[u32],
    progress: Progress,
    statement: &Statement,
) -> Result<Progress, IrFault>
    requires width { length kinds.now ≤ 32 }
    requires all { all.now ≡ range_with_len 0 (length kinds.now) }
    requires number { progress.number ≤ 1000 }
    requires params { progress.params ≤ 4096 }
    requires rows { progress.rows ≤ 200000 }
    ensures { Steps kinds.now progress statement.now result }
{
    let tally = Tally::of(kinds, all, statement);
    let next = advanced(progress, tally, statement);
    match fault_of(all, next, tally, statement) {
        Some(fault) => Err(fault),
        None => Ok(next),
    }
}

fn walk(
    kinds: &[ColumnKind],
    all: &[u32],
    starts: u64,
    statements: &[Statement],
) -> Result<u32, IrFault>
    requires width { length kinds.now ≤ 32 }
    requires all { all.now ≡ range_with_len 0 (length kinds.now) }
    requires rows { starts ≤ 200000 }
    ensures { Passes kinds.now starts statements.now result }
{
    let mut progress = Progress {
        number: 0,
        params: 0,
        rows: starts,
    };
    for statement in statements {
        match step(kinds, all, progress, statement) {
            Ok(next) => progress = next,
            Err(fault) => return Err(fault),
        }
    }
    Ok((progress.rows - starts) as u32)
}

/// How many rows the statements insert, whose columns are the table's, or their first fault.
pub(crate) fn check(alloc: Global, table: &Table, statements: &[Statement]) -> Result<u32, IrFault>
    requires columns { length table.now.columns ≤ 32 }
    requires rows { length table.now.rows ≤ 200000 }
    ensures { Passes (kinds_of table.now.columns) (length table.now.rows) statements.now result }
{
    let columns = table.columns.as_slice();
    let kinds = kinds_of(alloc, columns)?;
    let all = all_columns(alloc, columns.len() as u32)?;
    walk(
        kinds.as_slice(),
        all.as_slice(),
        table.rows.len(),
        statements,
    )
}
