// What a statement does to the sets of all parameters at once.

ghost use Rattle.std.specs.Prelude.{◌≡◌, ◌+◌, ◌<◌, not, ◌&&◌, ◌||◌, length, OnOk};
ghost use Rattle.std.specs.List.{list_any, AllByRecursion};
ghost use Rattle.qf_ir.specs.Replay as replay;
ghost use Rattle.qf_ir.specs.ColumnSets.{has};
ghost use Rattle.qf_ir.specs.Flow.{Place, same_place};
ghost use Rattle.qf_ir.specs.Flow.{At, Live};
ghost use Rattle.qf_impact.specs.Steps.{carries, is_cleared, has_item, flows};
ghost use Rattle.qf_impact.specs.Sets.{set_at, Changed, IsWithin};

use crate::atoms::{gather_expr, gather_filter};
use crate::sets::{clear, columns_set, enter, only_column, only_live, spread};
use qf_base::{List, NoMemory};
use qf_ir::{Atom, ColumnSet, Cond, Expr, Statement};
use std::alloc::Global;

// Takes out what is set without WHERE.
fn clear_sets(assignments: &[(u32, Expr)], filter: &Option<Cond>, sets: &mut [ColumnSet])
    requires { AllByRecursion (λ s. s.0 < 32) assignments.now }
    ensures { Changed (λ i reach place. reach place && not (is_cleared assignments.now filter.now place)) sets.old sets.new }
{
    match filter {
        None => clear(columns_set(assignments), sets),
        Some(_) => {}
    }
}

// Adds what is set from what a parameter touches.
fn spread_sets(
    alloc: Global,
    first: u32,
    assignments: &[(u32, Expr)],
    filter: &[Atom],
    before: &[ColumnSet],
    sets: &mut [ColumnSet],
) -> Result<(), NoMemory>
    requires within { AllByRecursion (λ s. s.0 < 32) assignments.now }
    requires before { length before.now ≡ length sets.old }
    ensures { OnOk result (Changed (λ i reach place. reach place || list_any (carries (first + i) (has (set_at before.now i)) filter.now place) assignments.now) sets.old sets.new) }
{
    let mut atoms = Vec::new(alloc);
    for assignment in assignments {
        atoms.clear();
        gather_expr(&assignment.1, &mut atoms)?;
        atoms.extend_from_slice(filter)?;
        spread(
            first,
            atoms.as_slice(),
            only_column(assignment.0),
            before,
            sets,
        );
    }
    Ok(())
}

fn update(
    alloc: Global,
    first: u32,
    assignments: &[(u32, Expr)],
    filter: &Option<Cond>,
    room: &mut [ColumnSet],
    sets: &mut [ColumnSet],
) -> Result<(), NoMemory>
    requires within { AllByRecursion (λ s. s.0 < 32) assignments.now }
    requires room { length room.old ≡ length sets.old }
    ensures { OnOk result (Changed (λ i reach place. flows (first + i) (Statement.Update assignments.now filter.now) reach place) sets.old sets.new) }
{
    let mut atoms = Vec::new(alloc);
    gather_filter(filter, &mut atoms)?;
    room.copy_from_slice(sets);
    clear_sets(assignments, filter, sets);
    spread_sets(alloc, first, assignments, atoms.as_slice(), room, sets)
}

fn delete(
    alloc: Global,
    first: u32,
    filter: &Option<Cond>,
    room: &mut [ColumnSet],
    sets: &mut [ColumnSet],
) -> Result<(), NoMemory>
    requires { length room.old ≡ length sets.old }
    ensures { OnOk result (Changed (λ i reach place. flows (first + i) (Statement.Delete filter.now) reach place) sets.old sets.new) }
{
    let mut atoms = Vec::new(alloc);
    gather_filter(filter, &mut atoms)?;
    room.copy_from_slice(sets);
    spread(first, atoms.as_slice(), only_live(), room, sets);
    Ok(())
}

fn place_of(columns: &[u32], column: u32) -> usize
    ensures { result ≡ replay.place_of columns.now column }
{
    if columns.is_empty() {
        column as usize
    } else {
        place_from(columns, column)
    }
}

fn place_from(columns: &[u32], column: u32) -> usize
    ensures { result ≡ replay.place_from columns.now column }
{
    for (i, c) in columns.iter().enumerate() {
        if *c == column {
            return i;
        }
    }
    columns.len()
}

// Adds the column to the set of each parameter that is the item at this place of a tuple.
fn enter_items(
    alloc: Global,
    first: u32,
    place: usize,
    column: u32,
    tuples: &[List<Expr>],
    sets: &mut [ColumnSet],
) -> Result<(), NoMemory>
    requires { column < 32 }
    ensures { OnOk result (Changed (λ i reach at. reach at || (same_place at (At column) && has_item (first + i) place tuples.now)) sets.old sets.new) }
{
    let mut atoms = Vec::new(alloc);
    for tuple in tuples {
        let tuple = tuple.as_slice();
        if place < tuple.len() {
            atoms.clear();
            gather_expr(&tuple[place], &mut atoms)?;
            enter(first, atoms.as_slice(), only_column(column), sets);
        }
    }
    Ok(())
}

fn insert(
    alloc: Global,
    first: u32,
    columns: &[u32],
    tuples: &[List<Expr>],
    sets: &mut [ColumnSet],
) -> Result<(), NoMemory>
    requires { IsWithin (Statement.Insert columns.now tuples.now) }
    ensures { OnOk result (Changed (λ i reach place. flows (first + i) (Statement.Insert columns.now tuples.now) reach place) sets.old sets.new) }
{
    for column in 0..32 {
        enter_items(
            alloc,
            first,
            place_of(columns, column),
            column,
            tuples,
            sets,
        )?;
    }
    Ok(())
}

// Takes the sets over a statement, with room for them in `room`. They are of the parameters from the first on.
pub fn advance(
    alloc: Global,
    first: u32,
    statement: &Statement,
    room: &mut [ColumnSet],
    sets: &mut [ColumnSet],
) -> Result<(), NoMemory>
    requires within { IsWithin statement.now }
    requires room { length room.old ≡ length sets.old }
    ensures { OnOk result (Changed (λ i reach place. flows (first + i) statement.now reach place) sets.old sets.new) }
{
    match statement {
        Statement::Update {
            sets: assignments,
            filter,
        } => { update(alloc, first, assignments.as_slice(), filter, room, sets) }
        Statement::Delete { filter } => delete(alloc, first, filter, room, sets),
        Statement::Insert { columns, tuples } => {
            insert(alloc, first, columns.as_slice(), tuples.as_slice(), sets)
        }
    }
}
