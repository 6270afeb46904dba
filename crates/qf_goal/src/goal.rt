// What a row has to become.

ghost use Rattle.std.specs.Prelude.{◌≡◌, IfOk, map, Some};
ghost use Rattle.std.specs.Option.{option_copied};
ghost use Rattle.qf_ir.specs.Goals as asked;

use crate::seeds::cell_at;
use qf_base::{List, NoMemory};
use qf_ir::{Ask, Cell, Goal, Outcome};
use std::alloc::Global;

// An unlisted cell is as it was, or free where the row was gone.
fn old_cell(old: &Outcome, column: u32) -> Option<Cell>
    ensures { result ≡ asked.old_cell old.now column }
{
    match old {
        Outcome::Gone => None,
        Outcome::There(cells) => Some(cell_at(cells.as_slice(), column)),
    }
}

fn listed_or(listed: &[(u32, Cell)], column: u32, other: Option<Cell>) -> Option<Cell>
    ensures { result ≡ asked.listed_or listed.now column other }
{
    for (place, cell) in listed {
        if *place == column {
            return Some(*cell);
        }
    }
    other
}

fn asked_cells(
    alloc: Global,
    width: u32,
    listed: &[(u32, Cell)],
    old: &Outcome,
) -> Result<List<Option<Cell>>, NoMemory>
    ensures { IfOk result (λ wanted. wanted ≡ asked.asked_cells 0 width listed.now old.now) }
{
    let mut wanted = List::new(alloc);
    for column in 0..width {
        wanted.push(listed_or(listed, column, old_cell(old, column)))?;
    }
    Ok(wanted)
}

fn kept_cells(alloc: Global, old: &[Cell]) -> Result<List<Option<Cell>>, NoMemory>
    ensures { IfOk result (λ wanted. wanted ≡ map (λ cell. Some cell) old.now) }
{
    let mut wanted = List::new(alloc);
    for cell in old {
        wanted.push(Some(*cell))?;
    }
    Ok(wanted)
}

fn kept(alloc: Global, old: &Outcome) -> Result<Goal, NoMemory>
    ensures { IfOk result (λ goal. goal ≡ asked.kept old.now) }
{
    match old {
        Outcome::Gone => Ok(Goal::Gone),
        Outcome::There(cells) => Ok(Goal::There(kept_cells(alloc, cells.as_slice())?)),
    }
}

/// What a row has to become, by what is asked of it and its old outcome.
pub(crate) fn goal_of(
    alloc: Global,
    width: u32,
    ask: Option<&Ask>,
    old: &Outcome,
) -> Result<Goal, NoMemory>
    ensures { IfOk result (λ goal. goal ≡ asked.goal_of width (option_copied ask.entry) old.now) }
{
    match ask {
        None => kept(alloc, old),
        Some(Ask::Absent) => Ok(Goal::Gone),
        Some(Ask::Present(listed)) => {
            Ok(Goal::There(asked_cells(alloc, width, listed.as_slice(), old)?))
        }
    }
}
