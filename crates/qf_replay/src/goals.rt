// Whether a row meets its goal.

ghost use Rattle.std.specs.Prelude.{◌≡◌};
ghost use Rattle.qf_ir.specs.Repairs as spec;
ghost use Rattle.qf_replay.specs.Rows.{ended};

use qf_ir::{Cell, Goal};

fn meets_cell(cell: Cell, wanted: Option<Cell>) -> bool
    ensures { result ≡ spec.meets_cell cell wanted }
{
    match wanted {
        None => true,
        Some(wanted) => same_cell(cell, wanted),
    }
}

fn same_cell(left: Cell, right: Cell) -> bool
    ensures { result ≡ spec.same_cell left right }
{
    match (left, right) {
        (Cell::Int(left), Cell::Int(right)) => left == right,
        (Cell::Int(_), Cell::Text(_)) => false,
        (Cell::Text(_), Cell::Int(_)) => false,
        (Cell::Text(left), Cell::Text(right)) => left == right,
    }
}

fn meet_cells(cells: &[Cell], wanted: &[Option<Cell>]) -> bool
    ensures { result ≡ spec.meet_cells cells.now wanted.now }
{
    if wanted.len() != cells.len() {
        return false;
    }
    for (i, cell) in cells.iter().enumerate() {
        if !meets_cell(*cell, wanted[i]) {
            return false;
        }
    }
    true
}

// Whether a row with these cells at the end, where it lives, meets the goal.
pub fn meets(live: bool, cells: &[Cell], goal: &Goal) -> bool
    ensures { result ≡ spec.meets (ended live cells.now) goal.now }
{
    match goal {
        Goal::Gone => !live,
        Goal::There(wanted) => live && meet_cells(cells, wanted.as_slice()),
    }
}
