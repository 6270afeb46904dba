// A row's own history.

ghost use Rattle.std.specs.Prelude.{◌≡◌, ◌+◌, ◌<◌, true, length, drop};
ghost use Rattle.qf_ir.specs.Replay.{with_sets};
ghost use Rattle.qf_ir.specs.Life.{first_moment, next_moment, last_moment, ending};
ghost use Rattle.qf_ir.specs.Fits.{SetsFit, StatementFits, LifeFits};
ghost use Rattle.qf_replay.specs.Rows.{ended, taken};

use crate::value::{cell_value, is_met};
use qf_base::Point;
use qf_ir::{Cell, Expr, Statement};

// Works out the set cells from those before, each in its column of `fresh`.
fn work_out(sets: &[(u32, Expr)], before: &[Cell], point: &Point, fresh: &mut [Cell])
    requires { SetsFit sets.now before.now point.now }
    ensures { fresh.new ≡ with_sets sets.now before.now point.now fresh.old }
{
    for set in sets {
        let cell = cell_value(&set.1, before, point);
        let column = set.0 as usize;
        if column < fresh.len() {
            fresh[column] = cell;
        }
    }
}

// Takes the set cells over from `fresh`.
fn take_over(sets: &[(u32, Expr)], fresh: &[Cell], cells: &mut [Cell])
    requires { length fresh.now ≡ length cells.old }
    ensures { cells.new ≡ taken sets.now fresh.now cells.old }
{
    for set in sets {
        let column = set.0 as usize;
        if column < cells.len() {
            cells[column] = fresh[column];
        }
    }
}

fn set_cells(sets: &[(u32, Expr)], cells: &mut [Cell], fresh: &mut [Cell], point: &Point)
    requires fits { SetsFit sets.now cells.old point.now }
    requires room { length fresh.old ≡ length cells.old }
    ensures { cells.new ≡ with_sets sets.now cells.old point.now cells.old }
{
    work_out(sets, cells, point, fresh);
    take_over(sets, fresh, cells);
}

// Takes the cells over a statement, and says whether the row lives on.
fn lives_on(statement: &Statement, cells: &mut [Cell], fresh: &mut [Cell], point: &Point) -> bool
    requires fits { StatementFits statement.now cells.old point.now }
    requires room { length fresh.old ≡ length cells.old }
    ensures cells { cells.new ≡ (next_moment point.now statement.now (first_moment cells.old)).cells }
    ensures live { result ≡ (next_moment point.now statement.now (first_moment cells.old)).live }
{
    match statement {
        Statement::Update { sets, filter } => {
            if is_met(filter, cells, point) {
                set_cells(sets.as_slice(), cells, fresh, point);
            }
            true
        }
        Statement::Delete { filter } => !is_met(filter, cells, point),
        Statement::Insert { .. } => true,
    }
}

// Takes the cells of a living row through the statements, up to the one that deletes it, and says whether it lives at the
// end. `fresh` is room for as many cells.
pub fn plays(
    statements: &[Statement],
    cells: &mut [Cell],
    fresh: &mut [Cell],
    point: &Point,
) -> bool
    requires fits { LifeFits statements.now (first_moment cells.old) point.now }
    requires room { length fresh.old ≡ length cells.old }
    ensures { ended result cells.new ≡ ending (last_moment point.now statements.now (first_moment cells.old)) }
{
    for statement in statements {
        if !lives_on(statement, cells, fresh, point) {
            return false;
        }
    }
    true
}

// What comes after a statement.
pub fn after(statements: &[Statement], i: usize) -> &[Statement]
    requires { i < length statements.now }
    ensures { result.now ≡ drop (i + 1) statements.now }
{
    &statements[i + 1..]
}
