// The rows that INSERT makes.

ghost use Rattle.std.specs.Prelude.{◌≡◌, ◌<◌, [], length, slice_index_or};
ghost use Rattle.qf_ir.specs.Replay as spec;
ghost use Rattle.qf_ir.specs.Fits.{TupleFits};
ghost use Rattle.qf_ir.specs.Value.{cell_value};

use crate::value::cell_value;
use qf_base::Point;
use qf_ir::{Cell, Expr};

fn place_of(columns: &[u32], column: u32) -> usize
    ensures { result ≡ spec.place_of columns.now column }
{
    if columns.is_empty() {
        column as usize
    } else {
        place_from(columns, column)
    }
}

fn place_from(columns: &[u32], column: u32) -> usize
    ensures { result ≡ spec.place_from columns.now column }
{
    for (i, c) in columns.iter().enumerate() {
        if *c == column {
            return i;
        }
    }
    columns.len()
}

fn inserted_cell(columns: &[u32], tuple: &[Expr], point: &Point, column: u32) -> Cell
    requires { TupleFits tuple.now point.now }
    ensures { result ≡ spec.inserted_cell columns.now tuple.now point.now column }
{
    let place = place_of(columns, column);
    if place < tuple.len() {
        item_cell(tuple, place, point)
    } else {
        Cell::Text(0)
    }
}

fn item_cell(tuple: &[Expr], place: usize, point: &Point) -> Cell
    requires fits { TupleFits tuple.now point.now }
    requires within { place < length tuple.now }
    ensures { result ≡ cell_value (slice_index_or tuple.now place (Expr.Word 0)) [] point.now }
{
    cell_value(&tuple[place], &[], point)
}

// Makes the cells those of a tuple's row.
pub fn insert_cells(width: u32, columns: &[u32], tuple: &[Expr], point: &Point, cells: &mut [Cell])
    requires fits { TupleFits tuple.now point.now }
    requires width { length cells.old ≡ width }
    ensures { cells.new ≡ spec.inserted_cells width columns.now tuple.now point.now }
{
    for column in 0..width {
        cells[column as usize] = inserted_cell(columns, tuple, point, column);
    }
}
