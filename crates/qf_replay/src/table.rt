// All final rows.

ghost use Rattle.std.specs.Prelude.{◌≡◌, ◌+◌, ◌^◌, ◌<◌, ◌++◌, IfOk, OnOk, length};
ghost use Rattle.qf_ir.specs.Plan.{Belongs, FitsAt, RowsAre, final_rows};
ghost use Rattle.qf_ir.specs.Replay.{named_rows, inserted_table, inserted_count};
ghost use Rattle.qf_ir.specs.Life.{first_moment, last_moment, kept_row, survivors, inserted_survivors};
ghost use Rattle.qf_ir.specs.Fits.{LifeFits, LivesFit, TuplesFit, InsertedFit};

use crate::insert::insert_cells;
use crate::room::Room;
use crate::row::{after, plays};
use qf_base::{List, NoMemory, Point, RowName};
use qf_ir::{Cell, Expr, Program, Statement, Table};
use std::alloc::Global;

type Rows = List<(RowName, List<Cell>)>;

// Keeps the row at the end, if it lives.
fn keep(
    alloc: Global,
    rows: &mut Rows,
    name: RowName,
    statements: &[Statement],
    cells: &mut [Cell],
    fresh: &mut [Cell],
    point: &Point,
) -> Result<(), NoMemory>
    requires fits { LifeFits statements.now (first_moment cells.old) point.now }
    requires room { length fresh.old ≡ length cells.old }
    ensures { OnOk result (rows.new ≡ rows.old ++ kept_row name (last_moment point.now statements.now (first_moment cells.old))) }
{
    if plays(statements, cells, fresh, point) {
        let cells = List::from_slice(alloc, cells)?;
        rows.push((name, cells))?;
    }
    Ok(())
}

fn keep_starts(
    alloc: Global,
    rows: &mut Rows,
    statements: &[Statement],
    table: &[List<Cell>],
    point: &Point,
    cells: &mut [Cell],
    fresh: &mut [Cell],
) -> Result<(), NoMemory>
    requires count { length table.now < 2 ^ 32 }
    requires width { RowsAre (length cells.old) table.now }
    requires room { length fresh.old ≡ length cells.old }
    requires fits { LivesFit statements.now table.now point.now }
    ensures { OnOk result (rows.new ≡ rows.old ++ survivors point.now statements.now (named_rows (λ k. RowName.Start k) 0 table.now)) }
{
    for (i, first) in table.iter().enumerate() {
        let name = RowName::Start(i as u32 + 1);
        cells.copy_from_slice(first.as_slice());
        keep(alloc, rows, name, statements, cells, fresh, point)?;
    }
    Ok(())
}

fn keep_tuples(
    alloc: Global,
    rows: &mut Rows,
    width: u32,
    columns: &[u32],
    tuples: &[List<Expr>],
    before: u32,
    rest: &[Statement],
    point: &Point,
    cells: &mut [Cell],
    fresh: &mut [Cell],
) -> Result<(), NoMemory>
    requires count { before + length tuples.now < 2 ^ 32 }
    requires width { length cells.old ≡ width }
    requires room { length fresh.old ≡ length cells.old }
    requires items { TuplesFit tuples.now point.now }
    requires lives { LivesFit rest.now (inserted_table width columns.now tuples.now point.now) point.now }
    ensures { OnOk result (rows.new ≡ rows.old ++ survivors point.now rest.now (named_rows (λ k. RowName.Inserted k) before (inserted_table width columns.now tuples.now point.now))) }
{
    let mut number = before;
    for tuple in tuples {
        number += 1;
        let name = RowName::Inserted(number);
        insert_cells(width, columns, tuple.as_slice(), point, cells);
        keep(alloc, rows, name, rest, cells, fresh, point)?;
    }
    Ok(())
}

fn keep_inserted(
    alloc: Global,
    rows: &mut Rows,
    width: u32,
    statements: &[Statement],
    point: &Point,
    cells: &mut [Cell],
    fresh: &mut [Cell],
) -> Result<(), NoMemory>
    requires count { inserted_count statements.now < 2 ^ 32 }
    requires width { length cells.old ≡ width }
    requires room { length fresh.old ≡ length cells.old }
    requires fits { InsertedFit width statements.now point.now }
    ensures { OnOk result (rows.new ≡ rows.old ++ inserted_survivors width point.now statements.now 0) }
{
    let mut inserted = 0;
    for (i, statement) in statements.iter().enumerate() {
        match statement {
            Statement::Update { .. } => {}
            Statement::Delete { .. } => {}
            Statement::Insert { columns, tuples } => {
                let rest = after(statements, i);
                keep_tuples(
                    alloc,
                    rows,
                    width,
                    columns.as_slice(),
                    tuples.as_slice(),
                    inserted,
                    rest,
                    point,
                    cells,
                    fresh,
                )?;
                inserted += tuples.len() as u32;
            }
        }
    }
    Ok(())
}

/// The rows at the end, in row order: those of the table that live, then those inserted that live, each with its name
/// and one cell for each column. Each row goes through the log by itself.
pub fn replay(
    alloc: Global,
    program: &Program,
    table: &Table,
    point: &Point,
) -> Result<Rows, NoMemory>
    requires belongs { Belongs program.now table.now }
    requires fits { FitsAt program.now table.now point.now }
    ensures { IfOk result (λ rows. rows ≡ final_rows program.now table.now point.now) }
{
    let mut room = Room::new(alloc, program)?;
    let cells = room.cells.as_mut_slice();
    let fresh = room.fresh.as_mut_slice();
    let statements = program.statements().as_slice();
    let width = program.columns().len() as u32;
    let starts = table.rows.as_slice();
    let mut rows = List::new(alloc);
    keep_starts(alloc, &mut rows, statements, starts, point, cells, fresh)?;
    keep_inserted(alloc, &mut rows, width, statements, point, cells, fresh)?;
    Ok(rows)
}
