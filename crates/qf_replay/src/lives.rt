// What becomes of one row.

ghost use Rattle.std.specs.Prelude.{◌≡◌, IfOk, length};
ghost use Rattle.qf_ir.specs.declared.ast.Statement.TheVariants as statement;
ghost use Rattle.qf_ir.specs.Plan.{Belongs, FitsAt, RowExists, final_outcome};
ghost use Rattle.qf_ir.specs.Life.{ending_of};
ghost use Rattle.qf_ir.specs.Repairs.{meets};
ghost use Rattle.qf_ir.specs.Fits.{InsertsFit, TuplesFit, BirthFits};
ghost use Rattle.qf_replay.specs.BirthPlaces.{births_of, birth_at, born_by};
ghost use Rattle.qf_replay.specs.Rows.{ended};

use crate::births::{Births, find_birth};
use crate::goals;
use crate::insert::insert_cells;
use crate::room::Room;
use crate::row::{after, plays};
use qf_base::{List, NoMemory, Point, RowName};
use qf_ir::{Cell, Expr, Goal, Outcome, Program, Statement, Table};
use std::alloc::Global;

// Plays the row of an INSERT's tuple, and says whether it lives at the end.
fn plays_tuple(
    columns: &[u32],
    tuples: &[List<Expr>],
    place: u32,
    rest: &[Statement],
    width: u32,
    point: &Point,
    cells: &mut [Cell],
    fresh: &mut [Cell],
) -> bool
    requires items { TuplesFit tuples.now point.now }
    requires fits { BirthFits (born_by width point.now (statement.Insert columns.now tuples.now) place rest.now) point.now }
    requires width { length cells.old ≡ width }
    requires room { length fresh.old ≡ length cells.old }
    ensures { ended result cells.new ≡ ending_of (born_by width point.now (statement.Insert columns.now tuples.now) place rest.now) point.now }
{
    let place = place as usize;
    if place >= tuples.len() {
        return false;
    }
    insert_cells(width, columns, tuples[place].as_slice(), point, cells);
    plays(rest, cells, fresh, point)
}

// Plays the row that is born at a place, and says whether it lives at the end.
fn plays_born(
    statements: &[Statement],
    birth: (u32, u32),
    width: u32,
    point: &Point,
    cells: &mut [Cell],
    fresh: &mut [Cell],
) -> bool
    requires items { InsertsFit statements.now point.now }
    requires fits { BirthFits (birth_at width point.now statements.now birth.0 birth.1) point.now }
    requires width { length cells.old ≡ width }
    requires room { length fresh.old ≡ length cells.old }
    ensures { ended result cells.new ≡ ending_of (birth_at width point.now statements.now birth.0 birth.1) point.now }
{
    let place = birth.0 as usize;
    if place >= statements.len() {
        return false;
    }
    let rest = after(statements, place);
    match &statements[place] {
        Statement::Update { .. } => false,
        Statement::Delete { .. } => false,
        Statement::Insert { columns, tuples } => plays_tuple(
            columns.as_slice(),
            tuples.as_slice(),
            birth.1,
            rest,
            width,
            point,
            cells,
            fresh,
        ),
    }
}

// Plays a row of the table, and says whether it lives at the end.
fn plays_start(
    program: &Program,
    table: &Table,
    number: u32,
    point: &Point,
    cells: &mut [Cell],
    fresh: &mut [Cell],
) -> bool
    requires belongs { Belongs program.now table.now }
    requires fits { FitsAt program.now table.now point.now }
    requires exists { RowExists program.now (RowName.Start number) }
    requires width { length cells.old ≡ length program.now.columns }
    requires room { length fresh.old ≡ length cells.old }
    ensures { ended result cells.new ≡ final_outcome program.now table.now (RowName.Start number) point.now }
{
    let first = table.rows.at(u64::from(number) - 1);
    cells.copy_from_slice(first.as_slice());
    plays(program.statements().as_slice(), cells, fresh, point)
}

// What becomes of a row with these cells at the end, where it lives.
fn outcome_of(alloc: Global, live: bool, cells: &[Cell]) -> Result<Outcome, NoMemory>
    ensures { IfOk result (λ outcome. outcome ≡ ended live cells.now) }
{
    if live {
        Ok(Outcome::There(List::from_slice(alloc, cells)?))
    } else {
        Ok(Outcome::Gone)
    }
}

// Plays a row, and says whether it lives at the end.
fn plays_row(
    program: &Program,
    table: &Table,
    births: &Births,
    row: RowName,
    point: &Point,
    cells: &mut [Cell],
    fresh: &mut [Cell],
) -> bool
    requires belongs { Belongs program.now table.now }
    requires fits { FitsAt program.now table.now point.now }
    requires exists { RowExists program.now row }
    requires births { births.now ≡ births_of program.now.statements }
    requires width { length cells.old ≡ length program.now.columns }
    requires room { length fresh.old ≡ length cells.old }
    ensures { ended result cells.new ≡ final_outcome program.now table.now row point.now }
{
    let statements = program.statements().as_slice();
    let width = program.columns().len() as u32;
    match row {
        RowName::Start(number) => plays_start(program, table, number, point, cells, fresh),
        RowName::Inserted(number) => {
            let birth = births.place(number - 1);
            plays_born(statements, birth, width, point, cells, fresh)
        }
    }
}

// Plays a row that is looked for in the log, and says whether it lives at the end.
fn plays_alone(
    program: &Program,
    table: &Table,
    row: RowName,
    point: &Point,
    cells: &mut [Cell],
    fresh: &mut [Cell],
) -> bool
    requires belongs { Belongs program.now table.now }
    requires fits { FitsAt program.now table.now point.now }
    requires exists { RowExists program.now row }
    requires width { length cells.old ≡ length program.now.columns }
    requires room { length fresh.old ≡ length cells.old }
    ensures { ended result cells.new ≡ final_outcome program.now table.now row point.now }
{
    let statements = program.statements().as_slice();
    let width = program.columns().len() as u32;
    match row {
        RowName::Start(number) => plays_start(program, table, number, point, cells, fresh),
        RowName::Inserted(number) => {
            let birth = find_birth(statements, number - 1);
            plays_born(statements, birth, width, point, cells, fresh)
        }
    }
}

/// What becomes of a row at a point: its final cells, or gone. A row of the table goes through the whole log, an inserted
/// one through what comes after its INSERT; no other row is looked at. For many rows `Room::outcome` does the same with
/// room and births that are made once.
pub fn outcome(
    alloc: Global,
    program: &Program,
    table: &Table,
    row: RowName,
    point: &Point,
) -> Result<Outcome, NoMemory>
    requires belongs { Belongs program.now table.now }
    requires fits { FitsAt program.now table.now point.now }
    requires exists { RowExists program.now row }
    ensures { IfOk result (λ outcome. outcome ≡ final_outcome program.now table.now row point.now) }
{
    let mut room = Room::new(alloc, program)?;
    let cells = room.cells.as_mut_slice();
    let fresh = room.fresh.as_mut_slice();
    let live = plays_alone(program, table, row, point, cells, fresh);
    outcome_of(alloc, live, room.cells.as_slice())
}

impl Room {
    /// What becomes of a row at a point, as `outcome` gives it, with births that were made for the program.
    pub fn outcome(
        &mut self,
        alloc: Global,
        program: &Program,
        table: &Table,
        births: &Births,
        row: RowName,
        point: &Point,
    ) -> Result<Outcome, NoMemory>
        requires belongs { Belongs program.now table.now }
        requires fits { FitsAt program.now table.now point.now }
        requires exists { RowExists program.now row }
        requires births { births.now ≡ births_of program.now.statements }
        requires room { self.old ≡ length program.now.columns }
        ensures outcome { IfOk result (λ outcome. outcome ≡ final_outcome program.now table.now row point.now) }
        ensures room { self.new ≡ self.old }
    {
        let cells = self.cells.as_mut_slice();
        let fresh = self.fresh.as_mut_slice();
        let live = plays_row(program, table, births, row, point, cells, fresh);
        outcome_of(alloc, live, self.cells.as_slice())
    }

    /// Whether a row meets a goal at a point. It takes no memory, and makes no outcome.
    pub fn meets(
        &mut self,
        program: &Program,
        table: &Table,
        births: &Births,
        row: RowName,
        point: &Point,
        goal: &Goal,
    ) -> bool
        requires belongs { Belongs program.now table.now }
        requires fits { FitsAt program.now table.now point.now }
        requires exists { RowExists program.now row }
        requires births { births.now ≡ births_of program.now.statements }
        requires room { self.old ≡ length program.now.columns }
        ensures met { result ≡ meets (final_outcome program.now table.now row point.now) goal.now }
        ensures room { self.new ≡ self.old }
    {
        let cells = self.cells.as_mut_slice();
        let fresh = self.fresh.as_mut_slice();
        let live = plays_row(program, table, births, row, point, cells, fresh);
        goals::meets(live, self.cells.as_slice(), goal)
    }
}
