// The circuit of a row.

ghost use Rattle.std.specs.Prelude.{◌≡◌, ◌+◌, ◌-◌, ◌^◌, ◌<◌, Some, length, drop, IfOk, List as Items, ℤ};
ghost use Rattle.qf_circuit.specs.Circuits.{IsCircuit, circuit_size};
ghost use Rattle.qf_ir.specs.Plan.{IsSound, Belongs, RowExists, final_outcome};
ghost use Rattle.qf_ir.specs.Life.{birth};
ghost use Rattle.qf_encode.specs.Coding.{circuit_of, coded, start_coding, insert_coding, inserted_coding};
ghost use Rattle.qf_encode.specs.Lives.{StatementsIn, CodesBirth, CodesOutcome, NamesDefinitions};
ghost use Rattle.qf_encode.specs.Making.{StatementsTurn, HasCircuit};
ghost use Rattle.qf_encode.specs.RowsMade.{coded_now};

use crate::coded::Coded;
use crate::row::RowMaker;
use qf_base::{NoMemory, RowName};
use qf_circuit::Circuit;
use qf_ir::{Cell, Expr, Program, Statement, Table};
use std::alloc::Global;

/// The circuit of a row of the table or of a row that the log inserts: the definitions in the order in which the row's
/// life needs them, of which certificates speak by their numbers. An inserted row starts at its INSERT; a deleted row goes
/// on as a shadow, whose cells are still computed. At every point the definitions that the result names have the row's last
/// cells, texts by their codes, and 1 where the row is there at the end, else 0.
pub fn circuit_of(
    alloc: Global,
    program: &Program,
    table: &Table,
    row: RowName,
) -> Result<Coded, NoMemory>
    requires belongs { Belongs program.now table.now }
    requires exists { RowExists program.now row }
    ensures coded { IfOk result (λ coded. circuit_of (length program.now.columns) table.now.rows program.now.statements row ≡ Some coded) }
    ensures small { IfOk result (λ coded. circuit_size coded.circuit < 2 ^ 29) }
    ensures named { IfOk result (λ coded. NamesDefinitions (length program.now.columns) coded) }
    ensures lives { IfOk result (λ coded. (point : Items ℤ) → CodesBirth point (Some coded) (birth (length program.now.columns) table.now.rows program.now.statements row point)) }
    ensures outcomes { IfOk result (λ coded. (point : Items ℤ) → CodesOutcome point coded (final_outcome program.now table.now row point)) }
{
    coded_row(alloc, program, table, row)
}

fn coded_row(
    alloc: Global,
    program: &Program,
    table: &Table,
    row: RowName,
) -> Result<Coded, NoMemory>
    requires belongs { Belongs program.now table.now }
    requires exists { RowExists program.now row }
    ensures coded { IfOk result (λ coded. circuit_of (length program.now.columns) table.now.rows program.now.statements row ≡ Some coded) }
    ensures sound { IsSound program.now }
{
    let statements = program.statements().as_slice();
    match row {
        RowName::Start(number) => {
            let cells = table.rows.at(u64::from(number) - 1);
            started(alloc, cells.as_slice(), statements)
        }
        RowName::Inserted(number) => {
            let width = program.columns().len() as u32;
            inserted(alloc, width, statements, u64::from(number) - 1)
        }
    }
}

fn started(alloc: Global, cells: &[Cell], statements: &[Statement]) -> Result<Coded, NoMemory>
    requires within { StatementsIn (length cells.now) statements.now }
    requires turn { StatementsTurn statements.now }
    requires circuit { IsCircuit (coded statements.now (start_coding cells.now)).circuit }
    ensures { IfOk result (λ c. c ≡ coded statements.now (start_coding cells.now)) }
{
    let row = RowMaker::start(alloc, cells)?;
    followed(row, statements)
}

fn inserted(
    alloc: Global,
    width: u32,
    statements: &[Statement],
    place: u64,
) -> Result<Coded, NoMemory>
    requires within { StatementsIn width statements.now }
    requires turn { StatementsTurn statements.now }
    requires circuit { HasCircuit (inserted_coding width statements.now place) }
    ensures { IfOk result (λ c. inserted_coding width statements.now place ≡ Some c) }
{
    let mut place = place;
    for (i, statement) in statements.iter().enumerate() {
        match statement {
            Statement::Update { .. } => {}
            Statement::Delete { .. } => {}
            Statement::Insert { columns, tuples } => {
                if place < tuples.len() {
                    let tuple = tuples.at(place);
                    let rest = after(statements, i);
                    return born(alloc, width, columns.as_slice(), tuple.as_slice(), rest);
                }
                place -= tuples.len();
            }
        }
    }
    unreachable!()
}

fn after(statements: &[Statement], place: usize) -> &[Statement]
    requires { place < length statements.now }
    ensures { result.now ≡ drop (place + 1) statements.now }
{
    &statements[place + 1..]
}

fn born(
    alloc: Global,
    width: u32,
    columns: &[u32],
    tuple: &[Expr],
    rest: &[Statement],
) -> Result<Coded, NoMemory>
    requires within { StatementsIn width rest.now }
    requires turn { StatementsTurn rest.now }
    requires circuit { IsCircuit (coded rest.now (insert_coding width columns.now tuple.now)).circuit }
    ensures { IfOk result (λ c. c ≡ coded rest.now (insert_coding width columns.now tuple.now)) }
{
    let row = RowMaker::insert(alloc, width, columns, tuple)?;
    followed(row, rest)
}

// What a row ends with, where it goes through these statements.
fn followed(row: RowMaker, statements: &[Statement]) -> Result<Coded, NoMemory>
    requires within { StatementsIn (length row.columns) statements.now }
    requires turn { StatementsTurn statements.now }
    requires circuit { IsCircuit (coded statements.now (coded_now row)).circuit }
    ensures { IfOk result (λ c. c ≡ coded statements.now (coded_now row)) }
{
    let mut row = row;
    row.follow(statements)?;
    let RowMaker {
        maker,
        columns,
        live,
        ..
    } = row;
    Ok(Coded {
        circuit: Circuit::from_list(maker.into_defs()),
        columns,
        live,
    })
}
