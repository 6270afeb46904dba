ghost use Rattle.std.specs.Prelude.{◌≡◌, ℕ, [], ◌∷◌, ◌++◌, ◌<◌, ◌≤◌, ◌^◌, ◌↔◌, length, List as Items, ℤ, unsigned_abs, IfOk, OnOk, IsTrue, All};
ghost use Rattle.qf_base.specs.Values.{IsWithin};
ghost use Rattle.qf_lin.specs.Inequalities.{AllHold, IsWellFormed};
ghost use Rattle.qf_circuit.specs.Circuits.{eval, hull_of, IsCircuit, circuit_size};
ghost use Rattle.qf_circuit.specs.Limits.{HullsFit};
ghost use Rattle.qf_rows.specs.Encoding.{GivesParams};
ghost use Rattle.qf_rows.specs.Limits.{EndsFit, SumFits};
ghost use Rattle.qf_ir.specs.Life.{Moment, ending};
ghost use Rattle.qf_ir.specs.Repairs.{meets};
ghost use Rattle.qf_ir.specs.Value.{number_of};
ghost use Rattle.qf_encode.specs.Encoding.{GoalFits};
ghost use Rattle.qf_encode.specs.Lives.{CodesMoment, NamesDefinitions};
ghost use Rattle.qf_encode.specs.Systems.{cell_rows, cells_rows, goal_rows, system_of};
ghost use Rattle.qf_system.specs.SystemsMade.{IsPlainCell, SuitsColumns};

use qf_base::{List, NoMemory, PBox};
use qf_encode::Coded;
use qf_ir::{Cell, Goal};
use qf_lin::{Inequality, System};
use qf_rows::rows_of;
use std::alloc::Global;

// The inequality of one variable.
fn of_one(alloc: Global, factor: i64, var: u32, least: i64) -> Result<Inequality, NoMemory>
    ensures { IfOk result (λ row. row ≡ record { terms = (factor, var) ∷ []; least = least }) }
{
    let mut terms = List::new(alloc);
    terms.push((factor, var))?;
    Ok(Inequality { terms, least })
}

fn number_of(cell: &Cell) -> i64
    ensures { result ≡ number_of cell.now }
{
    match cell {
        Cell::Int(number) => *number,
        Cell::Text(code) => i64::from(*code),
    }
}

// That the variable is the stated cell.
fn push_cell(
    alloc: Global,
    rows: &mut List<Inequality>,
    var: u32,
    stated: &Option<Cell>,
) -> Result<(), NoMemory>
    requires plain { IsPlainCell stated.now }
    ensures { OnOk result (rows.new ≡ rows.old ++ cell_rows var stated.now) }
{
    match stated {
        Some(cell) => {
            let number = number_of(cell);
            rows.push(of_one(alloc, 1, var, number)?)?;
            rows.push(of_one(alloc, -1, var, -number)?)
        }
        None => Ok(()),
    }
}

// That the columns are the stated cells.
fn push_cells(
    alloc: Global,
    rows: &mut List<Inequality>,
    columns: &[u32],
    wanted: &[Option<Cell>],
) -> Result<(), NoMemory>
    requires same_length { length wanted.now ≡ length columns.now }
    requires plain { All IsPlainCell wanted.now }
    ensures { OnOk result (rows.new ≡ rows.old ++ cells_rows columns.now wanted.now) }
{
    for place in 0..columns.len() {
        push_cell(alloc, rows, columns[place], &wanted[place])?;
    }
    Ok(())
}

// The inequalities of the goal.
fn push_goal(
    alloc: Global,
    rows: &mut List<Inequality>,
    coded: &Coded,
    goal: &Goal,
) -> Result<(), NoMemory>
    requires suits { SuitsColumns coded.now.columns goal.now }
    ensures { OnOk result (rows.new ≡ rows.old ++ goal_rows coded.now goal.now) }
{
    match goal {
        Goal::Gone => rows.push(of_one(alloc, -1, coded.live, 0)?),
        Goal::There(wanted) => {
            rows.push(of_one(alloc, 1, coded.live, 1)?)?;
            push_cells(alloc, rows, coded.columns.as_slice(), wanted.as_slice())
        }
    }
}

// The inequalities of the circuit over the root hull, and then those of the goal.
fn goal_system(alloc: Global, coded: &Coded, root: &PBox, goal: &Goal) -> Result<System, NoMemory>
    requires hull { HullsFit root.now [] coded.now.circuit }
    requires few { circuit_size coded.now.circuit < 2 ^ 29 }
    requires ends { All EndsFit (hull_of root.now coded.now.circuit) }
    requires sums { All SumFits coded.now.circuit }
    requires suits { SuitsColumns coded.now.columns goal.now }
    ensures { IfOk result (λ system. (system ≡ system_of coded.now root.now goal.now) × IsCircuit coded.now.circuit) }
{
    let hull = coded.circuit.hull(alloc, root)?;
    let mut system = rows_of(alloc, &coded.circuit, &hull)?;
    push_goal(alloc, &mut system.inequalities, coded, goal)?;
    Ok(system)
}

/// The system of a row for a goal: the inequalities of its circuit over the hull of the root box, and then those that say
/// the goal.
///
/// The root box has the domains of the parameters that may change and the old constants of the others. A goal that is
/// `There` has one entry for each column, free or a cell within 2^50 in size. Among the values within the root hull that
/// give each `Param` its value at a point of the root box, the row's own values alone satisfy the system where the row
/// meets its goal at the point, and none do where it misses it. The only refusal is want of memory.
pub fn system_of(alloc: Global, coded: &Coded, root: &PBox, goal: &Goal) -> Result<System, NoMemory>
    requires hull { HullsFit root.now [] coded.now.circuit }
    requires few { circuit_size coded.now.circuit < 2 ^ 29 }
    requires ends { All EndsFit (hull_of root.now coded.now.circuit) }
    requires sums { All SumFits coded.now.circuit }
    requires suits { SuitsColumns coded.now.columns goal.now }
    ensures system { IfOk result (λ system. system ≡ system_of coded.now root.now goal.now) }
    ensures well_formed { (width : ℕ) → width ≤ 32 → NamesDefinitions width coded.now → IfOk result IsWellFormed }
    ensures alone { (moment : Moment) (point values : Items ℤ) → CodesMoment point coded.now moment → IsWithin point root.now → IsWithin values (hull_of root.now coded.now.circuit) → GivesParams point values coded.now.circuit → GoalFits moment.cells goal.now → IfOk result (λ system. AllHold system.inequalities values ↔ ((values ≡ eval point coded.now.circuit) × IsTrue (meets (ending moment) goal.now))) }
{
    goal_system(alloc, coded, root, goal)
}
