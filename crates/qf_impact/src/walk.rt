ghost use Rattle.std.specs.Prelude.{◌≡◌, length, IfOk, OnOk};
ghost use Rattle.std.specs.List.{AllByRecursion};
ghost use Rattle.qf_impact.specs.Sets.{IsWithin, AreEmpty};
ghost use Rattle.qf_impact.specs.Reaches.{IsReach, AreReaches, AreReachesFrom, ReachesAreOwn};

use crate::steps::advance;
use qf_base::{List, NoMemory};
use qf_ir::{ColumnSet, Program, Statement};
use std::alloc::Global;

// The statements of a program set none but the first 32 columns.
fn statements_of(program: &Program) -> &[Statement]
    ensures value { result.now ≡ program.now.statements }
    ensures within { AllByRecursion IsWithin result.now }
    ensures own { ReachesAreOwn program.now }
{
    program.statements().as_slice()
}

// Takes the sets over all statements, with room for them in `room`. They are of the parameters from the first on.
fn follow(
    alloc: Global,
    first: u32,
    statements: &[Statement],
    room: &mut [ColumnSet],
    sets: &mut [ColumnSet],
) -> Result<(), NoMemory>
    requires within { AllByRecursion IsWithin statements.now }
    requires room { length room.old ≡ length sets.old }
    requires empty { AreEmpty sets.old }
    ensures { OnOk result (AreReachesFrom first statements.now sets.new) }
{
    for statement in statements {
        advance(alloc, first, statement, room, sets)?;
    }
    Ok(())
}

// The reach of each of so many parameters from the first on, in one pass over the statements.
fn reaches(
    alloc: Global,
    first: u32,
    count: usize,
    statements: &[Statement],
) -> Result<Vec<ColumnSet>, NoMemory>
    requires { AllByRecursion IsWithin statements.now }
    ensures reaches { IfOk result (λ sets. AreReachesFrom first statements.now sets.items) }
    ensures len { IfOk result (λ sets. length sets.items ≡ count) }
{
    let mut sets = vec![in alloc; ColumnSet::new(); count]?;
    let mut room = vec![in alloc; ColumnSet::new(); count]?;
    follow(
        alloc,
        first,
        statements,
        room.as_mut_slice(),
        sets.as_mut_slice(),
    )?;
    Ok(sets)
}

/// The columns, and `live`, that a parameter reaches: a chain of statements leads to them from where the parameter stands.
/// Columns count from 0, parameters from 1. What a parameter does not reach is the same for all its values, whatever the
/// row (`agreeing_points_end_alike`).
pub fn impact(alloc: Global, program: &Program, param: u32) -> Result<ColumnSet, NoMemory>
    ensures { IfOk result (IsReach program.now.statements param) }
{
    let sets = reaches(alloc, param, 1, statements_of(program))?;
    Ok(sets[0])
}

/// The columns, and `live`, that each parameter reaches; the set of parameter k, from 1, stands at place k - 1. All come
/// from one pass over the statements. Only the program's own parameters reach anything.
pub fn impacts(alloc: Global, program: &Program) -> Result<List<ColumnSet>, NoMemory>
    ensures reaches { IfOk result (AreReaches program.now.statements) }
    ensures len { IfOk result (λ sets. length sets ≡ length program.now.olds) }
    ensures own { ReachesAreOwn program.now }
{
    let statements = statements_of(program);
    let count = program.olds().len() as usize;
    let sets = reaches(alloc, 1, count, statements)?;
    Ok(List::from_vec(sets))
}
