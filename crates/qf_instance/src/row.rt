// The system of a row of a problem.

ghost use Rattle.std.specs.Prelude.{◌≡◌, ◌↔◌, [], Some, IfOk, IsTrue};
ghost use Rattle.qf_circuit.specs.Circuits.{hull_of};
ghost use Rattle.qf_circuit.specs.Limits.{HullsFit};
ghost use Rattle.qf_ir.specs.Plan.{RowExists};
ghost use Rattle.qf_point.specs.Domains.{HasSmallEnds};
ghost use Rattle.qf_goal.specs.Asked.{row_exists};
ghost use Rattle.qf_goal.specs.Case.{goal_at};
ghost use Rattle.qf_goal.specs.SoundCase.{IsSoundCase};
ghost use Rattle.qf_slice.specs.RootBox.{IsRootBox};
ghost use Rattle.qf_encode.specs.Systems.{system_of};
ghost use Rattle.qf_instance.specs.Instances.{case_circuit, is_marked};
ghost use Rattle.qf_instance.specs.RowSystems.{IsRowSystem};

use qf_base::{Intervals, NoMemory, PBox, RowName};
use qf_encode::{Coded, circuit_of};
use qf_goal::Problem;
use qf_lin::System;
use qf_system::system_of;
use std::alloc::Global;

/// The circuit of a row, and the inequalities that say that the row meets its goal.
#[derive(Drop)]
pub struct RowSystem {
    pub coded: Coded,
    pub system: System,
}

/// Whether the row is one of the table's or one that the log inserts.
pub fn has_row(problem: &Problem, row: RowName) -> bool
    ensures test { result ≡ row_exists problem.now.plan row }
    ensures exists { IsTrue result ↔ RowExists problem.now.plan row }
{
    let program = problem.program();
    match row {
        RowName::Start(number) => 1 <= number && number <= program.starts(),
        RowName::Inserted(number) => 1 <= number && number <= program.inserted(),
    }
}

/// Whether the parameter, from 1, has a mark; that of parameter k stands at place k - 1.
pub fn is_marked(marks: &[bool], param: u32) -> bool
    ensures { result ≡ is_marked marks.now param }
{
    if param == 0 {
        return false;
    }
    let place = param as usize - 1;
    place < marks.len() && marks[place]
}

// That the problem is sound, and that the ends of its domains are within 2^50 in size.
fn note_sound(problem: &Problem)
    ensures sound { IsSoundCase problem.now }
    ensures ends { HasSmallEnds problem.now.domains.region }
{
    let _program = problem.program();
    let _region = problem.domains().region();
}

// The circuit of the row.
fn coded_row(alloc: Global, problem: &Problem, row: RowName) -> Result<Coded, NoMemory>
    requires exists { RowExists problem.now.plan row }
    ensures { IfOk result (λ coded. case_circuit problem.now row ≡ Some coded) }
{
    circuit_of(alloc, problem.program(), problem.table(), row)
}

// The system of the row's circuit and goal.
fn goal_system(
    alloc: Global,
    problem: &Problem,
    root: &PBox,
    row: RowName,
    coded: &Coded,
) -> Result<System, NoMemory>
    requires exists { RowExists problem.now.plan row }
    requires root { IsRootBox problem.now root.now }
    requires coded { case_circuit problem.now row ≡ Some coded.now }
    ensures { IfOk result (λ system. system ≡ system_of coded.now root.now (goal_at problem.now row)) }
{
    note_sound(problem);
    system_of(alloc, coded, root, problem.goal(row))
}

/// The circuit of a row, and its system for the row's goal over the root box of the problem. Over each box in the root box
/// the circuit's hull can be computed, and the system used there. The only refusal is want of memory.
pub fn row_system(
    alloc: Global,
    problem: &Problem,
    root: &PBox,
    row: RowName,
) -> Result<RowSystem, NoMemory>
    requires exists { RowExists problem.now.plan row }
    requires root { IsRootBox problem.now root.now }
    ensures made { IfOk result (IsRowSystem problem.now root.now row) }
{
    note_sound(problem);
    let coded = coded_row(alloc, problem, row)?;
    let system = goal_system(alloc, problem, root, row, &coded)?;
    Ok(RowSystem { coded, system })
}

impl RowSystem {
    /// The interval of each definition of the row's circuit over a box; that of definition n, from 1, stands at place n - 1.
    pub fn hull(&self, alloc: Global, region: &PBox) -> Result<Intervals, NoMemory>
        requires fits { HullsFit region.now [] self.now.coded.circuit }
        ensures hull { IfOk result (λ hull. hull ≡ hull_of region.now self.now.coded.circuit) }
    {
        self.coded.circuit.hull(alloc, region)
    }
}
