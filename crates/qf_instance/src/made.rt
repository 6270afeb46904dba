// The systems of rows, each of which is made once.

ghost use Rattle.std.specs.Prelude.{◌≡◌, ℕ, Some, OnOk, IsSome};
ghost use Rattle.std.specs.Ordering.{nat_cmp};
ghost use Rattle.std.specs.BTreeMap as tree;
ghost use Rattle.qf_base.specs.Values.{Bounds};
ghost use Rattle.qf_base.specs.declared.names.RowName.{RowName as Name};
ghost use Rattle.qf_goal.specs.Case.{Case};
ghost use Rattle.qf_ir.specs.Plan.{RowExists};
ghost use Rattle.qf_slice.specs.RootBox.{IsRootBox};
ghost use Rattle.qf_instance.specs.RowsMade.{AreMade, HoldsMade, made_of};

use crate::{RowSystem, row_system};
use qf_base::{NoMemory, PBox, RowName};
use qf_goal::Problem;
use std::alloc::Global;
use std::collections::BTreeMap;

/// The systems of rows that were made, each once: those of the table's rows and those of inserted rows, by the numbers of
/// the rows, from 1.
#[derive(Drop)]
pub struct Made {
    pub starts: BTreeMap<u32, RowSystem>,
    pub inserted: BTreeMap<u32, RowSystem>,
}

// Makes the system of a row where there is none under its number.
fn make(
    alloc: Global,
    problem: &Problem,
    root: &PBox,
    row: RowName,
    number: u32,
    made: &mut BTreeMap<u32, RowSystem>,
) -> Result<(), NoMemory>
    requires exists { RowExists problem.now.plan row }
    requires root { IsRootBox problem.now root.now }
    ensures there { OnOk result (IsSome (tree.get nat_cmp made.new number)) }
    ensures made { (name : ℕ → Name) → name number ≡ row → HoldsMade problem.now root.now name made.old → OnOk result (HoldsMade problem.now root.now name made.new) }
{
    if made.contains_key(&number) {
        return Ok(());
    }
    let system = row_system(alloc, problem, root, row)?;
    made.insert(number, system)?;
    Ok(())
}

impl Made {
    /// No systems.
    pub fn new(alloc: Global) -> Made
        ensures { (problem : Case) (root : Bounds) → AreMade problem root result }
    {
        Made {
            starts: BTreeMap::new(alloc),
            inserted: BTreeMap::new(alloc),
        }
    }

    /// Makes the system of a row of the problem over its root box, unless it is made. Those that were made stay. The only
    /// refusal is want of memory.
    pub fn make(
        &mut self,
        alloc: Global,
        problem: &Problem,
        root: &PBox,
        row: RowName,
    ) -> Result<(), NoMemory>
        requires exists { RowExists problem.now.plan row }
        requires root { IsRootBox problem.now root.now }
        requires made { AreMade problem.now root.now self.old }
        ensures there { OnOk result (IsSome (made_of self.new row)) }
        ensures made { OnOk result (AreMade problem.now root.now self.new) }
    {
        match row {
            RowName::Start(number) => make(alloc, problem, root, row, number, &mut self.starts),
            RowName::Inserted(number) => make(
                alloc,
                problem,
                root,
                row,
                number,
                &mut self.inserted,
            ),
        }
    }

    /// The system of a row, which was made.
    pub fn get(&self, row: RowName) -> &RowSystem
        requires { IsSome (made_of self.now row) }
        ensures { made_of self.now row ≡ Some result.now }
    {
        let found = match row {
            RowName::Start(number) => self.starts.get(&number),
            RowName::Inserted(number) => self.inserted.get(&number),
        };
        found.unwrap()
    }
}
