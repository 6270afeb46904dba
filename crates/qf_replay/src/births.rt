ghost use Rattle.std.specs.Prelude.{◌≡◌, ◌<◌, ◌^◌, ◌++◌, Some, IfOk, OnOk, length, slice_get};
ghost use Rattle.qf_ir.specs.Replay.{inserted_count};
ghost use Rattle.qf_replay.specs.BirthPlaces as spec;

use qf_base::{List, NoMemory};
use qf_ir::{Program, Statement};
use std::alloc::Global;
use std::marker::Model;

type Places = List<(u32, u32)>;

/// Where the rows that a program inserts are born: for i1, i2, .. the place of the INSERT among the statements and of the
/// tuple in it, both from 0. It is made once for a program, so that no row is looked for among the statements again.
#[derive(Drop)]
pub struct Births {
    places: Places,
}

impl Model for Births {
    ghost use Rattle.std.specs.Prelude.{List, ℕ};

    ghost Value = { List (ℕ × ℕ) };

    ghost view = { λ b. b.places };
}

impl Births {
    /// The places of all rows that the program inserts.
    pub fn new(alloc: Global, program: &Program) -> Result<Births, NoMemory>
        ensures { IfOk result (λ births. births ≡ spec.births_of program.now.statements) }
    {
        let mut places = List::new(alloc);
        add_births(&mut places, program.statements().as_slice())?;
        Ok(Births { places })
    }

    // The place of the row that is inserted after so many others.
    pub(crate) fn place(&self, before: u32) -> (u32, u32)
        requires { before < length self.now }
        ensures { slice_get self.now before ≡ Some result }
    {
        *self.places.at(u64::from(before))
    }
}

fn add_tuples(places: &mut Places, statement: u32, count: u32) -> Result<(), NoMemory>
    ensures { OnOk result (places.new ≡ places.old ++ spec.tuple_places statement 0 count) }
{
    for tuple in 0..count {
        places.push((statement, tuple))?;
    }
    Ok(())
}

fn add_births(places: &mut Places, statements: &[Statement]) -> Result<(), NoMemory>
    requires statements { length statements.now < 2 ^ 32 }
    requires rows { inserted_count statements.now < 2 ^ 32 }
    ensures { OnOk result (places.new ≡ places.old ++ spec.births_of statements.now) }
{
    for (i, statement) in statements.iter().enumerate() {
        match statement {
            Statement::Update { .. } => {}
            Statement::Delete { .. } => {}
            Statement::Insert { tuples, .. } => {
                add_tuples(places, i as u32, tuples.len() as u32)?;
            }
        }
    }
    Ok(())
}

// The place of the row that is born after so many others, found by going through the statements.
pub fn find_birth(statements: &[Statement], before: u32) -> (u32, u32)
    requires statements { length statements.now < 2 ^ 32 }
    requires exists { before < inserted_count statements.now }
    ensures { slice_get (spec.births_of statements.now) before ≡ Some result }
{
    let mut tuple = u64::from(before);
    for (i, statement) in statements.iter().enumerate() {
        match statement {
            Statement::Update { .. } => {}
            Statement::Delete { .. } => {}
            Statement::Insert { tuples, .. } => {
                if tuple < tuples.len() {
                    return (i as u32, tuple as u32);
                }
                tuple -= tuples.len();
            }
        }
    }
    unreachable!()
}
