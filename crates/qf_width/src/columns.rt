ghost use Rattle.std.specs.Prelude.{◌≡◌, ℕ, ◌<◌, ◌^◌, Ok, Err, length, slice_get, IfOk, OnOk, IsErrOf};
ghost use Rattle.qf_ir.specs.Plan.{Belongs, Fits};
ghost use Rattle.qf_ir.specs.Width.{widths_from};
ghost use Rattle.qf_width.specs.Faults.{refusal_of};
ghost use Rattle.qf_width.specs.Lies.{EndsLie};
ghost use Rattle.qf_width.specs.Widths.{AreWidths, IsWide};

use crate::intervals::Interval;
use crate::starts::start_widths;
use crate::statements::advance;
use qf_base::{Intervals, Kind, NoMemory, Refusal};
use qf_ir::{Program, Statement, Table};
use qf_point::Domains;
use std::alloc::Global;
use std::marker::Model;

/// The intervals of the columns after a log, seen as the list of them.
#[derive(Drop)]
pub struct ColumnWidths {
    widths: Intervals,
}

impl Model for ColumnWidths {
    ghost use Rattle.std.specs.Prelude.{List, ℤ};

    ghost Value = { List (ℤ × ℤ) };

    ghost view = { λ w. w.widths };
}

impl ColumnWidths {
    /// The least and the greatest value that a column of whole numbers, from 0, can have at the end. The interval of a text
    /// column, of the codes of its texts, has no use.
    pub fn column(&self, column: u32) -> (i64, i64)
        requires { column < length self.now }
        ensures { slice_get self.now column ≡ Some result }
    {
        self.widths.get(column)
    }
}

/// Why there are no widths: the first statement, from 1, in which a number can leave -2^50 to 2^50, or want of memory.
#[derive(Clone, Copy, PartialEq, Eq)]
pub enum WideFault {
    Wide(u32),
    NoMemory,
}

impl From<NoMemory> for WideFault {
    ghost use Rattle.qf_width.specs.declared.columns.WideFault.TheVariants as fault;

    ghost from_gives = { λ _ it. it ≡ fault.NoMemory };

    fn from(_: NoMemory) -> Self {
        WideFault::NoMemory
    }
}

impl WideFault {
    /// The refusal that the fault is, which want of memory is not.
    pub fn refusal(&self) -> Option<Refusal>
        ensures { result ≡ refusal_of self.now }
    {
        match self {
            WideFault::Wide(statement) => Some(Refusal {
                kind: Kind::Wide,
                first: Some(u64::from(*statement)),
                second: None,
            }),
            WideFault::NoMemory => None,
        }
    }
}

// Takes the widths over the statements. `NoMemory` and `Wide` leave them somewhere on the way.
fn advance_all(
    alloc: Global,
    statements: &[Statement],
    domains: &[Interval],
    widths: &mut Intervals,
) -> Result<(), WideFault>
    requires { length statements.now < 2 ^ 32 }
    ensures ok { OnOk result (widths_from 1 statements.now domains.now widths.old ≡ Ok widths.new) }
    ensures len { length widths.new ≡ length widths.old }
    ensures wide { (s : ℕ) → IsErrOf result (WideFault.Wide s) → widths_from 1 statements.now domains.now widths.old ≡ Err s }
{
    let mut room = Vec::new(alloc);
    for (i, statement) in statements.iter().enumerate() {
        if !advance(statement, domains, widths, &mut room)? {
            return Err(WideFault::Wide(i as u32 + 1));
        }
    }
    Ok(())
}

/// The widths of a table's columns under a program, with each parameter in its domain. `Wide` is the first statement, from
/// 1, in which a product, a partial sum, a compared difference or a stored value has an interval that leaves -2^50 to 2^50.
/// A text counts by its code, which is below 2^32: no text, and no difference of two, comes near the limit, so none makes
/// a statement wide.
pub fn widths(
    alloc: Global,
    program: &Program,
    table: &Table,
    domains: &Domains,
) -> Result<ColumnWidths, WideFault>
    requires belongs { Belongs program.now table.now }
    ensures ok { IfOk result (λ widths. AreWidths program.now table.now domains.now.region widths) }
    ensures fits { OnOk result (Fits program.now table.now domains.now.region) }
    ensures lies { IfOk result (λ widths. EndsLie program.now table.now domains.now.region widths) }
    ensures len { IfOk result (λ widths. length widths ≡ length program.now.columns) }
    ensures wide { (s : ℕ) → IsErrOf result (WideFault.Wide s) → IsWide program.now table.now domains.now.region s }
{
    let statements = program.statements().as_slice();
    let width = program.columns().len() as u32;
    let mut widths = start_widths(alloc, width, table.rows.as_slice())?;
    match advance_all(alloc, statements, domains.region().as_slice(), &mut widths) {
        Ok(()) => Ok(ColumnWidths { widths }),
        Err(fault) => {
            drop(widths);
            Err(fault)
        }
    }
}
