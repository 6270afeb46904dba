ghost use Rattle.std.specs.Prelude.{◌≡◌};
ghost use Rattle.qf_table.specs.Faults.{refusal_of};

use qf_base::{Kind, NoMemory, Refusal};

/// Why a table could not be read. `BadName` and `RepeatedName` have the number of a field of the header, from 1; `Uneven`
/// has the number of a record under the header, from 1, that has another number of fields; `BadNumber` and `BadText` have
/// the numbers of a record and of a column.
#[derive(Clone, Copy, PartialEq, Eq)]
pub enum TableFault {
    NoHeader,
    TooManyColumns,
    BadName(u32),
    RepeatedName(u32),
    TooManyRows,
    Uneven(u32),
    BadNumber(u32, u32),
    BadText(u32, u32),
    NoMemory,
}

impl From<NoMemory> for TableFault {
    ghost use Rattle.qf_table.specs.declared.fault.TableFault.TheVariants as fault;

    ghost from_gives = { λ _ it. it ≡ fault.NoMemory };

    fn from(_: NoMemory) -> Self {
        TableFault::NoMemory
    }
}

impl TableFault {
    /// The refusal that the fault is, which want of memory is not.
    pub fn refusal(&self) -> Option<Refusal>
        ensures { result ≡ refusal_of self.now }
    {
        match self {
            TableFault::NoHeader => Some(Refusal::plain(Kind::NoHeader)),
            TableFault::TooManyColumns => Some(Refusal::plain(Kind::TooManyColumns)),
            TableFault::BadName(column) => Some(Refusal::at(Kind::BadName, u64::from(*column))),
            TableFault::RepeatedName(column) => {
                Some(Refusal::at(Kind::RepeatedName, u64::from(*column)))
            }
            TableFault::TooManyRows => Some(Refusal::plain(Kind::TooManyRows)),
            TableFault::Uneven(row) => Some(Refusal::at(Kind::Uneven, u64::from(*row))),
            TableFault::BadNumber(row, column) => {
                Some(Refusal::at_both(Kind::BadNumber, u64::from(*row), u64::from(*column)))
            }
            TableFault::BadText(row, column) => {
                Some(Refusal::at_both(Kind::BadText, u64::from(*row), u64::from(*column)))
            }
            TableFault::NoMemory => None,
        }
    }
}
