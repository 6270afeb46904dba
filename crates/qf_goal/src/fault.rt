ghost use Rattle.std.specs.Prelude.{◌≡◌};
ghost use Rattle.qf_goal.specs.Faults.{refusal_of};

use qf_base::{Kind, NoMemory, Refusal};

/// Why complaints are no problem over a program: there are more than 1,000 of them, or the complaint of this number, from
/// 1, is about a row that does not exist, about one that an earlier complaint is about, states the cell of a column that
/// the table lacks, or a number for a text or a text for a number.
#[derive(Clone, Copy, PartialEq, Eq)]
pub enum GoalFault {
    TooManyComplaints,
    UnknownRow(u32),
    RepeatedRow(u32),
    ComplaintColumn(u32),
    ComplaintType(u32),
    NoMemory,
}

impl From<NoMemory> for GoalFault {
    ghost use Rattle.qf_goal.specs.declared.fault.GoalFault.TheVariants as fault;

    ghost from_gives = { λ _ it. it ≡ fault.NoMemory };

    fn from(_: NoMemory) -> Self {
        GoalFault::NoMemory
    }
}

impl GoalFault {
    /// The refusal that the fault is, which want of memory is not.
    pub fn refusal(&self) -> Option<Refusal>
        ensures { result ≡ refusal_of self.now }
    {
        match self {
            GoalFault::TooManyComplaints => Some(Refusal::plain(Kind::TooManyComplaints)),
            GoalFault::UnknownRow(complaint) => Some(Refusal::at(
                Kind::UnknownRow,
                u64::from(*complaint),
            )),
            GoalFault::RepeatedRow(complaint) => Some(Refusal::at(
                Kind::RepeatedRow,
                u64::from(*complaint),
            )),
            GoalFault::ComplaintColumn(complaint) => Some(Refusal::at(
                Kind::ComplaintColumn,
                u64::from(*complaint),
            )),
            GoalFault::ComplaintType(complaint) => Some(Refusal::at(
                Kind::ComplaintType,
                u64::from(*complaint),
            )),
            GoalFault::NoMemory => None,
        }
    }
}
