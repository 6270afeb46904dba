//! Why a log has no statements.

ghost use Rattle.std.specs.Prelude.{◌≡◌};
ghost use Rattle.qf_grammar.specs.declared.fault.LogFault.TheVariants.{NoMemory};
ghost use Rattle.qf_grammar.specs.Refusals.{refusal_of};

use qf_base::{Kind, Refusal};

/// The first fault of a log, with the number of its statement, from 1.
#[derive(Clone, Copy, PartialEq, Eq)]
pub enum LogFault {
    /// The statement is in no form.
    BadSyntax(u32),
    /// A term multiplies two names or two numbers.
    NotLinear(u32),
    /// A coefficient is past 1,000,000 in size.
    BigCoefficient(u32),
    /// The statement's table is not the first statement's.
    OtherTable(u32),
    NoMemory,
}

impl LogFault {
    /// The refusal that tells this fault; `None` exactly for `NoMemory`.
    pub fn refusal(&self) -> Option<Refusal>
        ensures { result ≡ refusal_of self.now }
    {
        let (kind, statement) = match self {
            LogFault::BadSyntax(statement) => (Kind::BadSyntax, *statement),
            LogFault::NotLinear(statement) => (Kind::NotLinear, *statement),
            LogFault::BigCoefficient(statement) => (Kind::BigCoefficient, *statement),
            LogFault::OtherTable(statement) => (Kind::OtherTable, *statement),
            LogFault::NoMemory => return None,
        };
        Some(Refusal {
            kind,
            first: Some(u64::from(statement)),
            second: None,
        })
    }
}

impl From<qf_base::NoMemory> for LogFault {
    ghost from_gives = { λ _ fault. fault ≡ NoMemory };

    fn from(_: qf_base::NoMemory) -> Self {
        LogFault::NoMemory
    }
}
