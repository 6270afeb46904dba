ghost use Rattle.std.specs.Prelude.{◌≡◌};

use qf_base::NoMemory;

/// What a valid certificate says. Costs are sums, over the parameters, of the distance between a value and the old constant.
#[derive(Clone, Copy, PartialEq, Eq)]
pub enum Verdict {
    /// There is a repair of this cost, and none is better.
    Repair(u128),
    /// There is no repair.
    Nothing,
    /// No repair costs less than this.
    Budget(u128),
}

/// Why a certificate was not accepted.
#[derive(Clone, Copy, PartialEq, Eq)]
pub enum CheckFault {
    /// The first line that breaks its rule. The head is line 1, the answer line 2, and the first node stands at line 3.
    Rejected(u64),
    NoMemory,
}

impl From<NoMemory> for CheckFault {
    ghost use Rattle.qf_check.specs.declared.verdict.CheckFault.TheVariants as fault;

    ghost from_gives = { λ _ it. it ≡ fault.NoMemory };

    fn from(_: NoMemory) -> Self {
        CheckFault::NoMemory
    }
}
