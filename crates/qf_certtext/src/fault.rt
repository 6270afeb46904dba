ghost use Rattle.std.specs.Prelude.{◌≡◌};

use qf_base::NoMemory;

/// Why bytes are no certificate's text. Lines count from 1.
#[derive(Clone, Copy, PartialEq, Eq, Drop)]
pub enum CertFault {
    /// The first whole line that is no line that may stand there.
    BadLine(u64),
    /// The bytes end before the last line is whole.
    CutShort,
    /// Bytes follow the last line: the number of the line that begins there.
    Trailing(u64),
    NoMemory,
}

impl From<NoMemory> for CertFault {
    ghost use Rattle.qf_certtext.specs.declared.fault.CertFault.TheVariants as fault;

    ghost from_gives = { λ _ it. it ≡ fault.NoMemory };

    fn from(_: NoMemory) -> Self {
        CertFault::NoMemory
    }
}
