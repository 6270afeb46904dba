ghost use Rattle.std.specs.Prelude.{◌≡◌};
ghost use Rattle.qf_base.specs.Status.{code_of};

/// How a run ended: what was asked for is done, no point repairs, the budget ran out, an input is refused, an input word
/// could not be read, an output could not be written, memory was wanting, the words have no form, or a certificate is
/// rejected.
#[derive(Clone, Copy, Debug, PartialEq, Eq)]
pub enum Status {
    Done,
    Nothing,
    Budget,
    Refused,
    ReadFault,
    WriteFault,
    NoMemory,
    Usage,
    Rejected,
}

impl Status {
    /// The exit code of the program: 0 to 8, in the order of the variants.
    pub fn code(&self) -> u8
        ensures { result ≡ code_of self.now }
    {
        *self as u8
    }
}
