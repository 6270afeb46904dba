ghost use Rattle.std.specs.Prelude.{◌≡◌};
ghost use Rattle.qf_forms.specs.Faults.{refusal_of};

use qf_base::{Kind, NoMemory, Refusal};

/// Why domains or complaints could not be read. `UnevenDomain` is a record that has not three fields, `BadDomain` one
/// whose field has not its form, `UnknownParam` names no parameter of the log and `RepeatedParam` one that an earlier
/// record names; each has the number of its record, from 1, and `BadDomain(0)` is a wrong header. `BadJson` is no JSON
/// array. `BadComplaint` has the number of an element, from 1, that has not its form.
#[derive(Clone, Copy, PartialEq, Eq)]
pub enum FormFault {
    UnevenDomain(u32),
    BadDomain(u32),
    UnknownParam(u32),
    RepeatedParam(u32),
    BadJson,
    BadComplaint(u32),
    NoMemory,
}

impl From<NoMemory> for FormFault {
    ghost use Rattle.qf_forms.specs.declared.fault.FormFault.TheVariants as fault;

    ghost from_gives = { λ _ it. it ≡ fault.NoMemory };

    fn from(_: NoMemory) -> Self {
        FormFault::NoMemory
    }
}

impl FormFault {
    /// The refusal that the fault is, which want of memory is not.
    pub fn refusal(&self) -> Option<Refusal>
        ensures { result ≡ refusal_of self.now }
    {
        match self {
            FormFault::UnevenDomain(record) => Some(Refusal::at(
                Kind::UnevenDomain,
                u64::from(*record),
            )),
            FormFault::BadDomain(record) => Some(Refusal::at(Kind::BadDomain, u64::from(*record))),
            FormFault::UnknownParam(record) => Some(Refusal::at(
                Kind::UnknownParam,
                u64::from(*record),
            )),
            FormFault::RepeatedParam(record) => Some(Refusal::at(
                Kind::RepeatedParam,
                u64::from(*record),
            )),
            FormFault::BadJson => Some(Refusal::plain(Kind::BadJson)),
            FormFault::BadComplaint(element) => Some(Refusal::at(
                Kind::BadComplaint,
                u64::from(*element),
            )),
            FormFault::NoMemory => None,
        }
    }
}
