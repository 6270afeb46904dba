ghost use Rattle.std.specs.Prelude.{◌≡◌, ◌≢◌, ◌<◌, ◌≤◌, List, [], ◌∷◌, ◌++◌, ℕ, length, IfOk, IfSome, OnOk, OnErr, IsErrOf};
ghost use Rattle.qf_base.specs.declared.desk.DeskFault.TheVariants.{NoMemory};
ghost use Rattle.qf_base.specs.Desk.{DeskState, Rose, NeverFalls, with_more, GrewByPart};

use crate::{List, NoMemory};
use std::alloc::Global;

/// Why a desk did not do a call: a file has more bytes than were allowed, the outside failed, or memory was wanting.
#[derive(Clone, Copy, Debug, PartialEq, Eq)]
pub enum DeskFault {
    TooLong,
    Failed,
    NoMemory,
}

impl From<NoMemory> for DeskFault {
    ghost from_gives = { λ _ fault. fault ≡ NoMemory };

    fn from(_: NoMemory) -> Self {
        DeskFault::NoMemory
    }
}

/// The outside of a run: named bytes to read and to put, and a standard output to say bytes on.
///
/// Its `state` says what the bytes are, where the desk tells them, what the reads answered, and how often each kind of
/// call failed. Every desk keeps the answers of its reads, also one that tells no bytes beforehand: each `Ok` of `read`
/// adds the name with the bytes that it gave, in order, and nothing else changes them. This is a history for clauses alone,
/// which takes no memory. The counts of faults never fall, and a fault is answered only where the count of that very name,
/// or that of what is said, rose in the call. Want of memory is free.
pub trait Desk {
    ghost state: { Self → DeskState };

    /// The bytes of a name, if they are at most `most`; else `TooLong`. Nothing that was put or said changes. The bytes are
    /// noted with the name among what was read; where there is no answer, nothing is noted.
    fn read(&mut self, alloc: Global, name: &str, most: u64) -> Result<List<u8>, DeskFault>
        ensures within { IfOk result (λ bytes. length bytes ≤ most) }
        ensures told { IfOk result (λ bytes. IfSome ((state self.old).held name.now) (λ held. bytes ≡ held)) }
        ensures too_long { IsErrOf result DeskFault.TooLong → IfSome ((state self.old).held name.now) (λ held. most < length held) }
        ensures failed { IsErrOf result DeskFault.Failed → Rose ((state self.old).read_faults name.now) ((state self.new).read_faults name.now) }
        ensures noted { IfOk result (λ bytes. (state self.new).was_read ≡ (state self.old).was_read ++ ((name.now, bytes) ∷ [])) }
        ensures unnoted { OnErr result ((state self.new).was_read ≡ (state self.old).was_read) }
        ensures held { (state self.new).held ≡ (state self.old).held }
        ensures made { (state self.new).made ≡ (state self.old).made }
        ensures said { (state self.new).said ≡ (state self.old).said }
        ensures counts { NeverFalls (state self.old) (state self.new) };

    /// Adds the piece behind what was put under the name. After a fault a prefix of the piece was added. `TooLong` never
    /// comes, and what was put under other names, said and read stays.
    fn put(&mut self, alloc: Global, name: &str, piece: &[u8]) -> Result<(), DeskFault>
        ensures put { OnOk result ((state self.new).made name.now ≡ with_more ((state self.old).made name.now) piece.now) }
        ensures part { OnErr result (GrewByPart piece.now ((state self.old).made name.now) ((state self.new).made name.now)) }
        ensures others { (other : List ℕ) → other ≢ name.now → (state self.new).made other ≡ (state self.old).made other }
        ensures fits { IsErrOf result DeskFault.TooLong → ⊥ }
        ensures failed { IsErrOf result DeskFault.Failed → Rose ((state self.old).put_faults name.now) ((state self.new).put_faults name.now) }
        ensures held { (state self.new).held ≡ (state self.old).held }
        ensures said { (state self.new).said ≡ (state self.old).said }
        ensures was_read { (state self.new).was_read ≡ (state self.old).was_read }
        ensures counts { NeverFalls (state self.old) (state self.new) };

    /// Adds the piece behind what was said. After a fault a prefix of the piece was added. `TooLong` never comes, and what
    /// was put and read stays.
    fn say(&mut self, alloc: Global, piece: &[u8]) -> Result<(), DeskFault>
        ensures said { OnOk result ((state self.new).said ≡ with_more (state self.old).said piece.now) }
        ensures part { OnErr result (GrewByPart piece.now (state self.old).said (state self.new).said) }
        ensures fits { IsErrOf result DeskFault.TooLong → ⊥ }
        ensures failed { IsErrOf result DeskFault.Failed → Rose (state self.old).say_faults (state self.new).say_faults }
        ensures held { (state self.new).held ≡ (state self.old).held }
        ensures made { (state self.new).made ≡ (state self.old).made }
        ensures was_read { (state self.new).was_read ≡ (state self.old).was_read }
        ensures counts { NeverFalls (state self.old) (state self.new) };
}
