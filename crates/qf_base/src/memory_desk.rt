ghost use Rattle.std.specs.Prelude.{◌≡◌, ◌≢◌, ◌<◌, ◌≤◌, [], ◌∷◌, ◌++◌, List, ℕ, ◌+◌, ◌-◌, ◌^◌, min, length, Some, IsTrue, IsErr, IfOk, IfSome, OnOk, OnErr, IsErrOf};
ghost use Rattle.qf_base.specs.Desk.{Rose, NeverFalls, with_more, GrewByPart};
ghost use Rattle.qf_base.specs.Desks.{is_to_fail};
ghost use Rattle.qf_base.specs.Memory.{bytes_of, has_distinct_names};

use crate::entries::Entries;
use crate::read_log::ReadLog;
use crate::{Desk, DeskFault, List, Text};
use std::alloc::Global;

/// A desk in memory some of whose calls fail: those whose numbers, from 1, it was given, and each read of a missing name.
/// A call of `put` or `say` that is to fail first adds the first half of its piece, rounded down. The desk keeps the name
/// of each read and of each put that failed, and how often `say` failed; where it finds no memory for that, the call
/// answers `NoMemory`. Its own clauses, beside those of every desk, say which calls fail: `call` counts each one, and by
/// `fails` a call whose number was given answers no `Ok`.
#[derive(Drop)]
pub struct MemoryDesk {
    files: Entries,
    calls: Calls,
    made: Entries,
    said: List<u8>,
    read_failures: List<Text>,
    put_failures: List<Text>,
    say_failures: u64,
    log: ReadLog,
}

// The calls so far, and the numbers of those that fail.
#[derive(Drop)]
struct Calls {
    count: u64,
    failing: List<u64>,
}

impl Calls {
    // Counts a call, and says whether it is to fail.
    fn next_fails(&mut self) -> bool
        ensures count { self.new.count ≡ min (self.old.count + 1) (2 ^ 64 - 1) }
        ensures failing { self.new.failing ≡ self.old.failing }
        ensures fails { result ≡ is_to_fail self.old.failing self.new.count }
    {
        self.count = self.count.saturating_add(1);
        let call = self.count;
        self.failing.as_slice().contains(&call)
    }
}

impl MemoryDesk {
    ghost use Rattle.qf_base.specs.Desks.{memory_state, memory_calls, memory_failing};

    /// A desk that holds the files, whose names are distinct, and whose calls with these numbers fail.
    pub fn new(alloc: Global, files: List<(Text, List<u8>)>, failing: List<u64>) -> MemoryDesk
        requires { IsTrue (has_distinct_names files) }
        ensures held { (memory_state result).held ≡ bytes_of files }
        ensures made { (name : List ℕ) → (memory_state result).made name ≡ Some [] }
        ensures said { (memory_state result).said ≡ Some [] }
        ensures was_read { (memory_state result).was_read ≡ [] }
        ensures calls { memory_calls result ≡ 0 }
        ensures failing { memory_failing result ≡ failing }
        ensures no_read_faults { (name : List ℕ) → (memory_state result).read_faults name ≡ 0 }
        ensures no_put_faults { (name : List ℕ) → (memory_state result).put_faults name ≡ 0 }
        ensures no_say_faults { (memory_state result).say_faults ≡ 0 }
    {
        MemoryDesk {
            files: Entries::from_list(files),
            calls: Calls { count: 0, failing },
            made: Entries::new(alloc),
            said: List::new(alloc),
            read_failures: List::new(alloc),
            put_failures: List::new(alloc),
            say_failures: 0,
            log: ReadLog::new(),
        }
    }

    /// The bytes that were put under the name.
    pub fn put_bytes(&self, name: &str) -> &[u8]
        ensures { (memory_state self.now).made name.now ≡ Some result.now }
    {
        match self.made.bytes(name) {
            Some(bytes) => bytes.as_slice(),
            None => &[],
        }
    }

    /// The bytes that were said.
    pub fn said_bytes(&self) -> &[u8]
        ensures { (memory_state self.now).said ≡ Some result.now }
    {
        self.said.as_slice()
    }
}

#[tactic(auto, using(crate::proofs::Pieces::pieces))]
impl Desk for MemoryDesk {
    ghost use Rattle.qf_base.specs.Desks.{memory_state, memory_calls, memory_failing};

    ghost state = { memory_state };

    fn read(&mut self, alloc: Global, name: &str, most: u64) -> Result<List<u8>, DeskFault>
        ensures within { IfOk result (λ bytes. length bytes ≤ most) }
        ensures told { IfOk result (λ bytes. IfSome ((memory_state self.old).held name.now) (λ held. bytes ≡ held)) }
        ensures too_long { IsErrOf result DeskFault.TooLong → IfSome ((memory_state self.old).held name.now) (λ held. most < length held) }
        ensures failed { IsErrOf result DeskFault.Failed → Rose ((memory_state self.old).read_faults name.now) ((memory_state self.new).read_faults name.now) }
        ensures noted { IfOk result (λ bytes. (memory_state self.new).was_read ≡ (memory_state self.old).was_read ++ ((name.now, bytes) ∷ [])) }
        ensures unnoted { OnErr result ((memory_state self.new).was_read ≡ (memory_state self.old).was_read) }
        ensures held { (memory_state self.new).held ≡ (memory_state self.old).held }
        ensures made { (memory_state self.new).made ≡ (memory_state self.old).made }
        ensures said { (memory_state self.new).said ≡ (memory_state self.old).said }
        ensures counts { NeverFalls (memory_state self.old) (memory_state self.new) }
        ensures call { memory_calls self.new ≡ min (memory_calls self.old + 1) (2 ^ 64 - 1) }
        ensures failing { memory_failing self.new ≡ memory_failing self.old }
        ensures fails { IsTrue (is_to_fail (memory_failing self.old) (memory_calls self.new)) → IsErr result }
    {
        let fails = self.calls.next_fails();
        match self.files.bytes(name) {
            Some(bytes) if !fails => {
                if bytes.len() > most {
                    return Err(DeskFault::TooLong);
                }
                let bytes = List::from_slice(alloc, bytes.as_slice())?;
                self.log.note(name.as_bytes(), bytes.as_slice());
                Ok(bytes)
            }
            _ => {
                self.read_failures.push(Text::new(alloc, name)?)?;
                Err(DeskFault::Failed)
            }
        }
    }

    fn put(&mut self, alloc: Global, name: &str, piece: &[u8]) -> Result<(), DeskFault>
        ensures put { OnOk result ((memory_state self.new).made name.now ≡ with_more ((memory_state self.old).made name.now) piece.now) }
        ensures part { OnErr result (GrewByPart piece.now ((memory_state self.old).made name.now) ((memory_state self.new).made name.now)) }
        ensures others { (other : List ℕ) → other ≢ name.now → (memory_state self.new).made other ≡ (memory_state self.old).made other }
        ensures fits { IsErrOf result DeskFault.TooLong → ⊥ }
        ensures failed { IsErrOf result DeskFault.Failed → Rose ((memory_state self.old).put_faults name.now) ((memory_state self.new).put_faults name.now) }
        ensures held { (memory_state self.new).held ≡ (memory_state self.old).held }
        ensures said { (memory_state self.new).said ≡ (memory_state self.old).said }
        ensures was_read { (memory_state self.new).was_read ≡ (memory_state self.old).was_read }
        ensures counts { NeverFalls (memory_state self.old) (memory_state self.new) }
        ensures call { memory_calls self.new ≡ min (memory_calls self.old + 1) (2 ^ 64 - 1) }
        ensures failing { memory_failing self.new ≡ memory_failing self.old }
        ensures fails { IsTrue (is_to_fail (memory_failing self.old) (memory_calls self.new)) → IsErr result }
    {
        if self.calls.next_fails() {
            self.made.add(alloc, name, &piece[..piece.len() / 2])?;
            self.put_failures.push(Text::new(alloc, name)?)?;
            return Err(DeskFault::Failed);
        }
        self.made.add(alloc, name, piece)?;
        Ok(())
    }

    fn say(&mut self, _alloc: Global, piece: &[u8]) -> Result<(), DeskFault>
        ensures said { OnOk result ((memory_state self.new).said ≡ with_more (memory_state self.old).said piece.now) }
        ensures part { OnErr result (GrewByPart piece.now (memory_state self.old).said (memory_state self.new).said) }
        ensures fits { IsErrOf result DeskFault.TooLong → ⊥ }
        ensures failed { IsErrOf result DeskFault.Failed → Rose (memory_state self.old).say_faults (memory_state self.new).say_faults }
        ensures held { (memory_state self.new).held ≡ (memory_state self.old).held }
        ensures made { (memory_state self.new).made ≡ (memory_state self.old).made }
        ensures was_read { (memory_state self.new).was_read ≡ (memory_state self.old).was_read }
        ensures counts { NeverFalls (memory_state self.old) (memory_state self.new) }
        ensures call { memory_calls self.new ≡ min (memory_calls self.old + 1) (2 ^ 64 - 1) }
        ensures failing { memory_failing self.new ≡ memory_failing self.old }
        ensures fails { IsTrue (is_to_fail (memory_failing self.old) (memory_calls self.new)) → IsErr result }
    {
        if self.calls.next_fails() {
            self.said.extend(&piece[..piece.len() / 2])?;
            self.say_failures = self.say_failures.saturating_add(1);
            return Err(DeskFault::Failed);
        }
        self.said.extend(piece)?;
        Ok(())
    }
}
