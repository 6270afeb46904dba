ghost use Rattle.std.specs.Prelude.{◌≡◌, [], List, ℕ, Some, IsTrue};
ghost use Rattle.qf_base.specs.Memory.{bytes_or_none, has_distinct_names};

use crate::entries::Entries;
use crate::read_log::ReadLog;
use crate::{Desk, DeskFault, List, Text};
use std::alloc::Global;

/// A desk in memory that never fails: its counts of faults are 0 for ever. A missing name reads as no bytes.
#[derive(Drop)]
pub struct SureDesk {
    files: Entries,
    made: Entries,
    said: List<u8>,
    log: ReadLog,
}

impl SureDesk {
    ghost use Rattle.qf_base.specs.Desks.{sure_state};

    /// A desk that holds the files, whose names are distinct.
    pub fn new(alloc: Global, files: List<(Text, List<u8>)>) -> SureDesk
        requires { IsTrue (has_distinct_names files) }
        ensures held { (name : List ℕ) → (sure_state result).held name ≡ Some (bytes_or_none files name) }
        ensures made { (name : List ℕ) → (sure_state result).made name ≡ Some [] }
        ensures said { (sure_state result).said ≡ Some [] }
        ensures was_read { (sure_state result).was_read ≡ [] }
    {
        SureDesk {
            files: Entries::from_list(files),
            made: Entries::new(alloc),
            said: List::new(alloc),
            log: ReadLog::new(),
        }
    }

    /// The bytes that were put under the name.
    pub fn put_bytes(&self, name: &str) -> &[u8]
        ensures { (sure_state self.now).made name.now ≡ Some result.now }
    {
        match self.made.bytes(name) {
            Some(bytes) => bytes.as_slice(),
            None => &[],
        }
    }

    /// The bytes that were said.
    pub fn said_bytes(&self) -> &[u8]
        ensures { (sure_state self.now).said ≡ Some result.now }
    {
        self.said.as_slice()
    }
}

#[tactic(auto, using(crate::proofs::Pieces::pieces))]
impl Desk for SureDesk {
    ghost use Rattle.qf_base.specs.Desks.{sure_state};

    ghost state = { sure_state };

    fn read(&mut self, alloc: Global, name: &str, most: u64) -> Result<List<u8>, DeskFault> {
        let bytes = match self.files.bytes(name) {
            Some(held) => {
                if held.len() > most {
                    return Err(DeskFault::TooLong);
                }
                List::from_slice(alloc, held.as_slice())?
            }
            None => List::new(alloc),
        };
        self.log.note(name.as_bytes(), bytes.as_slice());
        Ok(bytes)
    }

    fn put(&mut self, alloc: Global, name: &str, piece: &[u8]) -> Result<(), DeskFault> {
        self.made.add(alloc, name, piece)?;
        Ok(())
    }

    fn say(&mut self, _alloc: Global, piece: &[u8]) -> Result<(), DeskFault> {
        self.said.extend(piece)?;
        Ok(())
    }
}
