ghost use Rattle.std.specs.Prelude.{◌≡◌, ◌<◌, ◌≤◌, [], length, IfOk, IsErrOf};
ghost use Rattle.qf_base.specs.Desk.{Rose};

use crate::read_log::ReadLog;
use crate::streams::{failed, read_all, write_all};
use crate::{Desk, DeskFault, List, Text};
use std::alloc::Global;
use std::fs;
use std::rt::Files;

/// The files and the standard output of a runtime: the trusted edge. It tells nothing of their content, and one number
/// counts all its faults: each error of the runtime, and each write that takes no byte. A name's file is made anew at its
/// first `put`.
#[derive(Drop)]
pub struct FileDesk<R: Files + Print + Drop> {
    rt: R,
    faults: u64,
    made: Vec<(Text, R::File)>,
    log: ReadLog,
}

impl<R: Files + Print + Drop> FileDesk<R> {
    ghost use Rattle.qf_base.specs.Desk.{untold};
    ghost use Rattle.qf_base.specs.Desks.{file_state};

    /// A desk over the runtime, which it keeps. It has read nothing, and no call failed.
    pub fn new(alloc: Global, rt: R) -> FileDesk<R>
        ensures { file_state result ≡ untold 0 [] }
    {
        FileDesk {
            rt,
            faults: 0,
            made: Vec::new(alloc),
            log: ReadLog::new(),
        }
    }
}

impl<R: Files + Print + Drop> FileDesk<R> {
    // The place of the file that is made under the name.
    fn place_of(&mut self, alloc: Global, name: &str) -> Result<usize, DeskFault>
        ensures within { IfOk result (λ place. place < length self.new.made.items) }
        ensures long { IsErrOf result DeskFault.TooLong → ⊥ }
        ensures failed { IsErrOf result DeskFault.Failed → Rose self.old.faults self.new.faults }
        ensures later { self.old.faults ≤ self.new.faults }
        ensures log { self.new.log ≡ self.old.log }
    {
        if let Some(place) = self.made.iter().position(|entry| entry.0.as_str() == name) {
            return Ok(place);
        }
        let text = Text::new(alloc, name)?;
        let Ok(file) = fs::create(&self.rt, name) else {
            return Err(failed(&mut self.faults));
        };
        let place = self.made.len();
        if self.made.push((text, file)).is_err() {
            return Err(DeskFault::NoMemory);
        }
        Ok(place)
    }
}

impl<R: Files + Print + Drop> Desk for FileDesk<R> {
    ghost use Rattle.qf_base.specs.Desks.{file_state};

    ghost state = { file_state };

    fn read(&mut self, alloc: Global, name: &str, most: u64) -> Result<List<u8>, DeskFault> {
        let bytes = match fs::open(&self.rt, name) {
            Ok(mut file) => read_all(alloc, &mut file, most, &mut self.faults)?,
            Err(_) => return Err(failed(&mut self.faults)),
        };
        self.log.note(name.as_bytes(), bytes.as_slice());
        Ok(bytes)
    }

    fn put(&mut self, alloc: Global, name: &str, piece: &[u8]) -> Result<(), DeskFault> {
        let place = self.place_of(alloc, name)?;
        let entry = &mut self.made[place];
        write_all(&mut entry.1, piece, &mut self.faults)
    }

    fn say(&mut self, _alloc: Global, piece: &[u8]) -> Result<(), DeskFault> {
        let mut output = std::io::writer(&self.rt);
        write_all(&mut output, piece, &mut self.faults)
    }
}
