ghost use Rattle.std.specs.Prelude.{◌≡◌, ℕ, List, [], ◌∷◌, ◌++◌, IfOk, OnErr, IsErrOf};
ghost use Rattle.qf_base.specs.Desk.{Rose, NeverFalls};
ghost use Rattle.qf_shell.specs.Delivery.{IsQuiet};
ghost use Rattle.qf_shell.specs.Inputs.{word_of, words_of, IsRead, AreRead, WereRead, IsTooLong, FirstTooLong, AnyReadRose};

use qf_base::{Desk, DeskFault, List, NoMemory};
use std::alloc::Global;

/// A file that is read: its number among the refusals, its name, and the most bytes that it may have.
#[derive(Clone, Copy)]
pub struct Input<'a> {
    pub number: u64,
    pub name: &'a str,
    pub most: u64,
}

/// Why the files were not all read: the one with this number is too long, or one could not be read.
#[derive(Clone, Copy, PartialEq, Eq)]
pub enum ReadEnd {
    TooLong(u64),
    Failed,
    NoMemory,
}

impl From<NoMemory> for ReadEnd {
    ghost use Rattle.qf_shell.specs.declared.files.ReadEnd.TheVariants as end;

    ghost from_gives = { λ _ it. it ≡ end.NoMemory };

    fn from(_: NoMemory) -> Self {
        ReadEnd::NoMemory
    }
}

// The bytes of the file.
fn read_file<D: Desk>(alloc: Global, input: Input<'_>, desk: &mut D) -> Result<List<u8>, ReadEnd>
    ensures read { IfOk result (λ bytes. IsRead (D.state desk.old) (word_of input.entry) bytes) }
    ensures noted { IfOk result (λ bytes. (D.state desk.new).was_read ≡ (D.state desk.old).was_read ++ ((input.entry.name.now, bytes) ∷ [])) }
    ensures unnoted { OnErr result ((D.state desk.new).was_read ≡ (D.state desk.old).was_read) }
    ensures too_long { (n : ℕ) → IsErrOf result (ReadEnd.TooLong n) → (n ≡ input.entry.number) × IsTooLong (D.state desk.old) (word_of input.entry) }
    ensures failed { IsErrOf result ReadEnd.Failed → Rose ((D.state desk.old).read_faults input.entry.name.now) ((D.state desk.new).read_faults input.entry.name.now) }
    ensures held { (D.state desk.new).held ≡ (D.state desk.old).held }
    ensures quiet { IsQuiet (D.state desk.old) (D.state desk.new) }
    ensures counts { NeverFalls (D.state desk.old) (D.state desk.new) }
{
    match desk.read(alloc, input.name, input.most) {
        Ok(bytes) => Ok(bytes),
        Err(DeskFault::TooLong) => Err(ReadEnd::TooLong(input.number)),
        Err(DeskFault::Failed) => Err(ReadEnd::Failed),
        Err(DeskFault::NoMemory) => Err(ReadEnd::NoMemory),
    }
}

/// The bytes of the files, in their order, each read once. The first that is too long or can't be read ends the reading.
pub fn read_files<D: Desk>(
    alloc: Global,
    inputs: &[Input<'_>],
    desk: &mut D,
) -> Result<List<List<u8>>, ReadEnd>
    ensures read { IfOk result (λ files. AreRead (D.state desk.old) (words_of inputs.now) files) }
    ensures were_read { IfOk result (λ files. WereRead (words_of inputs.now) files (D.state desk.old) (D.state desk.new)) }
    ensures some_read { OnErr result ((files : List (List ℕ)) × WereRead (words_of inputs.now) files (D.state desk.old) (D.state desk.new)) }
    ensures too_long { (n : ℕ) → IsErrOf result (ReadEnd.TooLong n) → FirstTooLong (D.state desk.old) (words_of inputs.now) n }
    ensures failed { IsErrOf result ReadEnd.Failed → AnyReadRose (words_of inputs.now) (D.state desk.old) (D.state desk.new) }
    ensures held { (D.state desk.new).held ≡ (D.state desk.old).held }
    ensures quiet { IsQuiet (D.state desk.old) (D.state desk.new) }
    ensures counts { NeverFalls (D.state desk.old) (D.state desk.new) }
{
    let mut files = List::new(alloc);
    for input in inputs {
        match read_file(alloc, *input, desk) {
            Ok(bytes) => files.push(bytes)?,
            Err(end) => return Err(end),
        }
    }
    Ok(files)
}
