//! A row: what it is run on and what it states, as its lines say.
ghost use Rattle.std.specs.Prelude.{◌<◌, length, IfSome};

use crate::escapes::unescaped;
use qf_base::{List, NoMemory, Text};
use std::alloc::Global;

/// Why a line can't be taken: it is not understood, or memory was wanting.
#[derive(Clone, Copy)]
pub enum Fault {
    Unknown,
    NoMemory,
}

impl From<NoMemory> for Fault {
    fn from(_: NoMemory) -> Self {
        Fault::NoMemory
    }
}

/// The files of a desk: their names with their bytes.
pub type Files = Vec<(Text, List<u8>)>;

/// The name, the command's words and the files of a row, the number of the desk's call that fails (0 for none); and the
/// status, what is said and what is put as `K`, as they must come out. Where `checked` has bytes, what is put is not `put`
/// but a certificate of which `check` says them, for the same files; it has the bytes `contained` in it.
#[derive(Drop)]
pub struct Row<'a> {
    pub name: &'a str,
    pub words: &'a str,
    pub files: Files,
    pub failing: u64,
    pub status: Option<u64>,
    pub said: List<u8>,
    pub put: List<u8>,
    pub checked: List<u8>,
    pub contained: List<u8>,
}

fn is_file(name: &str) -> bool {
    ["I", "L", "C", "D", "K"].contains(&name)
}

fn place_of(files: &[(Text, List<u8>)], name: &str) -> Option<usize>
    ensures { IfSome result (λ place. place < length files.now) }
{
    files.iter().position(|file| file.0.as_str() == name)
}

/// Makes these the bytes of the file with this name.
pub fn set_file(
    alloc: Global,
    files: &mut Files,
    name: &str,
    bytes: List<u8>,
) -> Result<(), NoMemory> {
    match place_of(files.as_slice(), name) {
        Some(place) => files[place].1 = bytes,
        None => {
            let name = Text::new(alloc, name)?;
            files.push((name, bytes))?;
        }
    }
    Ok(())
}

// Adds a piece to the bytes of the file with this name, so many times.
fn add_to_file(
    alloc: Global,
    files: &mut Files,
    name: &str,
    piece: &[u8],
    times: u64,
) -> Result<(), NoMemory> {
    let place = match place_of(files.as_slice(), name) {
        Some(place) => place,
        None => {
            files.push((Text::new(alloc, name)?, List::new(alloc)))?;
            files.len() - 1
        }
    };
    add(&mut files[place].1, piece, times)
}

// Adds a piece so many times.
fn add(bytes: &mut List<u8>, piece: &[u8], times: u64) -> Result<(), NoMemory> {
    for _ in 0..times {
        bytes.extend(piece)?;
    }
    Ok(())
}

/// The files once more.
pub fn copy_of(alloc: Global, files: &Files) -> Result<Files, NoMemory> {
    let mut copy = Vec::new(alloc);
    for (name, bytes) in files {
        let name = Text::new(alloc, name.as_str())?;
        copy.push((name, List::from_slice(alloc, bytes.as_slice())?))?;
    }
    Ok(copy)
}

// The first word of a text, and what stands behind the space after it.
fn cut(text: &str) -> (&str, &str) {
    text.split_once(' ').unwrap_or((text, ""))
}

fn number(text: &str) -> Result<u64, Fault> {
    text.parse::<u64>().map_err(|_| Fault::Unknown)
}

impl<'a> Row<'a> {
    /// A row of which nothing is known.
    pub fn new(alloc: Global) -> Row<'a> {
        Row {
            name: "",
            words: "",
            files: Vec::new(alloc),
            failing: 0,
            status: None,
            said: List::new(alloc),
            put: List::new(alloc),
            checked: List::new(alloc),
            contained: List::new(alloc),
        }
    }

    /// A row with this name that is otherwise as this one.
    pub fn named(&self, alloc: Global, name: &'a str) -> Result<Row<'a>, NoMemory> {
        Ok(Row {
            name,
            words: self.words,
            files: copy_of(alloc, &self.files)?,
            failing: self.failing,
            status: self.status,
            said: List::from_slice(alloc, self.said.as_slice())?,
            put: List::from_slice(alloc, self.put.as_slice())?,
            checked: List::from_slice(alloc, self.checked.as_slice())?,
            contained: List::from_slice(alloc, self.contained.as_slice())?,
        })
    }

    /// Does what a line says of the row.
    pub fn take(&mut self, alloc: Global, line: &'a str) -> Result<(), Fault> {
        let (word, rest) = cut(line);
        match word {
            "words" => self.words = rest,
            "failing" => self.failing = number(rest)?,
            "says" => {
                let (status, text) = cut(rest);
                self.status = Some(number(status)?);
                self.said = unescaped(alloc, text)?;
            }
            "times" => {
                let (times, rest) = cut(rest);
                let (name, text) = cut(rest);
                self.add(alloc, name, text, number(times)?)?;
            }
            _ => match word.strip_prefix('+') {
                Some(name) => self.add(alloc, name, rest, 1)?,
                None => self.set(alloc, word, rest)?,
            },
        }
        Ok(())
    }

    // Makes a text the bytes of a file, or what is said of what is put.
    fn set(&mut self, alloc: Global, name: &str, text: &str) -> Result<(), Fault> {
        let bytes = unescaped(alloc, text)?;
        if name == "puts" {
            self.put = bytes;
        } else if name == "checked" {
            self.checked = bytes;
        } else if name == "contains" {
            self.contained = bytes;
        } else if is_file(name) {
            set_file(alloc, &mut self.files, name, bytes)?;
        } else {
            return Err(Fault::Unknown);
        }
        Ok(())
    }

    // Adds a text so many times to a file, or to what is said or put.
    fn add(&mut self, alloc: Global, name: &str, text: &str, times: u64) -> Result<(), Fault> {
        let piece = unescaped(alloc, text)?;
        let piece = piece.as_slice();
        match name {
            "says" => add(&mut self.said, piece, times)?,
            "puts" => add(&mut self.put, piece, times)?,
            _ if is_file(name) => add_to_file(alloc, &mut self.files, name, piece, times)?,
            _ => return Err(Fault::Unknown),
        }
        Ok(())
    }
}
