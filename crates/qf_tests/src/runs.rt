//! Whole runs whose files are made in the test.

use qf_app::run;
use qf_base::{List, MemoryDesk, Status, Text, have_distinct_names};
use std::alloc::Global;
use std::process::Abort;
use std::test::Fail;

/// The files of a run, by the names `I`, `L`, `C`, `D` and `K`.
#[derive(Clone, Copy)]
pub struct Inputs<'a> {
    pub initial: &'a str,
    pub log: &'a str,
    pub complaints: &'a str,
    pub domains: &'a str,
    pub certificate: &'a str,
}

fn words_of(alloc: Global, all: &[&str]) -> Result<List<Text>, Fail> {
    let mut words = List::new(alloc);
    for word in all {
        words.push(Text::new(alloc, word)?)?;
    }
    Ok(words)
}

fn files_of(alloc: Global, inputs: &Inputs<'_>) -> Result<List<(Text, List<u8>)>, Fail> {
    let mut files = List::new(alloc);
    for (name, text) in [
        ("I", inputs.initial),
        ("L", inputs.log),
        ("C", inputs.complaints),
        ("D", inputs.domains),
        ("K", inputs.certificate),
    ] {
        let bytes = List::from_slice(alloc, text.as_bytes())?;
        files.push((Text::new(alloc, name)?, bytes))?;
    }
    Ok(files)
}

/// A run does what is asked, and says this.
pub fn says(
    rt: &impl Abort,
    alloc: Global,
    words: &[&str],
    inputs: &Inputs<'_>,
    said: &str,
) -> Result<(), Fail> {
    let words = words_of(alloc, words)?;
    let files = files_of(alloc, inputs)?;
    assert!(rt; have_distinct_names(files.as_slice()));
    let mut desk = MemoryDesk::new(alloc, files, List::new(alloc));
    let status = run(alloc, &words, &mut desk);
    assert_eq!(rt; desk.said_bytes(), said.as_bytes());
    assert_eq!(rt; status, Status::Done);
    Ok(())
}
