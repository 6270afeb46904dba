//! Runs of rows over desks in memory, and what is reported of them.

use crate::escapes::escape;
use crate::row::{Fault, Files, Row, copy_of, set_file};
use qf_app::run;
use qf_base::{List, MemoryDesk, NoMemory, Status, Text, have_distinct_names};
use std::alloc::Global;
use std::fmt::Write;
use std::mem;

// The place of BUDGET among the words of `diagnose`.
const BUDGET: usize = 5;

fn words_of(alloc: Global, text: &str) -> Result<List<Text>, NoMemory> {
    let mut words = List::new(alloc);
    for word in text.split_whitespace() {
        words.push(Text::new(alloc, word)?)?;
    }
    Ok(words)
}

// A desk that holds the files; two of one name are not understood.
fn desk_of(alloc: Global, files: Files, failing: u64) -> Result<MemoryDesk, Fault> {
    let failing = List::from_slice(alloc, &[failing])?;
    let files = List::from_vec(files);
    if !have_distinct_names(files.as_slice()) {
        return Err(Fault::Unknown);
    }
    Ok(MemoryDesk::new(alloc, files, failing))
}

// The words that check what words put.
fn checking_words(alloc: Global, text: &str) -> Result<List<Text>, NoMemory> {
    let mut words = List::new(alloc);
    words.push(Text::new(alloc, "check")?)?;
    for (place, word) in text.split_whitespace().enumerate() {
        if place > 0 && place != BUDGET {
            words.push(Text::new(alloc, word)?)?;
        }
    }
    Ok(words)
}

// Whether `check` says these bytes of the certificate in the place of the file `K`.
fn is_accepted(
    alloc: Global,
    row: &Row<'_>,
    certificate: &[u8],
    files: Files,
) -> Result<bool, Fault> {
    let mut files = files;
    set_file(
        alloc,
        &mut files,
        "K",
        List::from_slice(alloc, certificate)?,
    )?;
    let words = checking_words(alloc, row.words)?;
    let mut desk = desk_of(alloc, files, 0)?;
    let status = run(alloc, &words, &mut desk);
    Ok(status == Status::Done && desk.said_bytes() == row.checked.as_slice())
}

// Whether the bytes have these in them.
fn have(bytes: &[u8], part: &[u8]) -> bool {
    match (std::str::from_utf8(bytes), std::str::from_utf8(part)) {
        (Ok(bytes), Ok(part)) => bytes.contains(part),
        _ => false,
    }
}

// Whether what is put under `K` is as the row states.
fn is_put(alloc: Global, row: &mut Row<'_>, put: &[u8]) -> Result<bool, Fault> {
    if row.checked.len() == 0 {
        return Ok(put == row.put.as_slice());
    }
    let files = mem::replace(&mut row.files, Vec::new(alloc));
    Ok(have(put, row.contained.as_slice()) && is_accepted(alloc, row, put, files)?)
}

fn is_said(row: &Row<'_>, status: Status, desk: &MemoryDesk) -> bool {
    row.status == Some(u64::from(status.code())) && desk.said_bytes() == row.said.as_slice()
}

// Adds what came out of a row's run.
fn report_outcome(
    report: &mut String,
    name: &str,
    status: Status,
    desk: &MemoryDesk,
) -> Result<(), NoMemory> {
    let code = status.code();
    write!(report, "{name}: status {code}, said ")?;
    escape(report, desk.said_bytes())?;
    let put = desk.put_bytes("K");
    if !put.is_empty() {
        report.push_str(", put ")?;
        escape(report, put)?;
    }
    report.push_str("\n")?;
    Ok(())
}

/// Runs a row, and says whether it comes out as it states; where it doesn't, what came out is added to the report.
pub fn comes_out(alloc: Global, row: &mut Row<'_>, report: &mut String) -> Result<bool, Fault> {
    let words = words_of(alloc, row.words)?;
    let mut desk = desk_of(alloc, copy_of(alloc, &row.files)?, row.failing)?;
    let status = run(alloc, &words, &mut desk);
    let as_stated = is_said(row, status, &desk) && is_put(alloc, row, desk.put_bytes("K"))?;
    if !as_stated {
        report_outcome(report, row.name, status, &desk)?;
    }
    Ok(as_stated)
}
