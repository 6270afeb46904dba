//! The report of the rows of a file.

use crate::row::{Fault, Row};
use crate::running::comes_out;
use qf_base::NoMemory;
use std::alloc::Global;
use std::fmt::Write;

// What holds for every row of the group, the row whose lines are read, how many rows were run and how many of them came
// out otherwise than they state, and what is reported so far.
#[derive(Drop)]
struct Reading<'a> {
    base: Row<'a>,
    row: Option<Row<'a>>,
    rows: u64,
    otherwise: u64,
    report: String,
}

impl<'a> Reading<'a> {
    fn new(alloc: Global) -> Reading<'a> {
        Reading {
            base: Row::new(alloc),
            row: None,
            rows: 0,
            otherwise: 0,
            report: String::new(alloc),
        }
    }

    // Runs the row whose lines were read, if there is one.
    fn run_row(&mut self, alloc: Global) -> Result<(), Fault> {
        if let Some(mut row) = self.row.take() {
            self.rows = self.rows.wrapping_add(1);
            if !comes_out(alloc, &mut row, &mut self.report)? {
                self.otherwise = self.otherwise.wrapping_add(1);
            }
        }
        Ok(())
    }

    // Takes a line that begins a group or a row, or belongs to one.
    fn take(&mut self, alloc: Global, line: &'a str) -> Result<(), Fault> {
        if line.is_empty() || line.starts_with('#') {
            return Ok(());
        }
        if line.starts_with("base ") {
            self.run_row(alloc)?;
            self.base = Row::new(alloc);
            return Ok(());
        }
        if let Some(name) = line.strip_prefix("row ") {
            self.run_row(alloc)?;
            self.row = Some(self.base.named(alloc, name)?);
            return Ok(());
        }
        match &mut self.row {
            Some(row) => row.take(alloc, line),
            None => self.base.take(alloc, line),
        }
    }

    // Reports that a line was not understood.
    fn note(&mut self, file: &str, number: u64, taken: Result<(), Fault>) -> Result<(), NoMemory> {
        match taken {
            Ok(()) => {}
            Err(Fault::Unknown) => writeln!(
                self.report,
                "{file}: line {number} is not understood"
            )?,
            Err(Fault::NoMemory) => return Err(NoMemory),
        }
        Ok(())
    }
}

/// The report of the rows of a file's text: a line for each that comes out otherwise than it states and for each line that
/// is not understood, and a last line with their numbers.
pub fn reported(alloc: Global, file: &str, text: &str) -> Result<String, NoMemory> {
    let mut reading = Reading::new(alloc);
    let mut number = 0u64;
    for line in text.lines() {
        number = number.wrapping_add(1);
        let taken = reading.take(alloc, line);
        reading.note(file, number, taken)?;
    }
    let taken = reading.run_row(alloc);
    reading.note(file, number, taken)?;
    let Reading {
        rows,
        otherwise,
        mut report,
        ..
    } = reading;
    writeln!(
        report,
        "{file}: {rows} rows, {otherwise} otherwise than stated"
    )?;
    Ok(report)
}
