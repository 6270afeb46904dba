//! Runs the program's work on the rows of files, and says which of them come out otherwise than they state. README.md beside
//! the files tells the form of the rows. Then puts files of its own, and reads them back.
#![tactic(auto)]

mod escapes;
mod files;
mod report;
mod row;
mod running;

use crate::files::deliver_and_read;
use crate::report::reported;
use qf_base::{Desk, DeskFault, FileDesk, List, NoMemory, Status};
use std::alloc::Global;
use std::process::ExitCode;

const MOST_BYTES: u64 = 1 << 24;

const FILES: [&str; 9] = [
    "answers",
    "certificates",
    "desks",
    "finals",
    "inputs",
    "logs",
    "otherwise",
    "refusals",
    "tables",
];

fn main(rt: HostRuntime) -> ExitCode {
    let status = match rt.clone() {
        Ok(own) => work(rt.alloc(), &mut FileDesk::new(rt.alloc(), own)),
        Err(_) => Status::NoMemory,
    };
    ExitCode::from(status.code())
}

// Reads and runs the rows of each file, and says the reports; then puts files and reads them back.
fn work<D: Desk>(alloc: Global, desk: &mut D) -> Status {
    for file in FILES {
        if let Err(status) = run_file(alloc, desk, file) {
            return status;
        }
    }
    deliver_and_read(alloc, desk).unwrap_or(Status::NoMemory)
}

// Reads and runs the rows of a file, and says the report; else the status of the run that a fault ends.
fn run_file<D: Desk>(alloc: Global, desk: &mut D, file: &str) -> Result<(), Status> {
    let rows = desk.read(alloc, file, MOST_BYTES).map_err(ended)?;
    let report = report_of(alloc, file, &rows).map_err(|_| Status::NoMemory)?;
    desk.say(alloc, report.as_bytes()).map_err(ended)
}

// The status of a run that a desk's fault ends.
fn ended(fault: DeskFault) -> Status {
    match fault {
        DeskFault::TooLong => Status::Refused,
        DeskFault::Failed => Status::ReadFault,
        DeskFault::NoMemory => Status::NoMemory,
    }
}

// What is reported of the rows of a file.
fn report_of(alloc: Global, file: &str, rows: &List<u8>) -> Result<String, NoMemory> {
    match std::str::from_utf8(rows.as_slice()) {
        Ok(text) => reported(alloc, file, text),
        Err(_) => Ok(String::from_str(alloc, "a file is no text in UTF-8\n")?),
    }
}
