//! The program `qfix`: the words of the command line, a desk over the runtime, and an exit code.
#![tactic(auto)]

use qf_app::run;
use qf_base::{FileDesk, List, NoMemory, Status, Text};
use std::alloc::Global;
use std::env;
use std::io::ErrorKind;
use std::process::ExitCode;
use std::rt::Env;

const HELP: &str = "qfix: which constants of a SQL log must be corrected

  qfix diagnose INITIAL LOG COMPLAINTS DOMAINS BUDGET CERT   the log with the constants that change least in all
  qfix check INITIAL LOG COMPLAINTS DOMAINS CERT             whether a certificate shows what it says
  qfix replay INITIAL LOG                                    the table after the log, as CSV
  qfix params INITIAL LOG                                    the constants that may change, with their places, as CSV

INITIAL is CSV, LOG holds UPDATE, DELETE and INSERT statements of one table, COMPLAINTS is a JSON array as
[{\"row\": \"r3\", \"set\": {\"rate\": 10}}], DOMAINS is CSV with the header param,lo,hi, BUDGET is 1 to 1000000, and diagnose writes
CERT, a name that no input has. A row without a complaint must end as it did.

Status: 0 done, 1 none, 2 budget, 3 refused, 4 a file could not be read, 5 the output could not be written, 6 memory was wanting,
7 the words have no form, 8 the certificate is rejected.";

const VERSION: &str = "qfix 1 (rattle-kit-13f)";

fn main(rt: HostRuntime) -> ExitCode {
    let status = match words_of(&rt) {
        Ok(words) => answer(&rt, &words),
        Err(status) => status,
    };
    if let Some(line) = hint(status) {
        // The exit code says the same, so a standard error that takes no line changes nothing.
        let _ = rt.eprintln(line);
    }
    ExitCode::from(status.code())
}

// The words after the program's name.
fn words_of<R: Env + AllocGlobal>(rt: &R) -> Result<List<Text>, Status> {
    let words = match env::args(rt) {
        Ok(words) => words,
        Err(e) if e.kind() == ErrorKind::OutOfMemory => return Err(Status::NoMemory),
        Err(_) => return Err(Status::Usage),
    };
    texts_of(rt.alloc(), words).map_err(|_| Status::NoMemory)
}

// The words but the first, as texts.
fn texts_of(alloc: Global, words: env::Args) -> Result<List<Text>, NoMemory> {
    let mut texts = List::new(alloc);
    for word in words.skip(1) {
        texts.push(Text::new(alloc, word.as_str())?)?;
    }
    Ok(texts)
}

// What the one word `--help` or `--version` asks for.
fn told(words: &List<Text>) -> Option<&'static str> {
    match words.as_slice() {
        [word] => match word.as_str() {
            "--help" => Some(HELP),
            "--version" => Some(VERSION),
            _ => None,
        },
        _ => None,
    }
}

// Says what the one word asks for, or else does what the words ask for.
fn answer(rt: &HostRuntime, words: &List<Text>) -> Status {
    match told(words) {
        Some(text) => match rt.println(text) {
            Ok(()) => Status::Done,
            Err(_) => Status::WriteFault,
        },
        None => run_in(rt, words),
    }
}

// Does what the words ask for, over the files and the standard output of the runtime.
fn run_in(rt: &HostRuntime, words: &List<Text>) -> Status {
    match rt.clone() {
        Ok(own) => run(rt.alloc(), words, &mut FileDesk::new(rt.alloc(), own)),
        Err(_) => Status::NoMemory,
    }
}

// What a person is told on standard error: why a run gave no answer, or what can be done about its answer.
fn hint(status: Status) -> Option<&'static str> {
    match status {
        Status::Done => None,
        Status::Nothing => Some(
            "qfix: complaints must be complete, a range may be too narrow, and a factor is no constant that may change",
        ),
        Status::Budget => Some("qfix: give a greater BUDGET, narrower ranges or fewer constants"),
        Status::Refused => Some(
            "qfix: docs/REFUSALS.md lists the kinds, and qfix-db why shows the place",
        ),
        Status::Rejected => Some(
            "qfix: the certificate does not show what it says, so it proves nothing",
        ),
        Status::ReadFault => Some("qfix: an input file is missing or could not be read"),
        Status::WriteFault => Some("qfix: an output could not be written in full"),
        Status::NoMemory => Some("qfix: memory was wanting"),
        Status::Usage => Some(
            "qfix: the words have no form (qfix --help lists them; BUDGET is 1 to 1000000, and diagnose's CERT no input's name)",
        ),
    }
}
