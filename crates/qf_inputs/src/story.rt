ghost use Rattle.std.specs.Prelude.{◌≡◌, ◌<◌, ◌^◌, length, IfOk, Ok};
ghost use Rattle.qf_ir.specs.Plan.{IsSound, Belongs};
ghost use Rattle.qf_ir.specs.Tables.{IsSoundTable};
ghost use Rattle.qf_lex.specs.Tokens.{TokensOf};
ghost use Rattle.qf_log.specs.Reading.{IsLogOf};
ghost use Rattle.qf_inputs.specs.Story.{IsLog, IsStory, plan_of, table_in, with_log};
ghost use Rattle.qf_inputs.specs.Known.{IsSoundStory};

use crate::refusal::refused;
use qf_base::{List, NoMemory, Refusal};
use qf_ir::{Program, Table};
use qf_lex::{Token, tokens};
use qf_log::{Log, parse};
use qf_table::read_table;
use std::alloc::Global;

/// A table, the log that ran on it, and the log as a program over the table.
#[derive(Drop)]
pub struct Story {
    pub table: Table,
    pub log: Log,
    pub program: Program,
}

fn table_of(alloc: Global, bytes: &[u8]) -> Result<Result<Table, Refusal>, NoMemory>
    requires { length bytes.now < 2 ^ 30 }
    ensures table { IfOk result (λ table. table ≡ table_in bytes.now) }
    ensures sound { IfOk result (λ table. IfOk table IsSoundTable) }
{
    match read_table(alloc, bytes) {
        Ok(table) => Ok(Ok(table)),
        Err(fault) => Ok(Err(refused(fault.refusal())?)),
    }
}

// The log of these tokens of the bytes.
fn log_with(
    alloc: Global,
    bytes: &[u8],
    tokens: &List<Token>,
) -> Result<Result<Log, Refusal>, NoMemory>
    requires tokens { TokensOf bytes.now tokens.now }
    requires bytes { length bytes.now < 2 ^ 30 }
    ensures { IfOk result (λ log. IsLog bytes.now log) }
{
    match parse(alloc, bytes, tokens) {
        Ok(log) => Ok(Ok(log)),
        Err(fault) => Ok(Err(refused(fault.refusal())?)),
    }
}

fn log_of(alloc: Global, bytes: &[u8]) -> Result<Result<Log, Refusal>, NoMemory>
    requires { length bytes.now < 2 ^ 30 }
    ensures { IfOk result (λ log. IsLog bytes.now log) }
{
    match tokens(alloc, bytes) {
        Ok(tokens) => log_with(alloc, bytes, &tokens),
        Err(fault) => Ok(Err(refused(fault.refusal())?)),
    }
}

fn program_of(alloc: Global, table: &Table, log: &Log) -> Result<Result<Program, Refusal>, NoMemory>
    requires { IsSoundTable table.now }
    ensures program { IfOk result (λ plan. plan ≡ plan_of table.now log.now) }
    ensures sound { IfOk result (λ plan. IfOk plan IsSound) }
    ensures belongs { IfOk result (λ plan. IfOk plan (λ p. Belongs p table.now)) }
    ensures few_texts { IfOk result (λ plan. IfOk plan (λ p. length p.texts < 2 ^ 31)) }
{
    match log.program(alloc, table) {
        Ok(program) => Ok(Ok(program)),
        Err(fault) => Ok(Err(refused(fault.refusal())?)),
    }
}

// The story of a table and a log. What is refused is let go by one call each: its parts are dropped in one place.
fn with_program(alloc: Global, table: Table, log: Log) -> Result<Result<Story, Refusal>, NoMemory>
    requires { IsSoundTable table }
    ensures story { IfOk result (λ story. story ≡ with_log table (Ok log)) }
    ensures log { IfOk result (λ story. IfOk story (λ s. s.log ≡ log)) }
    ensures sound { IfOk result (λ story. IfOk story IsSoundStory) }
{
    match program_of(alloc, &table, &log) {
        Ok(Ok(program)) => Ok(Ok(Story {
            table,
            log,
            program,
        })),
        Ok(Err(refusal)) => {
            drop(log);
            drop(table);
            Ok(Err(refusal))
        }
        Err(memory) => {
            drop(log);
            drop(table);
            Err(memory)
        }
    }
}

/// What a table and the log that ran on it say together, or their first refusal: that of the table, of the log, and of the
/// log as a program over the table, in this order.
pub fn read_story(
    alloc: Global,
    initial: &[u8],
    log: &[u8],
) -> Result<Result<Story, Refusal>, NoMemory>
    requires initial { length initial.now < 2 ^ 30 }
    requires log { length log.now < 2 ^ 30 }
    ensures story { IfOk result (IsStory initial.now log.now) }
    ensures read { IfOk result (λ story. IfOk story (λ s. IsLogOf log.now s.log)) }
    ensures sound { IfOk result (λ story. IfOk story IsSoundStory) }
{
    let table = match table_of(alloc, initial)? {
        Ok(table) => table,
        Err(refusal) => return Ok(Err(refusal)),
    };
    let log = match log_of(alloc, log) {
        Ok(Ok(log)) => log,
        Ok(Err(refusal)) => {
            drop(table);
            return Ok(Err(refusal));
        }
        Err(memory) => {
            drop(table);
            return Err(memory);
        }
    };
    with_program(alloc, table, log)
}
