//! Logs that were read.

ghost use Rattle.std.specs.Prelude.{◌≡◌, ◌<◌, ◌^◌, length, map, IfOk};
ghost use Rattle.std.specs.List.{flat_map};
ghost use Rattle.qf_ir.specs.Tables.{IsSoundTable};
ghost use Rattle.qf_ir.specs.Plan.{IsSound, Belongs};
ghost use Rattle.qf_ir.specs.Checked as ir;
ghost use Rattle.qf_ir.specs.Checked.{program_of};
ghost use Rattle.qf_lex.specs.Tokens.{TokensOf};
ghost use Rattle.qf_grammar.specs.Statements.{Gives, statements_of};
ghost use Rattle.qf_log.specs.Lowered.{AreSmall};
ghost use Rattle.qf_log.specs.Bodies.{body_of, body_or};
ghost use Rattle.qf_log.specs.Reading.{olds_of, log_of};

use crate::lexing::{Lexed, lex};
use crate::lowering::lower;
use crate::places::{ParamPlace, ids_of, number_tokens, parameters};
use qf_base::{List, Name, NoMemory};
use qf_grammar::{Lexeme, LogFault, Stated, statements};
use qf_ir::{IrFault, Program, Statement, Table, Texts};
use qf_lex::Token;
use std::alloc::Global;
use std::marker::Model;

/// The statements of a log over its own names and texts, and its parameters. Contracts see it as a `Reading`, which is ready
/// for `Program::new`.
#[derive(Drop)]
pub struct Log {
    names: List<Name>,
    texts: Texts,
    statements: List<Statement>,
    parameters: List<ParamPlace>,
}

impl Model for Log {
    ghost use Rattle.qf_log.specs.Reading.{Reading};
    ghost use Rattle.qf_log.specs.Ready.{IsReady};
    ghost use Rattle.qf_ir.specs.contracts.ast.Cond as cond;
    ghost use Rattle.std.specs.Coded.{codes};

    ghost Value = { Reading };

    ghost coded = { Prim.hlevel (codes, cond.the_row.coded) };

    ghost view = { λ l. record { names = l.names; texts = l.texts; statements = l.statements; parameters = l.parameters } };

    ghost invariant = { λ l. IsReady (record { names = l.names; texts = l.texts; statements = l.statements; parameters = l.parameters }) };
}

impl Log {
    /// The parameters in the order of the log: parameter k stands at place k - 1.
    pub fn parameters(&self) -> &List<ParamPlace>
        ensures { result.now ≡ self.now.parameters }
    {
        &self.parameters
    }

    /// The program of the log over a table, which is `Program::new` of the log's own names, texts, statements and old
    /// constants.
    pub fn program(&self, alloc: Global, table: &Table) -> Result<Program, IrFault>
        requires { IsSoundTable table.now }
        ensures program { ir.Gives result (program_of table.now self.now.names self.now.texts self.now.statements (olds_of self.now)) }
        ensures sound { IfOk result (λ plan. IsSound plan) }
        ensures belongs { IfOk result (λ plan. Belongs plan table.now) }
        ensures few_texts { IfOk result (λ plan. length plan.texts < 2 ^ 31) }
    {
        let olds = old_constants(alloc, self.parameters.as_slice())?;
        let statements = copy_statements(alloc, self.statements.as_slice())?;
        Program::new(alloc, table, &self.names, &self.texts, statements, olds)
    }
}

fn copy_statements(alloc: Global, statements: &[Statement]) -> Result<List<Statement>, NoMemory>
    ensures { IfOk result (λ copies. copies ≡ statements.now) }
{
    let mut copies = List::new(alloc);
    for statement in statements {
        copies.push(statement.copy(alloc)?)?;
    }
    Ok(copies)
}

fn old_constants(alloc: Global, parameters: &[ParamPlace]) -> Result<List<i64>, NoMemory>
    ensures { IfOk result (λ olds. olds ≡ map (λ p. p.old) parameters.now) }
{
    let mut olds = List::new(alloc);
    for parameter in parameters {
        olds.push(parameter.old)?;
    }
    Ok(olds)
}

// The statements over the log's own columns and codes, with the places of the parameters.
#[derive(Drop)]
struct Body {
    statements: List<Statement>,
    parameters: List<ParamPlace>,
}

// The body of a log with these numbers, whose statements these are.
fn body_of(
    alloc: Global,
    tokens: &[Token],
    numbers: &[i64],
    stated: &[Stated],
) -> Result<Body, NoMemory>
    requires used { length (flat_map (λ s. s.uses) stated.now) < 2 ^ 32 }
    requires few { length stated.now < 2 ^ 31 }
    requires small { AreSmall numbers.now }
    ensures { IfOk result (λ body. body ≡ body_of tokens.now numbers.now stated.now) }
{
    let ids = ids_of(alloc, stated)?;
    let places = number_tokens(alloc, tokens)?;
    let parameters = parameters(alloc, places.as_slice(), numbers, stated)?;
    let statements = lower(alloc, numbers, ids.as_slice(), stated)?;
    Ok(Body {
        statements,
        parameters,
    })
}

// The body of the log that the lexemes spell, or its first fault.
fn read(
    alloc: Global,
    tokens: &[Token],
    numbers: &[i64],
    lexemes: &[Lexeme],
) -> Result<Body, LogFault>
    requires few { length lexemes.now < 2 ^ 30 }
    requires small { AreSmall numbers.now }
    ensures { Gives result (body_or tokens.now numbers.now (statements_of numbers.now lexemes.now)) }
{
    let stated = statements(alloc, lexemes, numbers)?;
    let body = body_of(alloc, tokens, numbers, stated.as_slice());
    drop(stated);
    Ok(body?)
}

/// What the tokens of a log say, or its first fault: the first statement with a fault counts, from 1, and of its faults the
/// first in the order of `LogFault`. The tokens are those of the bytes.
///
/// Keywords and names are taken in any case (ISO/IEC 9075-2). Statements stand between semicolons; a piece without tokens
/// is none. A number that `*` joins to a name is that column's coefficient, every other one a parameter. In the
/// statements a column is a place in the log's names, a code a place in its texts, both in the order in which they are
/// first seen, from 0, and `Param(k)` is the k-th parameter in text order, from 1. The time is linear in the log.
pub fn parse(alloc: Global, bytes: &[u8], tokens: &List<Token>) -> Result<Log, LogFault>
    requires tokens { TokensOf bytes.now tokens.now }
    requires few { length bytes.now < 2 ^ 30 }
    ensures { Gives result (log_of bytes.now tokens.now) }
{
    let lexed = lex(alloc, bytes, tokens.as_slice())?;
    match read(
        alloc,
        tokens.as_slice(),
        lexed.numbers.as_slice(),
        lexed.lexemes.as_slice(),
    ) {
        Ok(body) => {
            let Lexed { names, texts, .. } = lexed;
            let Body {
                statements,
                parameters,
            } = body;
            Ok(Log {
                names,
                texts,
                statements,
                parameters,
            })
        }
        Err(fault) => {
            drop(lexed);
            Err(fault)
        }
    }
}
