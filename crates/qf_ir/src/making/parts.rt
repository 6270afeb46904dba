ghost use Rattle.std.specs.Prelude.{◌≡◌, ◌<◌, ◌^◌, length, IfOk, OnOk, IfErr, Err};
ghost use Rattle.qf_ir.specs.Tables.{IsSoundTable, kinds_of};
ghost use Rattle.qf_ir.specs.Replay.{inserted_count};
ghost use Rattle.qf_ir.specs.Numbered.{joint_texts};
ghost use Rattle.qf_ir.specs.Steps.{Passes};
ghost use Rattle.qf_ir.specs.Making.{numbered_log, IsFaultless, AreCodedTexts, AreParts};

use crate::ast::Statement;
use crate::fault::IrFault;
use crate::making::faults::check;
use crate::making::numbering::{Numbering, add_texts, columns_of, copy_columns};
use crate::making::renumber::renumbered;
use crate::table::{Column, Table};
use crate::texts::Texts;
use qf_base::{List, Name, NoMemory};
use std::alloc::Global;

// The joint list of texts, and the statements with the program's columns and codes.
#[derive(Drop)]
struct Coded {
    texts: Texts,
    statements: List<Statement>,
}

/// All of a program but for its constants.
#[derive(Drop)]
pub(crate) struct Parts {
    pub(crate) columns: List<Column>,
    pub(crate) statements: List<Statement>,
    pub(crate) texts: Texts,
    pub(crate) inserted: u32,
}

// The statements with the program's columns and codes, whose texts come into the joint list.
fn numbered(
    alloc: Global,
    table: &Table,
    names: &[Name],
    texts: &Texts,
    joint: &mut Texts,
    statements: &[Statement],
) -> Result<List<Statement>, NoMemory>
    requires table { IsSoundTable table.now }
    requires few_texts { length texts.now < 2 ^ 30 }
    requires joint { joint.old ≡ table.now.texts }
    ensures statements { IfOk result (λ made. made ≡ numbered_log table.now names.now texts.now statements.now) }
    ensures joint { OnOk result (joint.new ≡ joint_texts table.now texts.now) }
{
    let columns = columns_of(alloc, table.columns.as_slice(), names)?;
    let codes = add_texts(alloc, joint, texts)?;
    renumbered(alloc, &Numbering { columns, codes }, statements)
}

fn with_codes(
    alloc: Global,
    table: &Table,
    names: &[Name],
    texts: &Texts,
    statements: &[Statement],
) -> Result<Coded, NoMemory>
    requires table { IsSoundTable table.now }
    requires few_texts { length texts.now < 2 ^ 30 }
    ensures { IfOk result (λ coded. AreCodedTexts table.now names.now texts.now statements.now coded) }
{
    let mut joint = table.texts.copy(alloc)?;
    match numbered(alloc, table, names, texts, &mut joint, statements) {
        Ok(statements) => Ok(Coded {
            texts: joint,
            statements,
        }),
        Err(fault) => {
            drop(joint);
            Err(fault)
        }
    }
}

// The table's columns and how many rows the statements insert, or their first fault.
fn judged(
    alloc: Global,
    table: &Table,
    statements: &[Statement],
) -> Result<(List<Column>, u32), IrFault>
    requires table { IsSoundTable table.now }
    ensures columns { IfOk result (λ judged. judged.0 ≡ table.now.columns) }
    ensures inserted { IfOk result (λ judged. judged.1 ≡ inserted_count statements.now) }
    ensures faultless { OnOk result (IsFaultless table.now statements.now) }
    ensures fault { IfErr result (λ fault. Passes (kinds_of table.now.columns) (length table.now.rows) statements.now (Err fault)) }
{
    let inserted = check(alloc, table, statements)?;
    let columns = copy_columns(alloc, table.columns.as_slice())?;
    Ok((columns, inserted))
}

/// All of the program that statements over a table make, but for its constants, or the statements' first fault.
pub(crate) fn parts_of(
    alloc: Global,
    table: &Table,
    names: &[Name],
    texts: &Texts,
    statements: &[Statement],
) -> Result<Parts, IrFault>
    requires table { IsSoundTable table.now }
    requires few_texts { length texts.now < 2 ^ 30 }
    ensures made { IfOk result (λ made. AreParts table.now names.now texts.now statements.now made) }
    ensures fault { IfErr result (λ fault. Passes (kinds_of table.now.columns) (length table.now.rows) (numbered_log table.now names.now texts.now statements.now) (Err fault)) }
{
    let coded = with_codes(alloc, table, names, texts, statements)?;
    match judged(alloc, table, coded.statements.as_slice()) {
        Ok((columns, inserted)) => {
            let Coded { texts, statements } = coded;
            Ok(Parts {
                columns,
                statements,
                texts,
                inserted,
            })
        }
        Err(fault) => {
            drop(coded);
            Err(fault)
        }
    }
}
