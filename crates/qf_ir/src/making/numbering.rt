ghost use Rattle.std.specs.Prelude.{◌≡◌, ◌+◌, ◌<◌, ◌≤◌, ◌^◌, length, map, IfOk, OnOk};
ghost use Rattle.qf_ir.specs.Texts.{code_in, with_texts};
ghost use Rattle.qf_ir.specs.Tables.{names_of};
ghost use Rattle.qf_ir.specs.Numbered.{found_at};

use crate::table::{Column, Table};
use crate::texts::Texts;
use qf_base::{List, Name, NoMemory};
use std::alloc::Global;
use std::marker::Model;

const NOWHERE: u32 = u32::MAX;

/// For each of a log's names its column of the table, or the number of columns where it is none; for each of its texts
/// its code in the joint list.
#[derive(Drop)]
pub(crate) struct Numbering {
    pub(crate) columns: List<u32>,
    pub(crate) codes: List<u32>,
}

impl Model for Numbering {
    ghost use Rattle.qf_ir.specs.Numbered.{Numbering as Places};

    ghost Value = { Places };

    ghost view = { λ n. record { columns = n.columns; codes = n.codes } };
}

// The number at a place, and nowhere past the end.
fn found_at(places: &[u32], place: u32) -> u32
    ensures { result ≡ found_at places.now place }
{
    let place = place as usize;
    if place < places.len() {
        places[place]
    } else {
        NOWHERE
    }
}

impl Numbering {
    /// The column of a name by its place.
    pub(crate) fn column(&self, place: u32) -> u32
        ensures { result ≡ found_at self.now.columns place }
    {
        found_at(self.columns.as_slice(), place)
    }

    /// The code of a text by its place.
    pub(crate) fn code(&self, place: u32) -> u32
        ensures { result ≡ found_at self.now.codes place }
    {
        found_at(self.codes.as_slice(), place)
    }
}

// The column of a name, or the number of columns.
fn column_of(columns: &[Column], name: &str) -> u32
    requires { length columns.now ≤ 32 }
    ensures { result ≡ code_in (names_of columns.now) name.now }
{
    for (place, column) in columns.iter().enumerate() {
        if column.name.as_str() == name {
            return place as u32;
        }
    }
    columns.len() as u32
}

/// The columns of names.
pub(crate) fn columns_of(
    alloc: Global,
    columns: &[Column],
    names: &[Name],
) -> Result<List<u32>, NoMemory>
    requires { length columns.now ≤ 32 }
    ensures { IfOk result (λ places. places ≡ map (code_in (names_of columns.now)) names.now) }
{
    let mut places = List::new(alloc);
    for name in names {
        places.push(column_of(columns, name.as_str()))?;
    }
    Ok(places)
}

/// Adds the texts of a list in turn to the joint list, and gives their codes in it.
pub(crate) fn add_texts(
    alloc: Global,
    joint: &mut Texts,
    texts: &Texts,
) -> Result<List<u32>, NoMemory>
    requires { length joint.old + length texts.now < 2 ^ 32 }
    ensures codes { IfOk result (λ codes. codes ≡ map (code_in (with_texts joint.old texts.now)) texts.now) }
    ensures joint { OnOk result (joint.new ≡ with_texts joint.old texts.now) }
{
    let mut codes = List::new(alloc);
    for code in 0..texts.len() as u32 {
        codes.push(joint.code(texts.text(code))?)?;
    }
    Ok(codes)
}

/// Equal columns.
pub(crate) fn copy_columns(alloc: Global, columns: &[Column]) -> Result<List<Column>, NoMemory>
    ensures { IfOk result (λ copies. copies ≡ columns.now) }
{
    let mut copies = List::new(alloc);
    for column in columns {
        let name = column.name.copy(alloc)?;
        copies.push(Column {
            name,
            kind: column.kind,
        })?;
    }
    Ok(copies)
}
