// What complaints ask, in the terms of a program.

ghost use Rattle.std.specs.Prelude.{◌≡◌, ◌+◌, ◌-◌, ◌<◌, ◌≤◌, ◌^◌, List as Items, ℕ, IfOk, OnOk, length, map};
ghost use Rattle.std.specs.List.{flat_map, AllByRecursion};
ghost use Rattle.qf_ir.specs.Texts.{with_texts};
ghost use Rattle.qf_forms.specs.Stated.{stated_by};
ghost use Rattle.qf_forms.specs.declared.complaint.Complaint.{Complaint as Element};
ghost use Rattle.qf_goal.specs.Asked as spec;
ghost use Rattle.qf_goal.specs.Asked.{is_called, text_of, text_in, listed_cell, stated_texts, with_joined};

use qf_base::{List, Name, NoMemory, RowName};
use qf_forms::{Complaint, Wish, WishCell};
use qf_ir::{Ask, Cell, Column, Program};
use std::alloc::Global;

// The place of the column with this name, from 0, or how many columns there are.
fn place_of(columns: &[Column], name: &str) -> usize
    ensures place { result ≡ spec.place_of columns.now name.now }
    ensures within { result ≤ length columns.now }
{
    for (place, column) in columns.iter().enumerate() {
        if column.name.as_str() == name {
            return place;
        }
    }
    columns.len()
}

fn cell_of(program: &mut Program, value: &WishCell) -> Result<Cell, NoMemory>
    requires { length program.old.texts < 2 ^ 32 - 1 }
    ensures cell { IfOk result (λ cell. cell ≡ spec.cell_of program.old.texts value.now) }
    ensures plan { OnOk result (program.new ≡ with_joined program.old (text_of value.now)) }
{
    match value {
        WishCell::Int(number) => Ok(Cell::Int(*number)),
        WishCell::Text(text) => Ok(Cell::Text(program.code(text.as_str())?)),
    }
}

fn listed(program: &mut Program, stated: &(Name, WishCell)) -> Result<(u32, Cell), NoMemory>
    requires columns { length program.old.columns ≤ 32 }
    requires texts { length program.old.texts < 2 ^ 32 - 1 }
    ensures listed { IfOk result (λ l. l ≡ listed_cell program.old.columns program.old.texts stated.now) }
    ensures plan { OnOk result (program.new ≡ with_joined program.old (text_in stated.now)) }
{
    let place = place_of(program.columns().as_slice(), stated.0.as_str());
    let cell = cell_of(program, &stated.1)?;
    Ok((place as u32, cell))
}

fn listed_cells(
    alloc: Global,
    program: &mut Program,
    stated: &[(Name, WishCell)],
) -> Result<List<(u32, Cell)>, NoMemory>
    requires columns { length program.old.columns ≤ 32 }
    requires texts { length program.old.texts + length stated.now < 2 ^ 32 - 1 }
    ensures cells { IfOk result (λ cells. (more : Items (Items ℕ)) → cells ≡ map (listed_cell program.old.columns (with_texts program.new.texts more)) stated.now) }
    ensures plan { OnOk result (program.new ≡ with_joined program.old (flat_map text_in stated.now)) }
{
    let mut cells = List::new(alloc);
    for value in stated {
        cells.push(listed(program, value)?)?;
    }
    Ok(cells)
}

fn ask_of(alloc: Global, program: &mut Program, wish: &Wish) -> Result<Ask, NoMemory>
    requires columns { length program.old.columns ≤ 32 }
    requires texts { length program.old.texts + length (stated_by wish.now) < 2 ^ 32 - 1 }
    ensures ask { IfOk result (λ ask. (more : Items (Items ℕ)) → ask ≡ spec.ask_of program.old.columns (with_texts program.new.texts more) wish.now) }
    ensures plan { OnOk result (program.new ≡ with_joined program.old (flat_map text_in (stated_by wish.now))) }
{
    match wish {
        Wish::Absent => Ok(Ask::Absent),
        Wish::Present(stated) => Ok(Ask::Present(listed_cells(alloc, program, stated.as_slice())?)),
    }
}

/// What the complaints ask; the program comes to know their texts.
pub(crate) fn asks_of(
    alloc: Global,
    program: &mut Program,
    complaints: &[Complaint],
) -> Result<List<(RowName, Ask)>, NoMemory>
    requires columns { length program.old.columns ≤ 32 }
    requires texts { length program.old.texts < 2 ^ 31 }
    requires few { length complaints.now ≤ 1000 }
    requires few_cells { AllByRecursion (λ (c : Element). length (stated_by c.wish) ≤ 32) complaints.now }
    ensures asks { IfOk result (λ asks. asks ≡ spec.asks_of program.old.columns program.new.texts complaints.now) }
    ensures plan { OnOk result (program.new ≡ with_joined program.old (stated_texts complaints.now)) }
{
    let mut asks = List::new(alloc);
    for complaint in complaints {
        asks.push((complaint.row, ask_of(alloc, program, &complaint.wish)?))?;
    }
    Ok(asks)
}
