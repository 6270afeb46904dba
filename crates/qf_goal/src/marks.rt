// Which complaint is about a row.

ghost use Rattle.std.specs.Prelude.{◌≡◌, ◌≢◌, ◌+◌, ◌<◌, ◌≤◌, List as Items, length, replicate, slice_get, Some, None, IfOk, IfErr, OnOk, [], is_some};
ghost use Rattle.qf_ir.specs.Plan.{RowExists};
ghost use Rattle.qf_base.specs.declared.names.RowName.{RowName as Row};
ghost use Rattle.std.specs.List.{list_any};
ghost use Rattle.qf_goal.specs.Asked.{is_row, fault_of, first_fault};
ghost use Rattle.qf_goal.specs.RowPlaces as places;
ghost use Rattle.qf_goal.specs.RowPlaces.{marks_of, rows_in};

use crate::GoalFault;
use crate::checks::{row_exists, stated, stated_fault};
use qf_base::{List, NoMemory, RowName};
use qf_forms::Complaint;
use qf_ir::Program;
use std::alloc::Global;

/// The place of a row in row order, from 0.
pub(crate) fn row_place(program: &Program, row: RowName) -> u32
    requires few { program.now.starts + program.now.inserted ≤ 200000 }
    requires exists { RowExists program.now row }
    ensures place { result ≡ places.row_place program.now.starts row }
    ensures within { result < program.now.starts + program.now.inserted }
{
    match row {
        RowName::Start(number) => number - 1,
        RowName::Inserted(number) => program.starts() + (number - 1),
    }
}

/// The row at a place.
pub(crate) fn row_at(program: &Program, place: u32) -> RowName
    requires few { program.now.starts + program.now.inserted ≤ 200000 }
    requires within { place < program.now.starts + program.now.inserted }
    ensures row { result ≡ places.row_at program.now.starts place }
    ensures exists { RowExists program.now result }
{
    let starts = program.starts();
    if place < starts {
        RowName::Start(place + 1)
    } else {
        RowName::Inserted(place - starts + 1)
    }
}

/// How many rows there are.
pub(crate) fn row_count(program: &Program) -> u32
    requires { program.now.starts + program.now.inserted ≤ 200000 }
    ensures { result ≡ program.now.starts + program.now.inserted }
{
    program.starts() + program.inserted()
}

fn no_marks(alloc: Global, program: &Program) -> Result<List<Option<u32>>, NoMemory>
    requires { program.now.starts + program.now.inserted ≤ 200000 }
    ensures { IfOk result (λ marks. marks ≡ marks_of program.now []) }
{
    let count = row_count(program);
    let mut marks = List::new(alloc);
    for _place in 0..count {
        marks.push(None)?;
    }
    Ok(marks)
}

fn is_marked(program: &Program, marks: &List<Option<u32>>, row: RowName) -> bool
    requires few { program.now.starts + program.now.inserted ≤ 200000 }
    requires marks { length marks.now ≡ program.now.starts + program.now.inserted }
    requires exists { RowExists program.now row }
    ensures { (earlier : Items Row) → marks.now ≡ marks_of program.now earlier → result ≡ list_any (is_row row) earlier }
{
    let place = row_place(program, row);
    marks.at(u64::from(place)).is_some()
}

// What is wrong with a complaint of this number, where earlier ones have left these marks.
fn fault_in(
    program: &Program,
    marks: &List<Option<u32>>,
    number: u32,
    complaint: &Complaint,
) -> Option<GoalFault>
    requires few { program.now.starts + program.now.inserted ≤ 200000 }
    requires marks { length marks.now ≡ program.now.starts + program.now.inserted }
    ensures fault { (earlier : Items Row) → marks.now ≡ marks_of program.now earlier → result ≡ fault_of program.now earlier number complaint.now }
    ensures exists { result ≡ None → RowExists program.now complaint.now.row }
{
    if !row_exists(program, complaint.row) {
        return Some(GoalFault::UnknownRow(number));
    }
    if is_marked(program, marks, complaint.row) {
        return Some(GoalFault::RepeatedRow(number));
    }
    stated_fault(
        program.columns().as_slice(),
        number,
        stated(&complaint.wish),
    )
}

/// The place, from 0, of the complaint about each row, in row order; else the fault of the first complaint with one.
pub(crate) fn marks_of(
    alloc: Global,
    program: &Program,
    complaints: &[Complaint],
) -> Result<List<Option<u32>>, GoalFault>
    requires few { program.now.starts + program.now.inserted ≤ 200000 }
    requires few_complaints { length complaints.now ≤ 1000 }
    ensures marks { IfOk result (λ marks. marks ≡ marks_of program.now (rows_in complaints.now)) }
    ensures none { OnOk result (first_fault program.now [] 1 complaints.now ≡ None) }
    ensures fault { IfErr result (λ fault. fault ≢ GoalFault.NoMemory → first_fault program.now [] 1 complaints.now ≡ Some fault) }
{
    let mut marks = no_marks(alloc, program)?;
    for (i, complaint) in complaints.iter().enumerate() {
        match fault_in(program, &marks, i as u32 + 1, complaint) {
            Some(fault) => return Err(fault),
            None => {
                let place = row_place(program, complaint.row);
                marks.set(u64::from(place), Some(i as u32));
            }
        }
    }
    Ok(marks)
}
