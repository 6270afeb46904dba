// What is wrong with a complaint.

ghost use Rattle.qf_forms.specs.Stated.{stated_by};
ghost use Rattle.std.specs.Prelude.{◌≡◌};
ghost use Rattle.std.specs.Option.{option_copied};
ghost use Rattle.std.specs.List.{list_any, find};
ghost use Rattle.qf_goal.specs.Asked.{is_called, is_unknown, is_other_kind, is_mistyped, row_exists, stated_fault};

use crate::GoalFault;
use qf_base::{Name, RowName};
use qf_forms::{Complaint, Wish, WishCell};
use qf_ir::{Column, ColumnKind, Program};

/// The values that a wish states.
pub(crate) fn stated(wish: &Wish) -> &[(Name, WishCell)]
    ensures { result.now ≡ stated_by wish.now }
{
    match wish {
        Wish::Absent => &[],
        Wish::Present(stated) => stated.as_slice(),
    }
}

/// Whether the row is one of the table's or one that the log inserts.
pub(crate) fn row_exists(program: &Program, row: RowName) -> bool
    ensures { result ≡ row_exists program.now row }
{
    match row {
        RowName::Start(number) => 1 <= number && number <= program.starts(),
        RowName::Inserted(number) => 1 <= number && number <= program.inserted(),
    }
}

fn column_called<'a>(columns: &'a [Column], name: &str) -> Option<&'a Column>
    ensures { option_copied result ≡ find (is_called name.now) columns.now }
{
    columns.iter().find(|column| column.name.as_str() == name)
}

fn has_column(columns: &[Column], name: &str) -> bool
    ensures { result ≡ list_any (is_called name.now) columns.now }
{
    columns.iter().any(|column| column.name.as_str() == name)
}

fn is_unknown(columns: &[Column], stated: &(Name, WishCell)) -> bool
    ensures { result ≡ is_unknown columns.now stated.now }
{
    !has_column(columns, stated.0.as_str())
}

fn is_other_kind(value: &WishCell, kind: ColumnKind) -> bool
    ensures { result ≡ is_other_kind value.now kind }
{
    match (value, kind) {
        (WishCell::Int(_), ColumnKind::Int) => false,
        (WishCell::Int(_), ColumnKind::Text) => true,
        (WishCell::Text(_), ColumnKind::Int) => true,
        (WishCell::Text(_), ColumnKind::Text) => false,
    }
}

fn is_mistyped(columns: &[Column], stated: &(Name, WishCell)) -> bool
    ensures { result ≡ is_mistyped columns.now stated.now }
{
    match column_called(columns, stated.0.as_str()) {
        None => false,
        Some(column) => is_other_kind(&stated.1, column.kind),
    }
}

fn some_unknown(columns: &[Column], stated: &[(Name, WishCell)]) -> bool
    ensures { result ≡ list_any (is_unknown columns.now) stated.now }
{
    stated.iter().any(|value| is_unknown(columns, value))
}

fn some_mistyped(columns: &[Column], stated: &[(Name, WishCell)]) -> bool
    ensures { result ≡ list_any (is_mistyped columns.now) stated.now }
{
    stated.iter().any(|value| is_mistyped(columns, value))
}

/// What is wrong with the values that a complaint of this number states.
pub(crate) fn stated_fault(
    columns: &[Column],
    number: u32,
    stated: &[(Name, WishCell)],
) -> Option<GoalFault>
    ensures { result ≡ stated_fault columns.now number stated.now }
{
    if some_unknown(columns, stated) {
        Some(GoalFault::ComplaintColumn(number))
    } else if some_mistyped(columns, stated) {
        Some(GoalFault::ComplaintType(number))
    } else {
        None
    }
}
