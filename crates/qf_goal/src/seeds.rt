// Where a repair has to change something.

ghost use Rattle.std.specs.Prelude.{◌≡◌, ◌<◌, ◌||◌, ℕ};
ghost use Rattle.std.specs.Option.{option_copied, ForSome};
ghost use Rattle.std.specs.List.{list_any, filter, AllByRecursion};
ghost use Rattle.qf_ir.specs.Value as meaning;
ghost use Rattle.qf_ir.specs.ColumnSets.{has};
ghost use Rattle.qf_ir.specs.Flow.{Place, same_place};
ghost use Rattle.qf_ir.specs.declared.cell.Cell.{Cell as RowCell};
ghost use Rattle.qf_goal.specs.SeedPlaces.{listed_places, differs, ask_seeds, seeds_by, ListsColumnsBelow};

use qf_ir::{Ask, Cell, ColumnSet, Outcome};

/// The cell of a column, from 0; past the last it is the number 0.
pub(crate) fn cell_at(cells: &[Cell], column: u32) -> Cell
    ensures { result ≡ meaning.cell_at cells.now column }
{
    let column = column as usize;
    if column < cells.len() {
        cells[column]
    } else {
        Cell::Int(0)
    }
}

fn differs(cells: &[Cell], listed: &(u32, Cell)) -> bool
    ensures { result ≡ differs cells.now listed.now }
{
    listed.1 != cell_at(cells, listed.0)
}

// Adds the listed columns.
fn add_listed(seeds: &mut ColumnSet, listed: &[(u32, Cell)])
    requires { AllByRecursion (λ (l : ℕ × RowCell). l.0 < 32) listed.now }
    ensures { (place : Place) → has seeds.new place ≡ (has seeds.old place || list_any (same_place place) (listed_places listed.now)) }
{
    for cell in listed {
        seeds.add(cell.0);
    }
}

// Adds the listed columns whose stated cell is not the old one.
fn add_changed(seeds: &mut ColumnSet, listed: &[(u32, Cell)], old: &[Cell])
    requires { AllByRecursion (λ (l : ℕ × RowCell). l.0 < 32) listed.now }
    ensures { (place : Place) → has seeds.new place ≡ (has seeds.old place || list_any (same_place place) (listed_places (filter (differs old.now) listed.now))) }
{
    for cell in listed {
        if differs(old, cell) {
            seeds.add(cell.0);
        }
    }
}

fn add_ask_seeds(seeds: &mut ColumnSet, ask: &Ask, old: &Outcome)
    requires { ListsColumnsBelow 32 ask.now }
    ensures { (place : Place) → has seeds.new place ≡ (has seeds.old place || list_any (same_place place) (ask_seeds ask.now old.now)) }
{
    match (ask, old) {
        (Ask::Absent, Outcome::Gone) => {}
        (Ask::Absent, Outcome::There(_)) => seeds.add_live(),
        (Ask::Present(listed), Outcome::Gone) => {
            seeds.add_live();
            add_listed(seeds, listed.as_slice());
        }
        (Ask::Present(listed), Outcome::There(cells)) => {
            add_changed(seeds, listed.as_slice(), cells.as_slice());
        }
    }
}

/// Adds what has to change of a row, by what is asked of it and its old outcome.
pub(crate) fn add_seeds(seeds: &mut ColumnSet, ask: Option<&Ask>, old: &Outcome)
    requires { ForSome (option_copied ask) (ListsColumnsBelow 32) }
    ensures { (place : Place) → has seeds.new place ≡ (has seeds.old place || list_any (same_place place) (seeds_by (option_copied ask.entry) old.now)) }
{
    match ask {
        None => {}
        Some(ask) => add_ask_seeds(seeds, ask, old),
    }
}
