// What is known of all rows at once.

ghost use Rattle.std.specs.Prelude.{◌≡◌, ◌+◌, ◌<◌, ◌≤◌, ◌||◌, ◌∷◌, ◌++◌, [], false, OnOk, IfOk, length, is_some, if◌then◌else◌};
ghost use Rattle.std.specs.Option.{option_copied, ForSome};
ghost use Rattle.std.specs.List.{list_any, AllByRecursion};
ghost use Rattle.qf_ir.specs.ColumnSets.{has};
ghost use Rattle.qf_ir.specs.Flow.{Place, same_place};
ghost use Rattle.qf_ir.specs.Goals as asked;
ghost use Rattle.qf_goal.specs.SeedPlaces.{seeds_by, ListsColumnsBelow};
ghost use Rattle.qf_ir.specs.Plan.{Belongs, FitsAt};
ghost use Rattle.qf_base.specs.declared.names.RowName.{RowName as Row};
ghost use Rattle.qf_ir.specs.declared.cell.Ask.{Ask as Wanted};
ghost use Rattle.qf_replay.specs.BirthPlaces.{births_of};
ghost use Rattle.qf_goal.specs.Kept.{AreAimsOf};
ghost use Rattle.qf_goal.specs.RowPlaces as places;
ghost use Rattle.qf_goal.specs.RowPlaces.{ask_by, plan_rows, marks_of, asked_rows};

use crate::goal::goal_of;
use crate::marks::{row_at, row_count};
use crate::seeds::add_seeds;
use qf_base::{List, NoMemory, Point, RowName};
use qf_ir::{Ask, ColumnSet, Goal, Outcome, Program, Table};
use qf_replay::{Births, Room};
use std::alloc::Global;

/// The goals of rows in row order, those of them that a complaint is about, and where a repair has to change something.
#[derive(Drop)]
pub(crate) struct Aims {
    pub(crate) goals: List<Goal>,
    pub(crate) complained: List<RowName>,
    pub(crate) seeds: ColumnSet,
}

impl Aims {
    /// No rows.
    pub(crate) fn new(alloc: Global) -> Aims
        ensures goals { result.goals ≡ [] }
        ensures complained { result.complained ≡ [] }
        ensures seeds { (place : Place) → has result.seeds place ≡ false }
    {
        Aims {
            goals: List::new(alloc),
            complained: List::new(alloc),
            seeds: ColumnSet::new(),
        }
    }

    /// Adds the next row, by what is asked of it and its old outcome.
    pub(crate) fn add(
        &mut self,
        alloc: Global,
        width: u32,
        row: RowName,
        ask: Option<&Ask>,
        old: &Outcome,
    ) -> Result<(), NoMemory>
        requires { ForSome (option_copied ask) (ListsColumnsBelow 32) }
        ensures goals { OnOk result (self.new.goals ≡ self.old.goals ++ asked.goal_of width (option_copied ask.entry) old.now ∷ []) }
        ensures complained { OnOk result (self.new.complained ≡ self.old.complained ++ (if is_some (option_copied ask.entry) then row ∷ [] else [])) }
        ensures seeds { OnOk result ((place : Place) → has self.new.seeds place ≡ (has self.old.seeds place || list_any (same_place place) (seeds_by (option_copied ask.entry) old.now))) }
    {
        self.goals.push(goal_of(alloc, width, ask, old)?)?;
        if ask.is_some() {
            self.complained.push(row)?;
        }
        add_seeds(&mut self.seeds, ask, old);
        Ok(())
    }
}

// What the complaint at this place, from 0, asks.
fn ask_at(asks: &[(RowName, Ask)], mark: Option<u32>) -> Option<&Ask>
    requires { ForSome mark (λ place. place < length asks.now) }
    ensures { option_copied result ≡ ask_by asks.now mark }
{
    match mark {
        None => None,
        Some(place) => Some(&asks[place as usize].1),
    }
}

// What is asked of the row at a place in row order.
fn ask_of<'a>(
    program: &Program,
    asks: &'a [(RowName, Ask)],
    marks: &List<Option<u32>>,
    place: u32,
) -> Option<&'a Ask>
    requires marks { marks.now ≡ marks_of program.now (asked_rows asks.now) }
    requires within { place < program.now.starts + program.now.inserted }
    ensures { option_copied result ≡ asked.ask_for asks.now (places.row_at program.now.starts place) }
{
    ask_at(asks, *marks.at(u64::from(place)))
}

/// What is known of all rows, of which each has a mark that tells its complaint.
pub(crate) fn aims_of(
    alloc: Global,
    program: &Program,
    table: &Table,
    births: &Births,
    asks: &[(RowName, Ask)],
    marks: &List<Option<u32>>,
) -> Result<Aims, NoMemory>
    requires few { program.now.starts + program.now.inserted ≤ 200000 }
    requires few_columns { length program.now.columns ≤ 32 }
    requires belongs { Belongs program.now table.now }
    requires fits { FitsAt program.now table.now program.now.olds }
    requires births { births.now ≡ births_of program.now.statements }
    requires marks { marks.now ≡ marks_of program.now (asked_rows asks.now) }
    requires columns { AllByRecursion (λ (a : Row × Wanted). ListsColumnsBelow 32 a.1) asks.now }
    ensures { IfOk result (AreAimsOf program.now table.now asks.now (plan_rows program.now)) }
{
    let olds = Point::new(alloc, program.olds())?;
    let width = program.columns().len() as u32;
    let mut room = Room::new(alloc, program)?;
    let mut aims = Aims::new(alloc);
    for place in 0..row_count(program) {
        let row = row_at(program, place);
        let old = room.outcome(alloc, program, table, births, row, &olds)?;
        let ask = ask_of(program, asks, marks, place);
        aims.add(alloc, width, row, ask, &old)?;
    }
    Ok(aims)
}
