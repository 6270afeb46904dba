ghost use Rattle.qf_forms.specs.Stated.{StatesNamesOnce, StatesSmallNumbers};
ghost use Rattle.std.specs.Prelude.{◌≡◌, ◌<◌, ◌^◌, ◌↔◌, None, Some, Ok, Err, IfOk, IfErr, length, slice_get};
ghost use Rattle.std.specs.List.{list_any, find, AllByRecursion};
ghost use Rattle.qf_base.specs.Values.{In};
ghost use Rattle.qf_ir.specs.ColumnSets.{has};
ghost use Rattle.qf_ir.specs.Flow.{Place, same_place};
ghost use Rattle.qf_ir.specs.Plan.{IsSound, Belongs, Fits, FitsAt, RowExists};
ghost use Rattle.qf_ir.specs.Tables.{IsSoundTable};
ghost use Rattle.qf_base.specs.declared.names.RowName.{RowName as Row};
ghost use Rattle.qf_ir.specs.declared.cell.Ask.{Ask as Wanted};
ghost use Rattle.qf_replay.specs.BirthPlaces.{births_of};
ghost use Rattle.qf_goal.specs.Case.{Case as Problems};
ghost use Rattle.qf_goal.specs.Case.{case_rows, goal_at, mends, Mends, is_complained, complained_rows, misses, first_failing};
ghost use Rattle.qf_goal.specs.Kept.{misses_unasked, AreAimsOf, IsKept};
ghost use Rattle.qf_goal.specs.RowPlaces.{asked_rows, plan_rows, marks_of as row_marks};
ghost use Rattle.qf_goal.specs.SeedPlaces.{case_seeds, ListsColumnsBelow};
ghost use Rattle.qf_goal.specs.Asked.{problem_of};
ghost use Rattle.qf_goal.specs.SoundCase.{IsSoundCase};
ghost use Rattle.qf_goal.specs.Faults.{Gives};

use crate::GoalFault;
use crate::aims::{Aims, aims_of};
use crate::asks::asks_of;
use crate::marks::{marks_of, row_at, row_count, row_place};
use qf_base::{List, NoMemory, Point, RowName};
use qf_forms::Complaint;
use qf_ir::{Ask, ColumnSet, Goal, Program, Table};
use qf_point::Domains;
use qf_replay::{Births, Room};
use std::alloc::Global;
use std::marker::Model;

const MOST_COMPLAINTS: u64 = 1000;

/// Complaints about the final rows of a program over a table, with the domains of the program's constants (X. Wang,
/// A. Meliou, E. Wu, "QFix: Diagnosing Errors through Query Histories", SIGMOD 2017). It knows what every row has to
/// become: a complained row what the complaint says, and every other row what the program makes of it with its old
/// constants.
#[derive(Drop)]
pub struct Problem {
    program: Program,
    table: Table,
    domains: Domains,
    asks: List<(RowName, Ask)>,
    births: Births,
    marks: List<Option<u32>>,
    aims: Aims,
}

impl Model for Problem {
    ghost use Rattle.qf_goal.specs.Case.{Case};
    ghost use Rattle.qf_goal.specs.Kept.{IsKept};
    ghost use Rattle.qf_ir.specs.contracts.ast.Cond as cond;
    ghost use Rattle.std.specs.Coded.{codes};

    ghost Value = { Case };

    ghost coded = { Prim.hlevel (codes, cond.the_row.coded) };

    ghost view = { λ p. record { plan = p.program; table = p.table; asks = p.asks; domains = p.domains } };

    ghost invariant = { λ p. IsKept (record { plan = p.program; table = p.table; asks = p.asks; domains = p.domains }) p.births p.marks p.aims };
}

// What is known of every program and of all domains.
fn note_sound(program: &Program, domains: &Domains)
    ensures program { IsSound program.now }
    ensures domains { In domains.now.region domains.now.olds }
{
    let _statements = program.statements();
    let _region = domains.region();
}

// What is asked of a program, and what is known beside it.
#[derive(Drop)]
struct Made {
    asks: List<(RowName, Ask)>,
    marks: List<Option<u32>>,
    births: Births,
    aims: Aims,
}

// Where rows are born, and what is known of all rows, of which each has a mark that tells its complaint.
fn known(
    alloc: Global,
    program: &Program,
    table: &Table,
    asks: &[(RowName, Ask)],
    marks: &List<Option<u32>>,
) -> Result<(Births, Aims), NoMemory>
    requires sound { IsSound program.now }
    requires belongs { Belongs program.now table.now }
    requires fits { FitsAt program.now table.now program.now.olds }
    requires marks { marks.now ≡ row_marks program.now (asked_rows asks.now) }
    requires columns { AllByRecursion (λ (a : Row × Wanted). ListsColumnsBelow 32 a.1) asks.now }
    ensures births { IfOk result (λ known. known.0 ≡ births_of program.now.statements) }
    ensures aims { IfOk result (λ known. AreAimsOf program.now table.now asks.now (plan_rows program.now) known.1) }
{
    let births = Births::new(alloc, program)?;
    match aims_of(alloc, program, table, &births, asks, marks) {
        Ok(aims) => Ok((births, aims)),
        Err(fault) => {
            drop(births);
            Err(fault)
        }
    }
}

// What the complaints ask, and what is known beside it; the program comes to know their texts.
fn worked(
    alloc: Global,
    program: &mut Program,
    table: &Table,
    complaints: &List<Complaint>,
    domains: &Domains,
) -> Result<Made, GoalFault>
    requires table { IsSoundTable table.now }
    requires belongs { Belongs program.old table.now }
    requires olds { domains.now.olds ≡ program.old.olds }
    requires fits { Fits program.old table.now domains.now.region }
    requires few_texts { length program.old.texts < 2 ^ 31 }
    requires names { AllByRecursion StatesNamesOnce complaints.now }
    requires numbers { AllByRecursion StatesSmallNumbers complaints.now }
    ensures made { IfOk result (λ made. problem_of program.old table.now complaints.now domains.now ≡ Ok (record { plan = program.new; table = table.now; asks = made.asks; domains = domains.now })) }
    ensures kept { IfOk result (λ made. IsKept (record { plan = program.new; table = table.now; asks = made.asks; domains = domains.now }) made.births made.marks made.aims) }
    ensures fault { IfErr result (λ fault. Gives {X = Problems} (Err fault) (problem_of program.old table.now complaints.now domains.now)) }
{
    if complaints.len() > MOST_COMPLAINTS {
        return Err(GoalFault::TooManyComplaints);
    }
    note_sound(program, domains);
    let marks = marks_of(alloc, program, complaints.as_slice())?;
    let asks = asks_of(alloc, program, complaints.as_slice())?;
    note_sound(program, domains);
    let (births, aims) = known(alloc, program, table, asks.as_slice(), &marks)?;
    Ok(Made {
        asks,
        marks,
        births,
        aims,
    })
}

impl Problem {
    /// The problem that the complaints make of a program, its table and its domains. A row and, in each complaint, the
    /// columns must exist and the values be of their columns' types; the refusal is that of the first complaint with a
    /// fault, which counts from 1, and of one complaint's faults the first in the order of `GoalFault`. The program comes
    /// to know the texts that the complaints state, in their order. After a refusal program, table and domains are dropped.
    pub fn new(
        alloc: Global,
        program: Program,
        table: Table,
        complaints: &List<Complaint>,
        domains: Domains,
    ) -> Result<Problem, GoalFault>
        requires table { IsSoundTable table }
        requires belongs { Belongs program table }
        requires olds { domains.olds ≡ program.olds }
        requires fits { Fits program table domains.region }
        requires few_texts { length program.texts < 2 ^ 31 }
        requires names { AllByRecursion StatesNamesOnce complaints.now }
        requires numbers { AllByRecursion StatesSmallNumbers complaints.now }
        ensures { Gives result (problem_of program table complaints.now domains) }
    {
        let mut program = program;
        match worked(alloc, &mut program, &table, complaints, &domains) {
            Ok(made) => {
                let Made {
                    asks,
                    marks,
                    births,
                    aims,
                } = made;
                Ok(Problem {
                    program,
                    table,
                    domains,
                    asks,
                    births,
                    marks,
                    aims,
                })
            }
            Err(fault) => {
                drop(program);
                drop(table);
                drop(domains);
                Err(fault)
            }
        }
    }

    /// The program, which knows the texts of the complaints too.
    pub fn program(&self) -> &Program
        ensures value { result.now ≡ self.now.plan }
        ensures sound { IsSoundCase self.now }
    {
        &self.program
    }

    /// The table on which the program runs.
    pub fn table(&self) -> &Table
        ensures { result.now ≡ self.now.table }
    {
        &self.table
    }

    /// The values that the program's constants may take.
    pub fn domains(&self) -> &Domains
        ensures { result.now ≡ self.now.domains }
    {
        &self.domains
    }

    /// What a row has to become.
    pub fn goal(&self, row: RowName) -> &Goal
        requires { RowExists self.now.plan row }
        ensures { result.now ≡ goal_at self.now row }
    {
        self.aims.goals.at(u64::from(row_place(&self.program, row)))
    }

    /// Whether a complaint is about the row.
    pub fn complained(&self, row: RowName) -> bool
        requires { RowExists self.now.plan row }
        ensures { result ≡ is_complained self.now row }
    {
        let place = row_place(&self.program, row);
        self.marks.at(u64::from(place)).is_some()
    }

    /// The rows that complaints are about, in row order.
    pub fn complained_rows(&self) -> &List<RowName>
        ensures rows { result.now ≡ complained_rows self.now }
        ensures exist { AllByRecursion (RowExists self.now.plan) result.now }
    {
        &self.aims.complained
    }

    /// The columns, with `live` among them, that a repair has to change for some row.
    pub fn seeds(&self) -> &ColumnSet
        ensures { (place : Place) → has result.now place ≡ list_any (same_place place) (case_seeds self.now) }
    {
        &self.aims.seeds
    }

    /// The first row that misses its goal at the point: the rows that complaints are about come first in row order, then
    /// the others in row order. None comes exactly where every row meets its goal.
    pub fn first_failing(&self, alloc: Global, point: &Point) -> Result<Option<RowName>, NoMemory>
        requires { In self.now.domains.region point.now }
        ensures first { IfOk result (λ row. row ≡ first_failing self.now point.now) }
        ensures none { IfOk result (λ row. (row ≡ None) ↔ Mends self.now point.now) }
    {
        let mut room = self.room(alloc)?;
        match self.first_complained(&mut room, point) {
            Some(row) => Ok(Some(row)),
            None => Ok(self.first_other(&mut room, point)),
        }
    }

    /// Whether every row meets its goal at the point. It looks no further than the first row that does not.
    pub fn repairs(&self, alloc: Global, point: &Point) -> Result<bool, NoMemory>
        requires { In self.now.domains.region point.now }
        ensures { IfOk result (λ repairs. repairs ≡ mends self.now point.now) }
    {
        let failing = self.first_failing(alloc, point)?;
        Ok(failing.is_none())
    }

    fn first_complained(&self, room: &mut Room, point: &Point) -> Option<RowName>
        requires point { In self.now.domains.region point.now }
        requires room { room.old ≡ length self.now.plan.columns }
        ensures first { result ≡ find (misses self.now point.now) (complained_rows self.now) }
        ensures room { room.new ≡ room.old }
    {
        for row in self.complained_rows().as_slice() {
            if self.misses(room, *row, point) {
                return Some(*row);
            }
        }
        None
    }

    fn first_other(&self, room: &mut Room, point: &Point) -> Option<RowName>
        requires point { In self.now.domains.region point.now }
        requires room { room.old ≡ length self.now.plan.columns }
        ensures { result ≡ find (misses_unasked self.now point.now) (case_rows self.now) }
    {
        for place in 0..self.row_count() {
            let row = self.row_at(place);
            if self.misses_unasked(room, row, point) {
                return Some(row);
            }
        }
        None
    }

    // Whether no complaint is about the row, and it misses its goal.
    fn misses_unasked(&self, room: &mut Room, row: RowName, point: &Point) -> bool
        requires point { In self.now.domains.region point.now }
        requires exists { RowExists self.now.plan row }
        requires room { room.old ≡ length self.now.plan.columns }
        ensures misses { result ≡ misses_unasked self.now point.now row }
        ensures room { room.new ≡ room.old }
    {
        if self.complained(row) {
            return false;
        }
        self.misses(room, row, point)
    }

    fn misses(&self, room: &mut Room, row: RowName, point: &Point) -> bool
        requires point { In self.now.domains.region point.now }
        requires exists { RowExists self.now.plan row }
        requires room { room.old ≡ length self.now.plan.columns }
        ensures misses { result ≡ misses self.now point.now row }
        ensures room { room.new ≡ room.old }
    {
        let goal = self.goal(row);
        !room.meets(&self.program, &self.table, &self.births, row, point, goal)
    }

    fn room(&self, alloc: Global) -> Result<Room, NoMemory>
        ensures { IfOk result (λ room. room ≡ length self.now.plan.columns) }
    {
        Room::new(alloc, &self.program)
    }

    fn row_count(&self) -> u32
        ensures { result ≡ length (case_rows self.now) }
    {
        row_count(&self.program)
    }

    // The row at a place in row order.
    fn row_at(&self, place: u32) -> RowName
        requires { place < length (case_rows self.now) }
        ensures row { slice_get (case_rows self.now) place ≡ Some result }
        ensures exists { RowExists self.now.plan result }
    {
        row_at(&self.program, place)
    }
}
