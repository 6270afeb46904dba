// The rows that came up so far.

ghost use Rattle.std.specs.Prelude.{◌≡◌, Some, IfOk};
ghost use Rattle.qf_ir.specs.Plan.{RowExists};
ghost use Rattle.qf_point.specs.Domains.{HasSmallEnds};
ghost use Rattle.qf_goal.specs.SoundCase.{IsSoundCase};
ghost use Rattle.qf_slice.specs.RootBox.{IsRootBox};
ghost use Rattle.qf_instance.specs.Instances.{case_circuit};

use qf_base::{Intervals, NoMemory, PBox, RowName};
use qf_encode::{Coded, circuit_of};
use qf_goal::Problem;
use qf_instance::has_row;
use qf_slice::root_box;
use qf_sums::{Amounts, Form, Reading, Slots, Unit};
use qf_wires::Wired;
use std::alloc::Global;
use std::collections::BTreeMap;

const MOST_DEFINITIONS: usize = 400_000;

// A row that came up.
#[derive(Drop)]
struct KnownRow {
    name: RowName,
    is_complained: bool,
    // Whether a split in the tree names it.
    is_named: bool,
    shape: Shape,
}

impl KnownRow {
    // Whether it may refute a box, and misses its goal at a point.
    fn misses(&mut self, alloc: Global, slots: &Slots, point: &[i64]) -> Result<bool, NoMemory> {
        if !self.is_complained && !self.is_named {
            return Ok(false);
        }
        match &mut self.shape {
            Shape::Sum(form) => Ok(!form.is_met(point)),
            Shape::Wired(wired) => wired.misses(alloc, slots, point),
            Shape::Unknown => Ok(false),
        }
    }
}

// What a row is: one that adds up, one that does not, with its circuit, or one for which there was no room.
#[derive(Drop)]
enum Shape {
    Sum(Form),
    Wired(Wired),
    Unknown,
}

/// The rows by their names, and the amounts that rows share.
#[derive(Drop)]
pub struct Rows {
    list: Vec<KnownRow>,
    places: BTreeMap<RowName, usize>,
    kinds: Vec<Amounts>,
    /// How many definitions with several values the rows have that do not add up.
    pub open: usize,
    held: usize,
}

// That the problem is sound, and that the ends of its domains are small.
fn note_sound(problem: &Problem)
    ensures sound { IsSoundCase problem.now }
    ensures ends { HasSmallEnds problem.now.domains.region }
{
    let _program = problem.program();
    let _region = problem.domains().region();
}

// The intervals of a row's definitions over the root box.
fn root_hull(
    alloc: Global,
    problem: &Problem,
    root: &PBox,
    name: RowName,
    coded: &Coded,
) -> Result<Intervals, NoMemory>
    requires exists { RowExists problem.now.plan name }
    requires root { IsRootBox problem.now root.now }
    requires coded { case_circuit problem.now name ≡ Some coded.now }
{
    note_sound(problem);
    coded.circuit.hull(alloc, root)
}

fn coded_row(alloc: Global, problem: &Problem, name: RowName) -> Result<Coded, NoMemory>
    requires exists { RowExists problem.now.plan name }
    ensures { IfOk result (λ coded. case_circuit problem.now name ≡ Some coded) }
{
    circuit_of(alloc, problem.program(), problem.table(), name)
}

// What a row adds up to, if it does, and else its circuit, if that is no larger than the room.
fn shape_of(
    alloc: Global,
    problem: &Problem,
    root: &PBox,
    slots: &Slots,
    name: RowName,
    room: usize,
) -> Result<Shape, NoMemory>
    requires exists { RowExists problem.now.plan name }
    requires root { IsRootBox problem.now root.now }
{
    let goal = problem.goal(name);
    let coded = coded_row(alloc, problem, name)?;
    let hull = root_hull(alloc, problem, root, name, &coded)?;
    let reading = Reading {
        defs: coded.circuit.defs().as_slice(),
        hull: hull.as_slice(),
        slots,
    };
    if let Some(form) = reading.form(alloc, &coded, goal)? {
        return Ok(Shape::Sum(form));
    }
    if room < reading.defs.len() {
        return Ok(Shape::Unknown);
    }
    Ok(Shape::Wired(Wired::new(alloc, coded, &hull, goal)?))
}

impl Rows {
    /// No rows.
    pub fn new(alloc: Global) -> Rows {
        Rows {
            list: Vec::new(alloc),
            places: BTreeMap::new(alloc),
            kinds: Vec::new(alloc),
            open: 0,
            held: 0,
        }
    }

    /// The amounts of a class.
    pub fn amounts(&self, class: u32) -> Amounts {
        match self.kinds.get(class as usize) {
            Some(amounts) => *amounts,
            None => Amounts::new(),
        }
    }

    /// The place of a row among those that came up.
    pub fn place_of(&self, name: RowName) -> Option<usize> {
        self.places.get(&name).copied()
    }

    /// What the row at a place adds up to, if it does.
    pub fn form(&self, place: usize) -> Option<&Form> {
        match &self.list.get(place)?.shape {
            Shape::Sum(form) => Some(form),
            _ => None,
        }
    }

    // The class of the first amounts that suit these units, which join them.
    fn class_of(&mut self, units: &[Unit]) -> Result<u32, NoMemory> {
        let mut class: u32 = 0;
        for kind in self.kinds.iter_mut() {
            if kind.suits(units) {
                kind.join(units);
                return Ok(class);
            }
            class = class.saturating_add(1);
        }
        let mut kind = Amounts::new();
        kind.join(units);
        self.kinds.push(kind)?;
        Ok(class)
    }

    // Classes the amounts of a row that adds up, and counts the definitions of one that does not.
    fn settle(&mut self, shape: &mut Shape) -> Result<(), NoMemory> {
        match shape {
            Shape::Sum(form) => form.class = self.class_of(form.units.as_slice())?,
            Shape::Wired(wired) => {
                self.open = self.open.saturating_add(wired.open().len());
                self.held = self.held.saturating_add(wired.defs().len());
            }
            Shape::Unknown => {}
        }
        Ok(())
    }

    fn push(
        &mut self,
        name: RowName,
        is_complained: bool,
        shape: Shape,
    ) -> Result<usize, NoMemory> {
        let mut shape = shape;
        self.settle(&mut shape)?;
        let place = self.list.len();
        self.list.push(KnownRow {
            name,
            is_complained,
            is_named: false,
            shape,
        })?;
        self.places.insert(name, place)?;
        Ok(place)
    }

    // Adds a row of the problem.
    fn add(
        &mut self,
        alloc: Global,
        problem: &Problem,
        root: &PBox,
        slots: &Slots,
        name: RowName,
    ) -> Result<Option<usize>, NoMemory>
        requires root { IsRootBox problem.now root.now }
    {
        if let Some(place) = self.place_of(name) {
            return Ok(Some(place));
        }
        if !has_row(problem, name) {
            return Ok(None);
        }
        let is_complained = problem.complained(name);
        let room = MOST_DEFINITIONS.saturating_sub(self.held);
        let shape = shape_of(alloc, problem, root, slots, name, room)?;
        Ok(Some(self.push(name, is_complained, shape)?))
    }

    /// The place of a row, which is added if it is new and the problem has it.
    pub fn note(
        &mut self,
        alloc: Global,
        problem: &Problem,
        slots: &Slots,
        name: RowName,
    ) -> Result<Option<usize>, NoMemory> {
        if let Some(place) = self.place_of(name) {
            return Ok(Some(place));
        }
        let root = root_box(alloc, problem)?;
        self.add(alloc, problem, &root, slots, name)
    }

    /// Adds the rows that complaints are about.
    pub fn note_complained(
        &mut self,
        alloc: Global,
        problem: &Problem,
        slots: &Slots,
    ) -> Result<(), NoMemory> {
        let root = root_box(alloc, problem)?;
        for name in problem.complained_rows().as_slice() {
            self.add(alloc, problem, &root, slots, *name)?;
        }
        Ok(())
    }

    /// The name of the row at a place.
    pub fn name_of(&self, place: usize) -> Option<RowName> {
        Some(self.list.get(place)?.name)
    }

    /// Marks the row at a place as one that a split names, or unmarks it.
    pub fn name(&mut self, place: usize, is_named: bool) {
        if let Some(known) = self.list.get_mut(place) {
            known.is_named = is_named;
        }
    }

    /// Unmarks all rows.
    pub fn forget_names(&mut self) {
        for known in self.list.iter_mut() {
            known.is_named = false;
        }
    }

    /// The places of the rows that add up, may refute a box, and miss their goals at a point.
    pub fn missing(
        &mut self,
        alloc: Global,
        slots: &Slots,
        point: &[i64],
    ) -> Result<Vec<usize>, NoMemory> {
        let mut missing = Vec::new(alloc);
        let mut place: usize = 0;
        for row in self.list.iter_mut() {
            if row.misses(alloc, slots, point)? {
                missing.push(place)?;
            }
            place = place.saturating_add(1);
        }
        Ok(missing)
    }

    /// The circuit of the row at a place, if the row does not add up.
    pub fn wired(&mut self, place: usize) -> Option<&mut Wired> {
        match &mut self.list.get_mut(place)?.shape {
            Shape::Wired(wired) => Some(wired),
            _ => None,
        }
    }
}
