// Whether a node keeps its rule.

ghost use Rattle.std.specs.Prelude.{◌≡◌, [], ◌∷◌, ◌+◌, ◌&&◌, not, length, OnOk, IfOk};
ghost use Rattle.qf_point.specs.Points.{cost, better, cheapest};
ghost use Rattle.qf_circuit.specs.Circuits.{hull_of};
ghost use Rattle.qf_encode.specs.Lives.{BoxIn};
ghost use Rattle.qf_tree.specs.Refutations as refutation;
ghost use Rattle.qf_tree.specs.Certificates as spec;
ghost use Rattle.qf_instance.specs.RowsMade.{AreMade};
ghost use Rattle.qf_check.specs.Grounding.{instance, AreGrounds, FitsBox};

use crate::boxes::cuts_inside;
use crate::refuting::first_wrong_step;
use qf_base::{List, NoMemory, PBox, Point, RowName};
use qf_goal::Problem;
use qf_instance::{Made, RowSystem, has_row, is_marked};
use qf_lin::Step;
use qf_point::{better, cheapest, cost};
use qf_tree::{Answer, Node};
use std::alloc::Global;

/// What the nodes of a certificate are held against: the problem, the answer, the problem's root box, and marks of the
/// needed parameters, of which that of parameter k, from 1, stands at place k - 1.
#[derive(Drop)]
pub struct Grounds<'a> {
    pub alloc: Global,
    pub problem: &'a Problem,
    pub answer: &'a Answer,
    pub root: PBox,
    pub marks: List<bool>,
}

fn wrong_unless(right: bool) -> Option<u64>
    ensures { result ≡ spec.wrong_unless right }
{
    if right { None } else { Some(0) }
}

/// A line so many lines later. One past 64 bits is that of no certificate for which there is memory.
pub fn later(line: u64, count: u64) -> Result<u64, NoMemory>
    ensures { IfOk result (λ later. later ≡ line + count) }
{
    match line.checked_add(count) {
        Some(later) => Ok(later),
        None => Err(NoMemory),
    }
}

// The place of a step as that of its line, where the line of the row comes first.
fn line_of(step: Option<u64>) -> Result<Option<u64>, NoMemory>
    ensures { IfOk result (λ line. line ≡ refutation.one_later step) }
{
    match step {
        Some(place) => Ok(Some(later(place, 1)?)),
        None => Ok(None),
    }
}

// The first step that breaks its rule, where steps are to refute the hull of a box.
fn wrong_step(
    alloc: Global,
    made: &RowSystem,
    region: &PBox,
    steps: &List<Step>,
) -> Result<Option<u64>, NoMemory>
    requires fits { FitsBox made.now region.now }
    ensures { IfOk result (λ wrong. wrong ≡ refutation.first_wrong_step made.now.system ((hull_of region.now made.now.coded.circuit, 0) ∷ []) steps.now) }
{
    let hull = made.hull(alloc, region)?;
    first_wrong_step(alloc, &made.system, hull, steps)
}

// Whether the key of a box is no better than a point.
fn is_no_better(olds: &List<i64>, key: &Point, point: &Point) -> bool
    requires key { length olds.now ≡ length key.now }
    requires point { length olds.now ≡ length point.now }
    ensures { result ≡ not (better olds.now key.now point.now) }
{
    !better(olds, key, point)
}

impl Grounds<'_> {
    fn split_is_right(&self, region: &PBox, param: u32, cut: i64, row: RowName) -> bool
        ensures { result ≡ ((instance self.now).is_needed param && spec.cuts_inside region.now param cut && (instance self.now).has_row row) }
    {
        is_marked(self.marks.as_slice(), param)
            && cuts_inside(region, param, cut)
            && has_row(self.problem, row)
    }

    // The line of a refuted node that breaks its rule.
    fn refuted_fault(
        &self,
        made: &mut Made,
        region: &PBox,
        row: RowName,
        steps: &List<Step>,
    ) -> Result<Option<u64>, NoMemory>
        requires grounds { AreGrounds self.now }
        requires inside { BoxIn region.now self.now.root }
        requires made { AreMade self.now.problem.now self.now.root made.old }
        ensures fault { IfOk result (λ fault. fault ≡ spec.node_fault (instance self.now) self.now.answer.now (region.now, Node.Refuted row steps.now)) }
        ensures made { OnOk result (AreMade self.now.problem.now self.now.root made.new) }
    {
        if !has_row(self.problem, row) {
            return Ok(Some(0));
        }
        made.make(self.alloc, self.problem, &self.root, row)?;
        line_of(wrong_step(self.alloc, made.get(row), region, steps)?)
    }

    // The cheapest point of the box.
    fn key(&self, region: &PBox, room: &mut Point)
        requires grounds { AreGrounds self.now }
        requires inside { BoxIn region.now self.now.root }
        requires room { length room.old ≡ length self.now.root }
        ensures key { room.new ≡ cheapest self.now.problem.now.plan.olds region.now }
        ensures len { length room.new ≡ length self.now.problem.now.plan.olds }
        ensures room { length room.new ≡ length self.now.root }
    {
        cheapest(self.problem.program().olds(), region, room);
    }

    // The cost of the cheapest point of the box.
    pub fn key_cost(&self, region: &PBox, room: &mut Point) -> u128
        requires grounds { AreGrounds self.now }
        requires inside { BoxIn region.now self.now.root }
        requires room { length room.old ≡ length self.now.root }
        ensures cost { result ≡ cost (instance self.now).olds (cheapest (instance self.now).olds region.now) }
        ensures room { length room.new ≡ length self.now.root }
    {
        self.key(region, room);
        cost(self.problem.program().olds(), room)
    }

    // Whether the box has no point that is better than the stated one.
    fn dear_is_right(&self, region: &PBox, room: &mut Point) -> bool
        requires grounds { AreGrounds self.now }
        requires inside { BoxIn region.now self.now.root }
        requires room { length room.old ≡ length self.now.root }
        ensures right { result ≡ spec.dear_is_right (instance self.now) self.now.answer.now region.now }
        ensures room { length room.new ≡ length self.now.root }
    {
        self.key(region, room);
        let olds = self.problem.program().olds();
        match self.answer {
            Answer::Repair(point) => is_no_better(olds, room, point),
            Answer::Nothing => false,
            Answer::Budget => false,
            Answer::Best(point) => is_no_better(olds, room, point),
        }
    }

    fn may_be_open(&self) -> bool
        ensures { result ≡ spec.may_be_open self.now.answer.now }
    {
        match self.answer {
            Answer::Repair(_) | Answer::Nothing => false,
            Answer::Budget | Answer::Best(_) => true,
        }
    }

    /// The first line of a node that breaks its rule, counted from 0 at the node. The room becomes any point.
    pub fn node_fault(
        &self,
        made: &mut Made,
        room: &mut Point,
        region: &PBox,
        node: &Node,
    ) -> Result<Option<u64>, NoMemory>
        requires grounds { AreGrounds self.now }
        requires inside { BoxIn region.now self.now.root }
        requires made { AreMade self.now.problem.now self.now.root made.old }
        requires room { length room.old ≡ length self.now.root }
        ensures fault { IfOk result (λ fault. fault ≡ spec.node_fault (instance self.now) self.now.answer.now (region.now, node.now)) }
        ensures made { OnOk result (AreMade self.now.problem.now self.now.root made.new) }
        ensures room { length room.new ≡ length self.now.root }
    {
        match node {
            Node::Split { param, cut, row } => Ok(wrong_unless(self.split_is_right(
                region, *param, *cut, *row,
            ))),
            Node::Refuted { row, steps } => self.refuted_fault(made, region, *row, steps),
            Node::Dear => Ok(wrong_unless(self.dear_is_right(region, room))),
            Node::Open => Ok(wrong_unless(self.may_be_open())),
        }
    }
}
