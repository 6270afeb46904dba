// One walk over the nodes of a certificate.

ghost use Rattle.std.specs.Prelude.{◌≡◌, ◌∷◌, ◌++◌, ◌||◌, Some, None, [], false, cond, length, List as Items, OnOk, IfOk, IfErr, IsTrue};
ghost use Rattle.qf_point.specs.Points.{cost, cheapest};
ghost use Rattle.qf_tree.specs.declared.tree.Node.{Node as NodeValue};
ghost use Rattle.qf_tree.specs.Certificates as spec;
ghost use Rattle.qf_tree.specs.Certificates.{halves, node_fault, first_of_two};
ghost use Rattle.qf_encode.specs.Lives.{BoxIn};
ghost use Rattle.qf_check.specs.Splits.{boxes_of, boxes_to_come, LieIn};
ghost use Rattle.qf_check.specs.Grounding.{instance, AreGrounds};
ghost use Rattle.qf_check.specs.Walking.{lowest, told, IsSoundWalk, IsRejectedBy, IsVisited, IsTaken};
ghost use Rattle.qf_base.specs.Values.{Bounds};
ghost use Rattle.qf_tree.specs.Sizes.{cuts_its_box};

use crate::boxes::Boxes;
use crate::grounds::{Grounds, later};
use crate::verdict::CheckFault;
use qf_base::{NoMemory, Point};
use qf_instance::Made;
use qf_tree::Node;

/// How far a walk has come: the boxes at hand and to come, the systems that were made, room for a point, the next line, the
/// least cost that the answer or an open box has, and whether a box is open.
#[derive(Drop)]
pub struct Walk {
    pub boxes: Boxes,
    pub made: Made,
    pub room: Point,
    pub line: u64,
    pub least: Option<u128>,
    pub any_open: bool,
}

fn is_open(node: &Node) -> bool
    ensures { result ≡ spec.is_open node.now }
{
    match node {
        Node::Open => true,
        _ => false,
    }
}

fn either(one: bool, other: bool) -> bool
    ensures { result ≡ (one || other) }
{
    one || other
}

fn lowest(least: Option<u128>, cost: u128) -> u128
    ensures { result ≡ lowest least cost }
{
    match least {
        Some(least) => least.min(cost),
        None => cost,
    }
}

// How many lines a node has.
fn line_count(node: &Node) -> Result<u64, NoMemory>
    ensures { IfOk result (λ count. count ≡ spec.line_count node.now) }
{
    match node {
        Node::Refuted { steps, .. } => later(1, steps.len()),
        _ => Ok(1),
    }
}

// Goes on from the box at hand, which is the node's.
fn go_on(boxes: &mut Boxes, node: &Node) -> Result<(), NoMemory>
    requires there { boxes.old.is_done ≡ false }
    requires inside { (root : Bounds) × LieIn root boxes.old }
    requires right { IsTrue (cuts_its_box (boxes.old.region, node.now)) }
    ensures boxes { OnOk result (boxes_of boxes.new ≡ halves boxes.old.region node.now ++ boxes_to_come boxes.old.region boxes.old.frames) }
    ensures inside { (root : Bounds) → LieIn root boxes.old → OnOk result (LieIn root boxes.new) }
{
    match node {
        Node::Split { param, cut, .. } => boxes.split(*param, *cut),
        Node::Refuted { .. } => boxes.next(),
        Node::Dear => boxes.next(),
        Node::Open => boxes.next(),
    }
}

impl Walk {
    // Takes the cost of an open box into account.
    fn note_open(&mut self, grounds: &Grounds<'_>, node: &Node)
        requires grounds { AreGrounds grounds.now }
        requires inside { BoxIn self.old.boxes.region grounds.now.root }
        requires room { length self.old.room ≡ length grounds.now.root }
        ensures least { self.new.least ≡ cond (spec.is_open node.now) (Some (lowest self.old.least (cost (instance grounds.now).olds (cheapest (instance grounds.now).olds self.old.boxes.region)))) self.old.least }
        ensures room { length self.new.room ≡ length grounds.now.root }
        ensures kept { self.new ≡ record self.old { least = self.new.least; room = self.new.room } }
    {
        if is_open(node) {
            let cost = grounds.key_cost(&self.boxes.region, &mut self.room);
            self.least = Some(lowest(self.least, cost));
        }
    }

    // Checks the node of the box at hand, and goes on to the next box.
    fn visit(&mut self, grounds: &Grounds<'_>, node: &Node) -> Result<(), CheckFault>
        requires there { self.old.boxes.is_done ≡ false }
        requires grounds { AreGrounds grounds.now }
        requires sound { IsSoundWalk grounds.now self.old }
        ensures err { IfErr result (IsRejectedBy (first_of_two self.old.line (node_fault (instance grounds.now) grounds.now.answer.now (self.old.boxes.region, node.now)) None)) }
        ensures visited { OnOk result (IsVisited grounds.now self.old self.new node.now) }
    {
        let fault = grounds.node_fault(&mut self.made, &mut self.room, &self.boxes.region, node)?;
        if let Some(place) = fault {
            return Err(CheckFault::Rejected(later(self.line, place)?));
        }
        self.note_open(grounds, node);
        go_on(&mut self.boxes, node)?;
        Ok(())
    }

    // Checks the node where a box is at hand.
    fn visit_box(&mut self, grounds: &Grounds<'_>, node: &Node) -> Result<(), CheckFault>
        requires grounds { AreGrounds grounds.now }
        requires sound { IsSoundWalk grounds.now self.old }
        ensures err { (nodes : Items NodeValue) → IfErr result (IsRejectedBy (told grounds.now self.old (node.now ∷ nodes)).fault) }
        ensures taken { OnOk result (IsTaken grounds.now self.old self.new node.now) }
    {
        if self.boxes.is_done {
            return Ok(());
        }
        self.visit(grounds, node)
    }

    // Takes one node.
    fn step(&mut self, grounds: &Grounds<'_>, node: &Node) -> Result<(), CheckFault>
        requires grounds { AreGrounds grounds.now }
        requires sound { IsSoundWalk grounds.now self.old }
        ensures err { (nodes : Items NodeValue) → IfErr result (IsRejectedBy (told grounds.now self.old (node.now ∷ nodes)).fault) }
        ensures sound { OnOk result (IsSoundWalk grounds.now self.new) }
        ensures told { (nodes : Items NodeValue) → OnOk result (told grounds.now self.new nodes ≡ told grounds.now self.old (node.now ∷ nodes)) }
    {
        self.visit_box(grounds, node)?;
        self.any_open = either(self.any_open, is_open(node));
        self.line = later(self.line, line_count(node)?)?;
        Ok(())
    }

    /// Takes all nodes, or finds the first line that breaks its rule.
    pub fn run(&mut self, grounds: &Grounds<'_>, nodes: &[Node]) -> Result<(), CheckFault>
        requires grounds { AreGrounds grounds.now }
        requires sound { IsSoundWalk grounds.now self.old }
        ensures err { IfErr result (IsRejectedBy (told grounds.now self.old nodes.now).fault) }
        ensures told { OnOk result (told grounds.now self.new [] ≡ told grounds.now self.old nodes.now) }
    {
        for node in nodes {
            self.step(grounds, node)?;
        }
        Ok(())
    }
}
