ghost use Rattle.std.specs.Prelude.{◌≡◌, ◌↔◌, ◌<◌, [], ◌∷◌, None, length, replicate, IsTrue, IfOk, OnOk, OnErr};
ghost use Rattle.qf_base.specs.declared.names.RowName.{RowName};
ghost use Rattle.std.specs.Option.{is_some, option_copied};
ghost use Rattle.std.specs.List.{list_any};
ghost use Rattle.qf_point.specs.Points.{HasNoEmpty};
ghost use Rattle.qf_board.specs.Kept.{IsOneKey};
ghost use Rattle.qf_board.specs.Boards.{start, after, Take, Cut, GiveBack, Refute, Found, Holds, HoldsNone, CanHappen, boxes, is_wanted, best_box, node_count, has_ended, tree_of};

use crate::keys::{Key, best_open, key_of};
use crate::nodes::{BoxNode, Kind, Link, held_by, let_go, put_kind, put_split};
use crate::parts::{add_parts, can_cut, cut_parts};
use crate::tree::nodes_of;
use qf_base::{List, NoMemory, PBox, Point, RowName};
use qf_lin::Step;
use qf_point::{Best, cheapest};
use qf_tree::Tree;
use std::alloc::Global;
use std::collections::BTreeSet;
use std::marker::Model;

/// A tree of boxes over a root box, with the best point found. A leaf is open, held by an explorer, or refuted. Explorers
/// are numbers from 0, and each holds at most one box. The key of a box is its cheapest point.
#[derive(Drop)]
pub struct Board {
    alloc: Global,
    root: PBox,
    olds: List<i64>,
    links: Vec<Link>,
    held: Vec<Option<usize>>,
    left: BTreeSet<Key>,
    counted: u64,
    holding: u64,
    best: Best,
    room: Point,
}

impl Model for Board {
    ghost use Rattle.qf_board.specs.Boards.{BoardState};
    ghost use Rattle.qf_board.specs.Kept.{state_of, IsKept};

    ghost Value = { BoardState };

    ghost view = { state_of };

    ghost invariant = { IsKept };
}

// What a board keeps beside its root box and the old constants.
#[derive(Drop)]
struct FirstParts {
    best: Best,
    room: Point,
    held: Vec<Option<usize>>,
    left: BTreeSet<Key>,
    links: Vec<Link>,
}

// The root box as the first node, an open leaf.
fn first_link(alloc: Global, root: &PBox) -> Result<Vec<Link>, NoMemory>
    ensures { IfOk result (λ links. links.items ≡ record { node = record { region = root.now; kind = Kind.Open }; next = None } ∷ []) }
{
    let region = root.copy(alloc)?;
    let mut links = Vec::new(alloc);
    links.push(Link {
        node: BoxNode {
            region,
            kind: Kind::Open,
        },
        next: None,
    })?;
    Ok(links)
}

// The key of the root box under the number 0. The room becomes a point of as many values.
fn first_key(
    alloc: Global,
    root: &PBox,
    olds: &List<i64>,
    room: &mut Point,
) -> Result<BTreeSet<Key>, NoMemory>
    requires olds { length olds.now ≡ length root.now }
    requires room { length room.old ≡ length root.now }
    requires spans { HasNoEmpty root.now }
    ensures room { length room.new ≡ length root.now }
    ensures key { IfOk result (λ left. IsOneKey olds.now root.now left.keys) }
{
    let mut left = BTreeSet::new(alloc);
    left.insert(key_of(alloc, olds, root, 0, room)?)?;
    Ok(left)
}

// What a board keeps of the root box as one open leaf that no explorer holds, with nothing found.
fn first_parts(
    alloc: Global,
    root: &PBox,
    olds: &List<i64>,
    explorers: u32,
) -> Result<FirstParts, NoMemory>
    requires same { length olds.now ≡ length root.now }
    requires spans { HasNoEmpty root.now }
    ensures best { IfOk result (λ o. o.best ≡ record { best = None; params = length olds.now }) }
    ensures room { IfOk result (λ o. length o.room ≡ length olds.now) }
    ensures held { IfOk result (λ o. o.held.items ≡ replicate explorers None) }
    ensures left { IfOk result (λ o. IsOneKey olds.now root.now o.left.keys) }
    ensures links { IfOk result (λ o. o.links.items ≡ record { node = record { region = root.now; kind = Kind.Open }; next = None } ∷ []) }
{
    let best = Best::new(alloc, olds)?;
    let mut room = Point::new(alloc, olds)?;
    let held = vec![in alloc; None::<usize>; explorers as usize]?;
    let left = first_key(alloc, root, olds, &mut room)?;
    let links = first_link(alloc, root)?;
    Ok(FirstParts {
        best,
        room,
        held,
        left,
        links,
    })
}

impl Board {
    /// The root box as one open leaf, with nothing found.
    pub fn open(
        alloc: Global,
        root: PBox,
        olds: List<i64>,
        explorers: u32,
    ) -> Result<Board, NoMemory>
        requires same { length olds ≡ length root }
        requires spans { HasNoEmpty root }
        ensures { IfOk result (λ board. board ≡ start root olds explorers) }
    {
        match first_parts(alloc, &root, &olds, explorers) {
            Ok(
                FirstParts {
                    best,
                    room,
                    held,
                    left,
                    links,
                },
            ) => Ok(Board {
                alloc,
                root,
                olds,
                links,
                held,
                left,
                counted: 0,
                holding: 0,
                best,
                room,
            }),
            Err(fault) => {
                drop(root);
                drop(olds);
                Err(fault)
            }
        }
    }

    /// Whether this explorer is one of the board's and holds no box: then it may take one.
    pub fn may_take(&self, who: u32) -> bool
        ensures { IsTrue result ↔ ((who < self.now.explorers) × HoldsNone self.now who) }
    {
        (who as usize) < self.held.len() && held_by(self.held.as_slice(), who).is_none()
    }

    /// Whether this explorer holds a box: then it may refute it, find its cheapest point, or give it back.
    pub fn holds(&self, who: u32) -> bool
        ensures { IsTrue result ↔ Holds self.now who }
    {
        held_by(self.held.as_slice(), who).is_some()
    }

    /// Whether this explorer holds a box that may be cut so: at a parameter, from 1, that has values up to the cut and
    /// values above it there.
    pub fn may_cut(&self, who: u32, param: u32, cut: i64) -> bool
        ensures { (row : RowName) → (IsTrue result ↔ CanHappen self.now (Cut who param cut row)) }
    {
        match held_by(self.held.as_slice(), who) {
            Some(at) => can_cut(&self.links[at].node.region, param, cut),
            None => false,
        }
    }

    /// Hands out the open box with the best key, if that key is better than the best found.
    pub fn take(&mut self, who: u32) -> Result<Option<PBox>, NoMemory>
        requires who { who < self.old.explorers }
        requires free { HoldsNone self.old who }
        ensures ok { OnOk result (self.new ≡ after self.old (Take who)) }
        ensures handed { IfOk result (λ handed. handed ≡ best_box self.old) }
        ensures some { IfOk result (λ handed. is_some handed ≡ list_any (is_wanted self.old.prices self.old.best) (boxes self.old)) }
        ensures err { OnErr result (self.new ≡ self.old) }
    {
        let Some(at) = best_open(&self.olds, &self.best, self.links.as_slice(), &self.left) else {
            return Ok(None);
        };
        let region = self.links[at].node.region.copy(self.alloc)?;
        put_kind(&mut self.links, at, Kind::Held(who));
        self.held[who as usize] = Some(at);
        self.holding += 1;
        Ok(Some(region))
    }

    /// Ends the holding of a box, which is refuted for the row by the steps. For want of memory the steps are dropped, and
    /// the box stays held.
    pub fn refute(&mut self, who: u32, row: RowName, steps: List<Step>) -> Result<(), NoMemory>
        requires { Holds self.old who }
        ensures ok { OnOk result (self.new ≡ after self.old (Refute who row steps)) }
        ensures err { OnErr result (self.new ≡ self.old) }
    {
        let Some(at) = held_by(self.held.as_slice(), who) else {
            return Ok(());
        };
        let region = &self.links[at].node.region;
        let key = key_of(self.alloc, &self.olds, region, at, &mut self.room)?;
        self.left.remove(&key);
        put_kind(&mut self.links, at, Kind::Refuted { row, steps });
        let_go(&mut self.held, who);
        self.holding -= 1;
        self.counted += 1;
        Ok(())
    }

    /// Ends the holding of a box, which is split into the box with the parameter's values up to the cut and the box with
    /// those above it. For want of memory it stays held.
    pub fn cut(&mut self, who: u32, param: u32, cut: i64, row: RowName) -> Result<(), NoMemory>
        requires { CanHappen self.old (Cut who param cut row) }
        ensures ok { OnOk result (self.new ≡ after self.old (Cut who param cut row)) }
        ensures err { OnErr result (self.new ≡ self.old) }
    {
        let Some(at) = held_by(self.held.as_slice(), who) else {
            return Ok(());
        };
        let first = self.links.len();
        let link = &self.links[at];
        let next = link.next;
        let parts = cut_parts(
            self.alloc,
            &self.olds,
            &link.node.region,
            at,
            first,
            param,
            cut,
            &mut self.room,
        )?;
        add_parts(self.alloc, &mut self.links, &mut self.left, parts, next)?;
        put_split(&mut self.links, at, Kind::Split { param, cut, row }, first);
        let_go(&mut self.held, who);
        self.holding -= 1;
        self.counted += 1;
        Ok(())
    }

    /// Ends the holding of a box whose cheapest point repairs. The box stays open.
    pub fn found(&mut self, who: u32)
        requires { Holds self.old who }
        ensures { self.new ≡ after self.old (Found who) }
    {
        let Some(at) = held_by(self.held.as_slice(), who) else {
            return;
        };
        cheapest(&self.olds, &self.links[at].node.region, &mut self.room);
        self.best.offer(&self.olds, &self.room);
        put_kind(&mut self.links, at, Kind::Open);
        let_go(&mut self.held, who);
        self.holding -= 1;
    }

    /// Ends the holding of a box, which stays open.
    pub fn give_back(&mut self, who: u32)
        requires { Holds self.old who }
        ensures { self.new ≡ after self.old (GiveBack who) }
    {
        let Some(held) = held_by(self.held.as_slice(), who) else {
            return;
        };
        put_kind(&mut self.links, held, Kind::Open);
        let_go(&mut self.held, who);
        self.holding -= 1;
    }

    /// The best point found.
    pub fn best(&self) -> Option<&Point>
        ensures { option_copied result ≡ self.now.best }
    {
        self.best.get()
    }

    /// How many nodes are split or refuted.
    pub fn nodes(&self) -> u64
        ensures { result ≡ node_count self.now }
    {
        self.counted
    }

    /// Whether nobody holds a box and no open box has a key better than the best found.
    pub fn finish(&self) -> bool
        ensures { result ≡ has_ended self.now }
    {
        self.holding == 0
            && best_open(&self.olds, &self.best, self.links.as_slice(), &self.left).is_none()
    }

    /// The tree. An open or held box whose key is not better than the best found is dear, another one open. For want of
    /// memory the board is dropped.
    pub fn into_tree(self) -> Result<Tree, NoMemory>
        ensures { IfOk result (λ tree. tree.nodes ≡ tree_of self) }
    {
        let Board {
            alloc,
            olds,
            links,
            best,
            mut room,
            ..
        } = self;
        Ok(Tree {
            nodes: nodes_of(alloc, &olds, &best, links, &mut room)?,
        })
    }
}
