ghost use Rattle.std.specs.Prelude.{◌≡◌, ◌<◌, length, map, slice_set, IfOk};
ghost use Rattle.qf_point.specs.Points.{cheapest, HasNoEmpty};
ghost use Rattle.qf_board.specs.Boards.{tree_node};
ghost use Rattle.qf_board.specs.Numbered.{Numbered, link_at, numbered, pair_of, place_of_kind, IsLinked};
ghost use Rattle.qf_board.specs.Kept.{with_kind};
ghost use Rattle.std.specs.List.{AllByRecursion};

use crate::nodes::{Kind, Link};
use qf_base::{List, NoMemory, PBox, Point};
use qf_point::{Best, cheapest};
use qf_tree::Node;
use std::alloc::Global;

// Takes the kind of a node out, which becomes open.
fn take_kind(links: &mut Vec<Link>, at: usize) -> Kind
    requires { at < length links.old.items }
    ensures kind { result ≡ (link_at links.old.items at).node.kind }
    ensures links { links.new.items ≡ slice_set links.old.items at (with_kind (link_at links.old.items at) Kind.Open) }
{
    std::mem::replace(&mut links[at].node.kind, Kind::Open)
}

// A box with what stands at it, as a node of the finished tree.
fn tree_node(olds: &List<i64>, best: &Best, region: &PBox, kind: Kind, room: &mut Point) -> Node
    requires best { length olds.now ≡ best.now.params }
    requires olds { length olds.now ≡ length region.now }
    requires room { length room.old ≡ length region.now }
    requires spans { HasNoEmpty region.now }
    ensures node { result ≡ tree_node olds.now best.now.best (region.now, place_of_kind kind) }
    ensures room { length room.new ≡ length region.now }
{
    match kind {
        Kind::Split { param, cut, row } => Node::Split { param, cut, row },
        Kind::Refuted { row, steps } => Node::Refuted { row, steps },
        Kind::Open | Kind::Held(_) => {
            cheapest(olds, region, room);
            if best.is_beaten_by(olds, room) {
                Node::Open
            } else {
                Node::Dear
            }
        }
    }
}

/// The nodes of the finished tree, in preorder.
pub fn nodes_of(
    alloc: Global,
    olds: &List<i64>,
    best: &Best,
    links: Vec<Link>,
    room: &mut Point,
) -> Result<List<Node>, NoMemory>
    requires best { length olds.now ≡ best.now.params }
    requires room { length room.old ≡ length olds.now }
    requires linked { IsLinked links.items }
    requires boxes { AllByRecursion (λ (x : Numbered). (length x.1.region ≡ length olds.now) × HasNoEmpty x.1.region) (numbered links.items) }
    ensures { IfOk result (λ nodes. nodes ≡ map (λ (x : Numbered). tree_node olds.now best.now.best (pair_of x)) (numbered links.items)) }
{
    let mut left = links;
    let mut nodes = List::new(alloc);
    let mut next = Some(0);
    for i in 0..left.len() {
        if let Some(at) = next {
            next = left[at].next;
            let kind = take_kind(&mut left, at);
            nodes.push(tree_node(olds, best, &left[at].node.region, kind, room))?;
        }
    }
    Ok(nodes)
}
