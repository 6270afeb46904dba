ghost use Rattle.std.specs.Prelude.{◌≡◌, ◌<◌, ◌∷◌, ◌++◌, [], Some, None, length, slice_set, OnOk, OnErr};
ghost use Rattle.qf_board.specs.Boards.{is_open};
ghost use Rattle.qf_board.specs.Numbered.{link_at, place_of_kind};
ghost use Rattle.qf_board.specs.Kept.{with_kind, held_number};

use qf_base::{List, NoMemory, PBox, RowName};
use qf_lin::Step;

/// What stands at a node.
#[derive(Drop)]
pub enum Kind {
    Split { param: u32, cut: i64, row: RowName },
    Refuted { row: RowName, steps: List<Step> },
    Open,
    Held(u32),
}

impl Kind {
    /// Whether the node is an open leaf.
    pub fn is_open(&self) -> bool
        ensures { result ≡ is_open (place_of_kind self.now) }
    {
        match self {
            Kind::Open => true,
            _ => false,
        }
    }
}

/// A node of the tree with its box.
#[derive(Drop)]
pub struct BoxNode {
    pub region: PBox,
    pub kind: Kind,
}

/// A node, and the number of the one that follows it in preorder.
#[derive(Drop)]
pub struct Link {
    pub node: BoxNode,
    pub next: Option<usize>,
}

/// Puts another kind at a node.
pub fn put_kind(links: &mut Vec<Link>, at: usize, kind: Kind)
    requires { at < length links.old.items }
    ensures { links.new.items ≡ slice_set links.old.items at (with_kind (link_at links.old.items at) kind) }
{
    let link = &mut links[at];
    link.node.kind = kind;
}

/// Puts another kind at a node, and says which node follows it.
pub fn put_split(links: &mut Vec<Link>, at: usize, kind: Kind, next: usize)
    requires { at < length links.old.items }
    ensures { links.new.items ≡ slice_set links.old.items at (record (with_kind (link_at links.old.items at) kind) { next = Some next }) }
{
    let link = &mut links[at];
    link.node.kind = kind;
    link.next = Some(next);
}

/// Adds two items at the end; for want of memory the items stay.
pub fn push_two<T: Drop>(items: &mut Vec<T>, first: T, second: T) -> Result<(), NoMemory>
    ensures ok { OnOk result (items.new.items ≡ items.old.items ++ (first ∷ second ∷ [])) }
    ensures err { OnErr result (items.new.items ≡ items.old.items) }
{
    items.reserve(2)?;
    items.push(first)?;
    items.push(second)?;
    Ok(())
}

/// The number of the node that this explorer holds.
pub fn held_by(held: &[Option<usize>], who: u32) -> Option<usize>
    ensures { result ≡ held_number held.now who }
{
    if (who as usize) < held.len() {
        held[who as usize]
    } else {
        None
    }
}

/// Notes that this explorer holds nothing.
pub fn let_go(held: &mut Vec<Option<usize>>, who: u32)
    ensures { held.new.items ≡ slice_set held.old.items who None }
{
    if (who as usize) < held.len() {
        held[who as usize] = None;
    }
}
