ghost use Rattle.std.specs.Prelude.{◌≡◌, ◌↔◌, ◌<◌, ◌+◌, ◌-◌, ◌^◌, ◌++◌, ◌∷◌, [], Some, false, length, IsTrue, IfOk, OnOk, OnErr};
ghost use Rattle.std.specs.BTreeSet.{insert_key, contains, contains_by};
ghost use Rattle.std.specs.BTreeMap.{is_at};
ghost use Rattle.std.specs.Set.{remove_key};
ghost use Rattle.qf_point.specs.Points.{HasNoEmpty, CanCut, lower_half, upper_half};
ghost use Rattle.qf_board.specs.Kept.{key_cmp, IsKeyFor};

use crate::keys::{Key, key_of, replace_key};
use crate::nodes::{BoxNode, Kind, Link, push_two};
use qf_base::{List, NoMemory, PBox, Point};
use qf_point::halves;
use std::alloc::Global;
use std::collections::BTreeSet;

/// What a cut makes: the key that goes, and the two halves with their keys.
#[derive(Drop)]
pub struct Parts {
    pub gone: Key,
    pub lower: PBox,
    pub low: Key,
    pub upper: PBox,
    pub high: Key,
}

/// The parts of a leaf with this number, under two numbers from `first` on. The room becomes a cheapest point.
pub fn cut_parts(
    alloc: Global,
    olds: &List<i64>,
    region: &PBox,
    at: usize,
    first: usize,
    param: u32,
    cut: i64,
    room: &mut Point,
) -> Result<Parts, NoMemory>
    requires olds { length olds.now ≡ length region.now }
    requires room { length room.old ≡ length region.now }
    requires spans { HasNoEmpty region.now }
    requires param { 0 < param }
    requires can { CanCut region.now (param - 1) cut }
    requires first { first + 1 < 2 ^ 64 }
    ensures room { length room.new ≡ length region.now }
    ensures lower { IfOk result (λ parts. parts.lower ≡ lower_half region.now (param - 1) cut) }
    ensures upper { IfOk result (λ parts. parts.upper ≡ upper_half region.now (param - 1) cut) }
    ensures gone { IfOk result (λ parts. IsKeyFor olds.now region.now at parts.gone) }
    ensures low { IfOk result (λ parts. IsKeyFor olds.now (lower_half region.now (param - 1) cut) first parts.low) }
    ensures high { IfOk result (λ parts. IsKeyFor olds.now (upper_half region.now (param - 1) cut) (first + 1) parts.high) }
{
    let (lower, upper) = halves(alloc, region, param, cut)?;
    let gone = key_of(alloc, olds, region, at, room)?;
    let low = key_of(alloc, olds, &lower, first, room)?;
    let high = key_of(alloc, olds, &upper, first + 1, room)?;
    Ok(Parts {
        gone,
        lower,
        low,
        upper,
        high,
    })
}

/// Whether a box may be cut so: the parameter, from 1, has values up to the cut and values above it there.
pub fn can_cut(region: &PBox, param: u32, cut: i64) -> bool
    ensures { IsTrue result ↔ ((0 < param) × CanCut region.now (param - 1) cut) }
{
    if param == 0 || param > region.len() {
        return false;
    }
    let (lo, hi) = region.get(param - 1);
    lo <= cut && cut < hi
}

// A box as an open leaf, and the number of the node that follows it.
fn open_link(region: PBox, next: Option<usize>) -> Link
    ensures { result ≡ record { node = record { region = region; kind = Kind.Open }; next = next } }
{
    Link {
        node: BoxNode {
            region,
            kind: Kind::Open,
        },
        next,
    }
}

/// Adds the halves as open leaves, of which the second one is followed by `next`, with their keys in the place of the key
/// that goes; for want of memory all stays.
pub fn add_parts(
    alloc: Global,
    links: &mut Vec<Link>,
    keys: &mut BTreeSet<Key>,
    parts: Parts,
    next: Option<usize>,
) -> Result<(), NoMemory>
    requires { contains key_cmp keys.old parts.low ≡ false }
    ensures links { OnOk result (links.new.items ≡ links.old.items ++ (record { node = record { region = parts.lower; kind = Kind.Open }; next = Some (length links.old.items + 1) } ∷ record { node = record { region = parts.upper; kind = Kind.Open }; next = next } ∷ [])) }
    ensures keys { OnOk result (keys.new.keys ≡ remove_key (is_at (key_cmp parts.gone)) (insert_key key_cmp (insert_key key_cmp keys.old.keys parts.low) parts.high)) }
    ensures gone { OnOk result (contains_by (key_cmp parts.gone) keys.new ≡ false) }
    ensures same_links { OnErr result (links.new.items ≡ links.old.items) }
    ensures same_keys { OnErr result (keys.new.keys ≡ keys.old.keys) }
{
    let first = links.len();
    let Parts {
        gone,
        lower,
        low,
        upper,
        high,
    } = parts;
    push_two(
        links,
        open_link(lower, Some(first + 1)),
        open_link(upper, next),
    )?;
    match replace_key(alloc, keys, &gone, low, high) {
        Ok(()) => Ok(()),
        Err(fault) => {
            links.truncate(first);
            Err(fault)
        }
    }
}
