ghost use Rattle.std.specs.Prelude.{◌≡◌, ◌<◌, false, length, IfOk, OnOk, OnErr};
ghost use Rattle.std.specs.List.{find, AllByRecursion};
ghost use Rattle.std.specs.Option.{option_copied};
ghost use Rattle.std.specs.BTreeSet.{insert_key, contains, contains_by, IsOrdered};
ghost use Rattle.std.specs.BTreeMap.{is_at};
ghost use Rattle.std.specs.Set.{remove_key};
ghost use Rattle.qf_point.specs.Points.{cost, HasNoEmpty};
ghost use Rattle.qf_point.specs.Bests.{beats};
ghost use Rattle.qf_board.specs.Kept.{key_cmp, is_open_at, IsKeyFor, IsReal, best_number};

use crate::nodes::Link;
use qf_base::{List, NoMemory, PBox, Point};
use qf_point::{Best, cheapest, cost};
use std::alloc::Global;
use std::collections::BTreeSet;

/// The key of a leaf: the cost of the cheapest point of its box, that point, and the leaf's number. Keys are ordered as
/// points are, and by the numbers where the points are one.
#[derive(PartialEq, Eq, PartialOrd, Ord, Drop)]
pub struct Key {
    pub cost: u128,
    pub values: Vec<i64>,
    pub leaf: usize,
}

/// The key of a box under a leaf's number. The room becomes the cheapest point.
pub fn key_of(
    alloc: Global,
    olds: &List<i64>,
    region: &PBox,
    leaf: usize,
    room: &mut Point,
) -> Result<Key, NoMemory>
    requires olds { length olds.now ≡ length region.now }
    requires room { length room.old ≡ length region.now }
    requires spans { HasNoEmpty region.now }
    ensures room { length room.new ≡ length region.now }
    ensures key { IfOk result (λ key. IsKeyFor olds.now region.now leaf key) }
{
    cheapest(olds, region, room);
    Ok(Key {
        cost: cost(olds, room),
        values: Vec::from_slice(alloc, room.as_slice())?,
        leaf,
    })
}

/// Whether the point of a key is better than the best found.
pub fn is_wanted(olds: &List<i64>, best: &Best, key: &Key) -> bool
    requires best { length olds.now ≡ best.now.params }
    requires cost { key.now.cost ≡ cost olds.now key.now.values.items }
    ensures { result ≡ beats olds.now best.now.best key.now.values.items }
{
    match best.get() {
        None => true,
        Some(found) => {
            let by_cost = key.cost.cmp(&cost(olds, found));
            by_cost
                .then(key.values.as_slice().cmp(&found.as_slice()))
                .is_lt()
        }
    }
}

/// The first key of an open leaf.
pub fn first_open<'a>(links: &[Link], keys: &'a BTreeSet<Key>) -> Option<&'a Key>
    requires { AllByRecursion (λ key. key.leaf < length links.now) keys.now.keys }
    ensures first { option_copied result ≡ find (λ key. is_open_at links.now key.leaf) keys.now.keys }
    ensures ordered { IsOrdered key_cmp keys.now }
{
    for key in keys.iter() {
        if links[key.leaf].node.kind.is_open() {
            return Some(key);
        }
    }
    None
}

/// The number of the open leaf with the best key, if that key is better than the best found.
pub fn best_open(
    olds: &List<i64>,
    best: &Best,
    links: &[Link],
    keys: &BTreeSet<Key>,
) -> Option<usize>
    requires best { length olds.now ≡ best.now.params }
    requires keys { AllByRecursion (IsReal olds.now links.now) keys.now.keys }
    ensures number { result ≡ best_number olds.now best.now.best links.now keys.now.keys }
    ensures ordered { IsOrdered key_cmp keys.now }
{
    match first_open(links, keys) {
        Some(key) => {
            if is_wanted(olds, best, key) {
                Some(key.leaf)
            } else {
                None
            }
        }
        None => None,
    }
}

/// Puts two keys in the place of one; for want of memory the keys stay.
pub fn replace_key(
    alloc: Global,
    keys: &mut BTreeSet<Key>,
    gone: &Key,
    first: Key,
    second: Key,
) -> Result<(), NoMemory>
    requires { contains key_cmp keys.old first ≡ false }
    ensures ok { OnOk result (keys.new.keys ≡ remove_key (is_at (key_cmp gone.now)) (insert_key key_cmp (insert_key key_cmp keys.old.keys first) second)) }
    ensures gone { OnOk result (contains_by (key_cmp gone.now) keys.new ≡ false) }
    ensures err { OnErr result (keys.new.keys ≡ keys.old.keys) }
{
    let undo = Key {
        cost: first.cost,
        values: Vec::from_slice(alloc, first.values.as_slice())?,
        leaf: first.leaf,
    };
    keys.insert(first)?;
    match keys.insert(second) {
        Ok(_) => {
            keys.remove(gone);
            Ok(())
        }
        Err(_) => {
            keys.remove(&undo);
            Err(NoMemory)
        }
    }
}
