// The boxes of a tree that are still to come, told from the box at hand, which is changed in place.

ghost use Rattle.std.specs.Prelude.{◌≡◌, [], ◌∷◌, ◌-◌, ◌<◌, ◌<ℤ◌, ◌+ℤ◌, pos, int_le, int_lt, ◌&&◌, false, true, length, slice_set, IsTrue, OnOk, IfOk};
ghost use Rattle.qf_base.specs.Values.{Bounds};
ghost use Rattle.qf_point.specs.Points.{lower_half, upper_half};
ghost use Rattle.qf_tree.specs.Certificates.{cuts_inside};
ghost use Rattle.qf_encode.specs.Lives.{BoxIn};
ghost use Rattle.qf_check.specs.Splits.{boxes_of, boxes_to_come, LieIn};

use crate::stack::Stack;
use qf_base::{NoMemory, PBox};
use std::alloc::Global;

/// A split on the way to the box at hand: the place of the parameter, from 0, its interval before, the cut, and whether the
/// box at hand lies in the upper half.
#[derive(Clone, Copy)]
pub struct Frame {
    pub place: u32,
    pub whole: (i64, i64),
    pub cut: i64,
    pub is_upper: bool,
}

/// The box at hand, and the splits that led to it.
#[derive(Drop)]
pub struct Boxes {
    pub region: PBox,
    pub frames: Stack<Frame>,
    pub is_done: bool,
}

fn put(region: &mut PBox, place: u32, interval: (i64, i64))
    requires { place < length region.old }
    ensures { region.new ≡ slice_set region.old place interval }
{
    region.set(place, interval.0, interval.1);
}

// Leaves the values up to the cut.
fn keep_lower(region: &mut PBox, place: u32, cut: i64)
    requires { place < length region.old }
    ensures { region.new ≡ lower_half region.old place cut }
{
    let (low, _) = region.get(place);
    region.set(place, low, cut);
}

fn cuts(interval: (i64, i64), cut: i64) -> bool
    ensures { result ≡ (int_le interval.0 cut && int_lt cut interval.1) }
{
    interval.0 <= cut && cut < interval.1
}

/// The place of a parameter.
fn place_of(param: u32) -> u32
    ensures { result ≡ param - 1 }
{
    if param == 0 { 0 } else { param - 1 }
}

/// Whether the cut parts the interval of the parameter, from 1, in two.
pub fn cuts_inside(region: &PBox, param: u32, cut: i64) -> bool
    ensures { result ≡ cuts_inside region.now param cut }
{
    let place = place_of(param);
    place < region.len() && cuts(region.get(place), cut)
}

impl Boxes {
    /// One box.
    pub fn new(alloc: Global, region: &PBox) -> Result<Boxes, NoMemory>
        ensures boxes { IfOk result (λ boxes. boxes_of boxes ≡ region.now ∷ []) }
        ensures inside { (root : Bounds) → BoxIn region.now root → IfOk result (LieIn root) }
    {
        Ok(Boxes {
            region: region.copy(alloc)?,
            frames: Stack::new(alloc),
            is_done: false,
        })
    }

    /// Goes on to the lower half of the box at hand; the upper half comes after it.
    pub fn split(&mut self, param: u32, cut: i64) -> Result<(), NoMemory>
        requires there { self.old.is_done ≡ false }
        requires inside { IsTrue (cuts_inside self.old.region param cut) }
        ensures boxes { OnOk result (boxes_of self.new ≡ lower_half self.old.region (param - 1) cut ∷ upper_half self.old.region (param - 1) cut ∷ boxes_to_come self.old.region self.old.frames) }
        ensures inside { (root : Bounds) → LieIn root self.old → OnOk result (LieIn root self.new) }
    {
        let place = place_of(param);
        let whole = self.region.get(place);
        keep_lower(&mut self.region, place, cut);
        self.frames.push(Frame {
            place,
            whole,
            cut,
            is_upper: false,
        })
    }

    // Goes over to the upper half of a split.
    fn enter_upper(&mut self, frame: Frame) -> Result<(), NoMemory>
        requires place { frame.place < length self.old.region }
        requires cut { frame.cut <ℤ frame.whole.1 }
        ensures region { self.new.region ≡ slice_set self.old.region frame.place (frame.cut +ℤ pos 1, frame.whole.1) }
        ensures frames { OnOk result (self.new.frames ≡ record frame { is_upper = true } ∷ self.old.frames) }
        ensures is_done { self.new.is_done ≡ self.old.is_done }
    {
        let Frame {
            place,
            whole,
            cut,
            is_upper: _,
        } = frame;
        put(&mut self.region, place, (cut + 1, whole.1));
        self.frames.push(Frame {
            place,
            whole,
            cut,
            is_upper: true,
        })
    }

    /// Goes on to the next box.
    pub fn next(&mut self) -> Result<(), NoMemory>
        requires there { self.old.is_done ≡ false }
        requires inside { (root : Bounds) × LieIn root self.old }
        ensures boxes { OnOk result (boxes_of self.new ≡ boxes_to_come self.old.region self.old.frames) }
        ensures inside { (root : Bounds) → LieIn root self.old → OnOk result (LieIn root self.new) }
    {
        while let Some(frame) = self.frames.pop() {
            if frame.is_upper {
                put(&mut self.region, frame.place, frame.whole);
            } else {
                return self.enter_upper(frame);
            }
        }
        self.is_done = true;
        Ok(())
    }
}
