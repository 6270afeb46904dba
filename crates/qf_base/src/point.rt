ghost use Rattle.std.specs.Prelude.{◌≡◌, ◌<◌, ◌^◌, [], length, replicate, slice_get, slice_set, IfOk, pos};

use crate::{List, NoMemory};
use std::alloc::Global;
use std::marker::Model;

/// One value for each parameter, seen as the list of the values. The value of parameter `k`, from 1, stands at place
/// `k - 1`.
#[derive(Debug, Drop)]
pub struct Point {
    values: Vec<i64>,
}

impl Model for Point {
    ghost use Rattle.std.specs.Prelude.{List, ℤ};

    ghost Value = { List ℤ };

    ghost view = { λ p. p.values.items };
}

impl Point {
    /// The point with these values.
    pub fn new(alloc: Global, values: &List<i64>) -> Result<Point, NoMemory>
        ensures { IfOk result (λ point. point ≡ values.now) }
    {
        Ok(Point {
            values: Vec::from_slice(alloc, values.as_slice())?,
        })
    }

    /// How many values there are.
    pub fn len(&self) -> u64
        ensures { result ≡ length self.now }
    {
        self.values.len() as u64
    }

    /// The value at a place, from 0.
    pub fn get(&self, place: u32) -> i64
        requires { place < length self.now }
        ensures { slice_get self.now place ≡ Some result }
    {
        self.values[place as usize]
    }

    /// Puts a value at a place, from 0.
    pub fn set(&mut self, place: u32, value: i64)
        requires { place < length self.old }
        ensures { self.new ≡ slice_set self.old place value }
    {
        self.values[place as usize] = value;
    }

    /// The values as a slice.
    pub fn as_slice(&self) -> &[i64]
        ensures { result.now ≡ self.now }
    {
        self.values.as_slice()
    }

    /// An equal point.
    pub fn copy(&self, alloc: Global) -> Result<Point, NoMemory>
        ensures { IfOk result (λ point. point ≡ self.now) }
    {
        Ok(Point {
            values: Vec::from_slice(alloc, self.values.as_slice())?,
        })
    }

    /// Takes over the values of another point, which has as many.
    pub fn copy_from(&mut self, other: &Point)
        requires { length self.old ≡ length other.now }
        ensures { self.new ≡ other.now }
    {
        self.values
            .as_mut_slice()
            .copy_from_slice(other.values.as_slice());
    }
}

/// An interval for each place: its least and its greatest value. It is seen as the list of these pairs, of which there are
/// fewer than 2^32.
#[derive(Debug, Drop)]
pub struct Intervals {
    ends: Vec<(i64, i64)>,
}

impl Model for Intervals {
    ghost use Rattle.std.specs.Prelude.{List, ℤ, ◌<◌, ◌^◌, length};

    ghost Value = { List (ℤ × ℤ) };

    ghost view = { λ b. b.ends.items };

    ghost invariant = { λ b. length b.ends.items < 2 ^ 32 };
}

/// A box of points: one interval for each parameter, in the order of their numbers.
pub type PBox = Intervals;

impl Intervals {
    /// So many intervals from 0 to 0.
    pub fn new(alloc: Global, len: u32) -> Result<Intervals, NoMemory>
        ensures { IfOk result (λ intervals. intervals ≡ replicate len (pos 0, pos 0)) }
    {
        Ok(Intervals {
            ends: vec![in alloc; (0i64, 0i64); len as usize]?,
        })
    }

    /// The intervals of a list, which are kept without taking memory.
    pub fn from_list(ends: List<(i64, i64)>) -> Intervals
        requires { length ends < 2 ^ 32 }
        ensures { result ≡ ends }
    {
        Intervals {
            ends: ends.into_vec(),
        }
    }

    /// How many intervals there are.
    pub fn len(&self) -> u32
        ensures len { result ≡ length self.now }
        ensures small { length self.now < 2 ^ 32 }
    {
        self.ends.len() as u32
    }

    /// The intervals as a slice.
    pub fn as_slice(&self) -> &[(i64, i64)]
        ensures { result.now ≡ self.now }
    {
        self.ends.as_slice()
    }

    /// The interval at a place, from 0.
    pub fn get(&self, place: u32) -> (i64, i64)
        requires { place < length self.now }
        ensures { slice_get self.now place ≡ Some result }
    {
        self.ends[place as usize]
    }

    /// Puts an interval at a place, from 0.
    pub fn set(&mut self, place: u32, lo: i64, hi: i64)
        requires { place < length self.old }
        ensures { self.new ≡ slice_set self.old place (lo, hi) }
    {
        self.ends[place as usize] = (lo, hi);
    }

    /// Equal intervals.
    pub fn copy(&self, alloc: Global) -> Result<Intervals, NoMemory>
        ensures { IfOk result (λ intervals. intervals ≡ self.now) }
    {
        Ok(Intervals {
            ends: Vec::from_slice(alloc, self.ends.as_slice())?,
        })
    }

    /// Takes over the intervals of another, which has as many.
    pub fn copy_from(&mut self, other: &Intervals)
        requires { length self.old ≡ length other.now }
        ensures { self.new ≡ other.now }
    {
        self.ends
            .as_mut_slice()
            .copy_from_slice(other.ends.as_slice());
    }
}
