ghost use Rattle.std.specs.Prelude.{◌≡◌, ◌∷◌, ◌++◌, [], ◌+◌, ◌<◌, length, slice_set, IfOk, OnOk, OnErr};
ghost use Rattle.qf_circuit.specs.Circuits.{IsCircuit, MayFollow, eval, hull_of};
ghost use Rattle.qf_circuit.specs.Limits.{ValuesFit, HullsFit};

use crate::hulls::hull_of_def;
use crate::values::value_of_def;
use qf_base::{Intervals, List, NoMemory, PBox, Point};
use std::alloc::Global;
use std::marker::Model;

/// A definition of a circuit. It names earlier definitions by their numbers, from 1, and a parameter by its number, from
/// 1. Truth is 1, and falsehood 0.
#[derive(Drop)]
pub enum Def {
    /// The value of a parameter.
    Param(u32),
    Const(i64),
    /// The sum of factors times definitions, and a constant.
    Linear(List<(i64, u32)>, i64),
    /// Whether a definition is at least 0.
    AtLeastZero(u32),
    /// Whether all of some truths are true.
    All(List<u32>),
    /// Whether some of some truths is true.
    Any(List<u32>),
    Not(u32),
    /// The second definition where the first, a truth, is true, and else the third.
    Choose(u32, u32, u32),
}

/// Definitions, each of which names only earlier ones, and takes only truths for truths. A circuit is seen as the list of
/// its definitions; definition `n`, from 1, stands at place `n - 1`.
#[derive(Drop)]
pub struct Circuit {
    defs: List<Def>,
}

impl Model for Circuit {
    ghost use Rattle.std.specs.Prelude.{List as Items};
    ghost use Rattle.qf_circuit.specs.declared.circuit.Def.{Def as Definition};
    ghost use Rattle.qf_circuit.specs.Circuits.{IsCircuit};

    ghost Value = { Items Definition };

    ghost view = { λ c. c.defs };

    ghost invariant = { λ c. IsCircuit c.defs };
}

fn put(hull: &mut Intervals, place: u32, interval: (i64, i64))
    requires { place < length hull.old }
    ensures { hull.new ≡ slice_set hull.old place interval }
{
    hull.set(place, interval.0, interval.1);
}

impl Circuit {
    /// The circuit without definitions.
    pub fn new(alloc: Global) -> Circuit
        ensures { result ≡ [] }
    {
        Circuit {
            defs: List::new(alloc),
        }
    }

    /// The circuit of definitions that name only earlier ones, and take only truths for truths.
    pub fn from_list(defs: List<Def>) -> Circuit
        requires circuit { IsCircuit defs }
        ensures { result ≡ defs }
    {
        Circuit { defs }
    }

    #[tactic(auto, using(crate::proofs::Steps::circuit_pushed))]
    /// Adds a definition, and gives its number; for want of memory the circuit stays.
    pub fn push(&mut self, def: Def) -> Result<u32, NoMemory>
        requires follows { MayFollow self.old def }
        ensures number { IfOk result (λ number. number ≡ length self.old + 1) }
        ensures ok { OnOk result (self.new ≡ self.old ++ def ∷ []) }
        ensures err { OnErr result (self.new ≡ self.old) }
    {
        self.defs.push(def)?;
        Ok(self.defs.len() as u32)
    }

    /// How many definitions there are.
    pub fn len(&self) -> u32
        ensures { result ≡ length self.now }
    {
        self.defs.len() as u32
    }

    /// The definitions in order.
    pub fn defs(&self) -> &List<Def>
        ensures defs { result.now ≡ self.now }
        ensures circuit { IsCircuit self.now }
    {
        &self.defs
    }

    /// The value of each definition at a point.
    pub fn eval(&self, alloc: Global, point: &Point) -> Result<List<i64>, NoMemory>
        requires fits { ValuesFit point.now [] self.now }
        ensures { IfOk result (λ values. values ≡ eval point.now self.now) }
    {
        let mut values = List::new(alloc);
        for def in self.defs.as_slice() {
            let value = value_of_def(point, values.as_slice(), def);
            values.push(value)?;
        }
        Ok(values)
    }

    /// The interval of each definition over a box.
    pub fn hull(&self, alloc: Global, region: &PBox) -> Result<Intervals, NoMemory>
        requires fits { HullsFit region.now [] self.now }
        ensures { IfOk result (λ hull. hull ≡ hull_of region.now self.now) }
    {
        let mut hull = Intervals::new(alloc, self.len())?;
        for place in 0..self.len() {
            let def = self.defs.at(u64::from(place));
            let interval = hull_of_def(region, &hull.as_slice()[..place as usize], def);
            put(&mut hull, place, interval);
        }
        Ok(hull)
    }
}
