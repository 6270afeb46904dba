// Where an open parameter may move: to the other side of a selector that it decides alone, or into what the sweeps of a row
// leave of its interval. All of it is only suggested, and needs no proof but that it is safe.

use qf_base::{Intervals, List, NoMemory, PBox, Point};
use qf_circuit::Def;
use qf_encode::Coded;
use std::alloc::Global;

/// A cut of a parameter, from 1, and how far from the cheapest value the other side of the cut begins.
#[derive(Clone, Copy)]
pub struct Move {
    pub param: u32,
    pub cut: i64,
    pub cost: u64,
}

/// A row at a box: its circuit, its hull, the box, and the old constants.
#[derive(Clone, Copy)]
pub struct Sight<'a> {
    pub coded: &'a Coded,
    pub hull: &'a Intervals,
    pub region: &'a PBox,
    pub olds: &'a List<i64>,
}

// The interval of a number, from 1.
fn interval(hull: &Intervals, number: u32) -> Option<(i64, i64)> {
    if number == 0 || number > hull.len() {
        return None;
    }
    Some(hull.get(number - 1))
}

// The last value before the sum of a factor times it and of the rest changes its sign.
fn cut_at(factor: i64, rest: i64) -> Option<i64> {
    if factor > 0 {
        let short: i64 = -1;
        Some(short.saturating_sub(rest).div_euclid(factor))
    } else if factor < 0 && factor > i64::MIN {
        Some(rest.div_euclid(-factor))
    } else {
        None
    }
}

// The costlier of two moves.
fn costlier(best: Option<Move>, other: Option<Move>) -> Option<Move> {
    match (best, other) {
        (Some(one), Some(two)) => { if two.cost > one.cost { other } else { best } }
        (None, _) => other,
        (_, None) => best,
    }
}

impl Move {
    /// The value nearest to this one on the other side of the cut.
    pub fn other_side(&self, value: i64) -> i64 {
        if value <= self.cut {
            self.cut.saturating_add(1)
        } else {
            self.cut
        }
    }
}

impl Sight<'_> {
    /// The definitions of the row's circuit.
    pub fn defs(&self) -> &[Def] {
        self.coded.circuit.defs().as_slice()
    }

    // The definition of a number, from 1.
    fn def(&self, number: u32) -> Option<&Def> {
        let defs = self.defs();
        if number == 0 || number as usize > defs.len() {
            return None;
        }
        Some(&defs[number as usize - 1])
    }

    // The parameter that a definition stands for.
    fn param(&self, number: u32) -> Option<u32> {
        match self.def(number) {
            Some(Def::Param(param)) => Some(*param),
            _ => None,
        }
    }

    // The cheapest value of a parameter, from 1.
    fn value(&self, param: u32) -> Option<i64> {
        let Some((lo, hi)) = interval(self.region, param) else {
            return None;
        };
        let olds = self.olds.as_slice();
        if param == 0 || param as usize > olds.len() {
            return None;
        }
        Some(olds[param as usize - 1].min(hi).max(lo))
    }

    /// The cheapest point of the box.
    pub fn cheapest(&self, alloc: Global) -> Result<Point, NoMemory> {
        let mut values = List::new(alloc);
        for place in 0..self.region.len() {
            values.push(self.value(place + 1).unwrap_or(0))?;
        }
        Point::new(alloc, &values)
    }

    // The move over a cut, where that cuts the box.
    fn over(&self, param: u32, cut: i64) -> Option<Move> {
        let Some((lo, hi)) = interval(self.region, param) else {
            return None;
        };
        let Some(value) = self.value(param) else {
            return None;
        };
        if cut < lo || hi <= cut {
            return None;
        }
        let cost = if value <= cut {
            cut.abs_diff(value).saturating_add(1)
        } else {
            cut.abs_diff(value)
        };
        Some(Move { param, cut, cost })
    }

    // The one definition of a sum that is not fixed over the box, with its factor, and the sum of all else.
    fn one_open(&self, terms: &[(i64, u32)], constant: i64) -> Option<(i64, u32, i64)> {
        let mut rest = constant;
        let mut free = None;
        for (factor, number) in terms {
            let Some((lo, hi)) = interval(self.hull, *number) else {
                return None;
            };
            if lo == hi {
                rest = rest.saturating_add(factor.saturating_mul(lo));
            } else if free.is_none() {
                free = Some((*factor, *number));
            } else {
                return None;
            }
        }
        match free {
            Some((factor, number)) => Some((factor, number, rest)),
            None => None,
        }
    }

    // The move to the other side of a truth that compares a sum with 0.
    fn flip(&self, number: u32) -> Option<Move> {
        let Some(Def::AtLeastZero(sum)) = self.def(number) else {
            return None;
        };
        let Some(Def::Linear(terms, constant)) = self.def(*sum) else {
            return None;
        };
        let Some((factor, free, rest)) = self.one_open(terms.as_slice(), *constant) else {
            return None;
        };
        match (self.param(free), cut_at(factor, rest)) {
            (Some(param), Some(cut)) => self.over(param, cut),
            _ => None,
        }
    }

    // The costliest move to the other side of a selector that one parameter decides.
    fn costliest_flip(&self) -> Option<Move> {
        let mut best = None;
        for place in 0..self.hull.len() {
            if self.hull.get(place) == (0, 1) {
                best = costlier(best, self.flip(place + 1));
            }
        }
        best
    }

    /// The first so many open parameters that the row's circuit names.
    pub fn open_params(&self, alloc: Global, most: usize) -> Result<Vec<u32>, NoMemory> {
        let mut params = Vec::new(alloc);
        for place in 0..self.hull.len() {
            let (lo, hi) = self.hull.get(place);
            if params.len() < most && lo < hi {
                if let Some(param) = self.param(place + 1) {
                    params.push(param)?;
                }
            }
        }
        Ok(params)
    }

    /// The moves to the other sides of the first so many selectors that one parameter decides each.
    pub fn flips(&self, alloc: Global, most: usize) -> Result<Vec<Move>, NoMemory> {
        let mut flips = Vec::new(alloc);
        for place in 0..self.hull.len() {
            if flips.len() < most && self.hull.get(place) == (0, 1) {
                if let Some(step) = self.flip(place + 1) {
                    flips.push(step)?;
                }
            }
        }
        Ok(flips)
    }

    // The move of a parameter from its cheapest value into an interval.
    fn toward(&self, param: u32, interval: (i64, i64)) -> Option<Move> {
        let (lo, hi) = interval;
        let Some(value) = self.value(param) else {
            return None;
        };
        if hi < lo {
            None
        } else if value < lo {
            self.over(param, lo - 1)
        } else if hi < value {
            self.over(param, hi)
        } else {
            None
        }
    }

    // The costliest move of a parameter from its cheapest value into what sweeps left of its interval.
    fn costliest_inward(&self, swept: &Intervals) -> Option<Move> {
        let mut best = None;
        for place in 0..swept.len() {
            if let Some(param) = self.param(place + 1) {
                best = costlier(best, self.toward(param, swept.get(place)));
            }
        }
        best
    }

    /// Where the box may be cut. Where the sweeps leave the cheapest value of a parameter out, it is cut between that and what
    /// they leave, so that one half is refuted at once. Else it is cut where the costliest selector flips that one parameter
    /// decides: the half of the other side is dear, and the cheap selectors stay in one box, which cases refute.
    pub fn cut(&self, swept: &Intervals) -> Option<(u32, i64)> {
        let step = match self.costliest_inward(swept) {
            Some(step) => Some(step),
            None => self.costliest_flip(),
        };
        match step {
            Some(step) => Some((step.param, step.cut)),
            None => None,
        }
    }
}
