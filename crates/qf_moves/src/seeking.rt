// Points of a box at which a row may meet its goal, looked for in the row's circuit. They are only suggested, and need no
// proof but that this is safe.

use crate::moves::{Move, Sight};
use crate::sums::chosen_sum;
use qf_base::{NoMemory, Point};
use qf_circuit::Def;
use qf_lin::System;
use std::alloc::Global;

// So many moves are looked at.
const MOST_STEPS: usize = 64;

// The value of a number, from 1.
fn at(values: &[i64], number: u32) -> i64 {
    if number == 0 || number as usize > values.len() {
        return 0;
    }
    values[number as usize - 1]
}

fn total(terms: &[(i64, u32)], values: &[i64]) -> i64 {
    let mut sum: i64 = 0;
    for (factor, number) in terms {
        sum = sum.saturating_add(factor.saturating_mul(at(values, *number)));
    }
    sum
}

// Whether one of the truths has this value.
fn has(parts: &[u32], values: &[i64], truth: i64) -> bool {
    for part in parts {
        if at(values, *part) == truth {
            return true;
        }
    }
    false
}

fn truth(is_true: bool) -> i64 {
    if is_true { 1 } else { 0 }
}

fn value_of(def: &Def, point: &[i64], values: &[i64]) -> i64 {
    match def {
        Def::Param(param) => at(point, *param),
        Def::Const(value) => *value,
        Def::Linear(terms, constant) => total(terms.as_slice(), values).saturating_add(*constant),
        Def::AtLeastZero(part) => truth(at(values, *part) >= 0),
        Def::All(parts) => truth(!has(parts.as_slice(), values, 0)),
        Def::Any(parts) => truth(has(parts.as_slice(), values, 1)),
        Def::Not(part) => truth(at(values, *part) == 0),
        Def::Choose(test, one, other) => {
            if at(values, *test) > 0 {
                at(values, *one)
            } else {
                at(values, *other)
            }
        }
    }
}

// Makes the values of the row's circuit at a point.
fn evaluate(defs: &[Def], point: &[i64], values: &mut Vec<i64>) -> Result<(), NoMemory> {
    values.clear();
    for def in defs {
        let value = value_of(def, point, values.as_slice());
        values.push(value)?;
    }
    Ok(())
}

// The definition that the first inequality of one variable that fails speaks of, and by how much it has to change. All
// inequalities of more variables follow from the circuit.
fn missing(system: &System, values: &[i64]) -> Option<(u32, i64)> {
    for row in system.inequalities.as_slice() {
        if row.terms.len() == 1 {
            let (factor, number) = row.terms.as_slice()[0];
            let short = row
                .least
                .saturating_sub(factor.saturating_mul(at(values, number)));
            if short > 0 {
                let need = if factor < 0 {
                    short.wrapping_neg()
                } else {
                    short
                };
                return Some((number, need));
            }
        }
    }
    None
}

fn put(point: &mut Point, param: u32, value: i64) {
    if param != 0 && u64::from(param) <= point.len() {
        point.set(param - 1, value);
    }
}

// By how much each move alone changes a definition.
fn effects(
    alloc: Global,
    defs: &[Def],
    point: &mut Point,
    steps: &[Move],
    number: u32,
    values: &mut Vec<i64>,
) -> Result<Vec<i64>, NoMemory> {
    let before = at(values.as_slice(), number);
    let mut effects = Vec::new(alloc);
    for step in steps {
        let value = at(point.as_slice(), step.param);
        put(point, step.param, step.other_side(value));
        evaluate(defs, point.as_slice(), values)?;
        put(point, step.param, value);
        effects.push(at(values.as_slice(), number).saturating_sub(before))?;
    }
    Ok(effects)
}

// Goes to the other sides of the chosen moves.
fn apply(point: &mut Point, steps: &[Move], chosen: &[bool]) {
    for place in 0..steps.len() {
        if place < chosen.len() && chosen[place] {
            let step = steps[place];
            let value = at(point.as_slice(), step.param);
            put(point, step.param, step.other_side(value));
        }
    }
}

// Goes to other sides of selectors, so that the effects of each alone add up to what is missing.
fn flip(
    alloc: Global,
    sight: &Sight<'_>,
    point: &mut Point,
    goal: (u32, i64),
    values: &mut Vec<i64>,
) -> Result<(), NoMemory> {
    let steps = sight.flips(alloc, MOST_STEPS)?;
    let effects = effects(alloc, sight.defs(), point, steps.as_slice(), goal.0, values)?;
    if let Some(chosen) = chosen_sum(alloc, effects.as_slice(), goal.1)? {
        apply(point, steps.as_slice(), chosen.as_slice());
    }
    Ok(())
}

// Moves one parameter so far that what is missing is made up, if each step of it has the same effect.
fn shift(
    defs: &[Def],
    point: &mut Point,
    param: u32,
    goal: (u32, i64),
    values: &mut Vec<i64>,
) -> Result<(), NoMemory> {
    let before = at(values.as_slice(), goal.0);
    let value = at(point.as_slice(), param);
    put(point, param, value.saturating_add(1));
    evaluate(defs, point.as_slice(), values)?;
    let effect = at(values.as_slice(), goal.0).saturating_sub(before);
    if effect != 0 {
        put(
            point,
            param,
            value.saturating_add(goal.1.wrapping_div(effect)),
        );
    }
    Ok(())
}

// A point of the box at which nothing is missing for the row's goal, not far from the box's cheapest point.
fn seek(
    alloc: Global,
    sight: &Sight<'_>,
    system: &System,
    values: &mut Vec<i64>,
) -> Result<Option<Point>, NoMemory> {
    let mut point = sight.cheapest(alloc)?;
    evaluate(sight.defs(), point.as_slice(), values)?;
    let Some(goal) = missing(system, values.as_slice()) else {
        return Ok(Some(point));
    };
    flip(alloc, sight, &mut point, goal, values)?;
    for param in sight.open_params(alloc, MOST_STEPS)?.as_slice() {
        evaluate(sight.defs(), point.as_slice(), values)?;
        if missing(system, values.as_slice()).is_none() {
            return Ok(Some(point));
        }
        point = sight.cheapest(alloc)?;
        evaluate(sight.defs(), point.as_slice(), values)?;
        shift(sight.defs(), &mut point, *param, goal, values)?;
    }
    evaluate(sight.defs(), point.as_slice(), values)?;
    if missing(system, values.as_slice()).is_none() {
        Ok(Some(point))
    } else {
        Ok(None)
    }
}

/// By the places of the complained rows, points at which they met their goals.
#[derive(Drop)]
pub struct Finds {
    points: Vec<Option<Point>>,
    room: Vec<i64>,
}

impl Finds {
    /// None is known, for so many rows.
    pub fn new(alloc: Global, rows: u64) -> Result<Finds, NoMemory> {
        let mut points = Vec::new(alloc);
        for _row in 0..rows {
            points.push(None)?;
        }
        Ok(Finds {
            points,
            room: Vec::new(alloc),
        })
    }

    /// A point at which the row at this place may meet its goal.
    pub fn get(&self, place: usize) -> Option<&Point> {
        if place < self.points.len() {
            self.points[place].as_ref()
        } else {
            None
        }
    }

    /// Looks for a point of a box at which the row at this place meets its goal.
    pub fn seek(
        &mut self,
        alloc: Global,
        place: usize,
        sight: &Sight<'_>,
        system: &System,
    ) -> Result<(), NoMemory> {
        let found = seek(alloc, sight, system, &mut self.room)?;
        if found.is_some() && place < self.points.len() {
            self.points[place] = found;
        }
        Ok(())
    }
}
