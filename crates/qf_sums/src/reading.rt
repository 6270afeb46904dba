// How a row's circuit is read backwards as a sum of what single statements add.

use crate::forms::Form;
use crate::slots::{Slots, Span};
use crate::units::Unit;
use qf_base::NoMemory;
use qf_circuit::Def;
use qf_encode::Coded;
use qf_ir::{Cell, Goal};
use std::alloc::Global;

/// A row's definitions with their intervals over the root box.
#[derive(Clone, Copy)]
pub struct Reading<'a> {
    pub defs: &'a [Def],
    pub hull: &'a [Span],
    pub slots: &'a Slots,
}

// A sum that hangs on one definition: a factor times it, and what the rest comes to.
#[derive(Clone, Copy)]
struct Line {
    factor: i64,
    var: u32,
    rest: i64,
}

// What a definition is, seen from the end of a row's life.
#[derive(Clone, Copy)]
enum Back {
    // It is this number.
    Ends(i64),
    // It is this number more than an earlier definition.
    Moves(u32, i64),
    // It is what a unit adds to an earlier definition.
    Adds(u32, Unit),
}

/// The number of a cell: a text counts by its code.
pub fn number_of(cell: &Cell) -> i64 {
    match cell {
        Cell::Int(number) => *number,
        Cell::Text(code) => i64::from(*code),
    }
}

impl<'a> Reading<'a> {
    fn def(&self, number: u32) -> Option<&'a Def> {
        let place = number.checked_sub(1)?;
        self.defs.get(place as usize)
    }

    fn span(&self, number: u32) -> Span {
        let place = number.saturating_sub(1);
        self.hull.get(place as usize).copied().unwrap_or((0, 0))
    }

    fn is_free(&self, number: u32) -> bool {
        let (low, high) = self.span(number);
        low < high
    }

    fn fixed(&self, number: u32) -> i64 {
        self.span(number).0
    }

    // The sum, where it hangs on one definition.
    fn line(&self, terms: &[(i64, u32)], constant: i64) -> Option<Line> {
        let mut free = None;
        let mut rest = constant;
        for (factor, var) in terms {
            if *factor != 0 && self.is_free(*var) {
                if free.is_some() {
                    return None;
                }
                free = Some((*factor, *var));
            } else {
                rest = rest.saturating_add(factor.saturating_mul(self.fixed(*var)));
            }
        }
        let (factor, var) = free?;
        Some(Line { factor, var, rest })
    }

    fn line_of(&self, number: u32) -> Option<Line> {
        match self.def(number)? {
            Def::Linear(terms, constant) => self.line(terms.as_slice(), *constant),
            _ => None,
        }
    }

    // By how much a definition is more than an earlier one.
    fn more(&self, from: u32, to: u32) -> Option<i64> {
        if !self.is_free(from) && !self.is_free(to) {
            return Some(self.fixed(from).saturating_sub(self.fixed(to)));
        }
        let mut at = from;
        let mut more: i64 = 0;
        for _ in self.defs {
            if at == to {
                return Some(more);
            }
            let line = self.line_of(at)?;
            if line.factor != 1 {
                return None;
            }
            more = more.saturating_add(line.rest);
            at = line.var;
        }
        None
    }

    // The only truth of some that is open.
    fn only_free(&self, vars: &[u32]) -> Option<u32> {
        let mut free = None;
        for var in vars {
            if self.is_free(*var) {
                if free.is_some() {
                    return None;
                }
                free = Some(*var);
            }
        }
        free
    }

    // The sum on whose sign a truth hangs, and whether the truth is its opposite.
    fn compared(&self, test: u32) -> Option<(u32, bool)> {
        let mut at = test;
        let mut is_opposite = false;
        for _ in self.defs {
            match self.def(at)? {
                Def::AtLeastZero(sum) => return Some((*sum, is_opposite)),
                Def::Not(var) => {
                    is_opposite = !is_opposite;
                    at = *var;
                }
                Def::All(vars) => at = self.only_free(vars.as_slice())?,
                Def::Any(vars) => at = self.only_free(vars.as_slice())?,
                _ => return None,
            }
        }
        None
    }

    fn slot_of(&self, number: u32) -> Option<u32> {
        match self.def(number)? {
            Def::Param(param) => self.slots.slot_of(*param),
            _ => None,
        }
    }

    // The unit that adds an amount where a truth holds.
    fn unit(&self, test: u32, amount: i64) -> Option<Unit> {
        let (sum, is_opposite) = self.compared(test)?;
        let line = self.line_of(sum)?;
        let slot = self.slot_of(line.var)?;
        let is_low = line.factor < 0;
        let threshold = if is_low {
            let by = 0i64.saturating_sub(line.factor);
            line.rest.checked_div_euclid(by)?
        } else {
            let whole = line.rest.checked_div_euclid(line.factor)?;
            (-1i64).saturating_sub(whole)
        };
        Some(Unit {
            slot,
            threshold,
            adds_low: is_low != is_opposite,
            amount,
        })
    }

    // What a choice of two definitions is.
    fn chosen(&self, test: u32, left: u32, right: u32) -> Option<Back> {
        if !self.is_free(test) {
            let same = if self.fixed(test) == 1 { left } else { right };
            return Some(Back::Moves(same, 0));
        }
        let amount = self.more(left, right)?;
        if amount == 0 {
            return Some(Back::Moves(right, 0));
        }
        Some(Back::Adds(right, self.unit(test, amount)?))
    }

    fn back(&self, number: u32) -> Option<Back> {
        if !self.is_free(number) {
            return Some(Back::Ends(self.fixed(number)));
        }
        match self.def(number)? {
            Def::Choose(test, left, right) => self.chosen(*test, *left, *right),
            Def::Linear(terms, constant) => {
                let line = self.line(terms.as_slice(), *constant)?;
                if line.factor == 1 {
                    Some(Back::Moves(line.var, line.rest))
                } else {
                    None
                }
            }
            _ => None,
        }
    }

    // The units behind a definition, the last first, and what they have to add up to so that it is the wanted number.
    fn units(
        &self,
        alloc: Global,
        number: u32,
        wanted: i64,
    ) -> Result<Option<(Vec<Unit>, i64)>, NoMemory> {
        let mut units: Vec<Unit> = Vec::new(alloc);
        let mut at = number;
        let mut rest = wanted;
        for _ in self.defs {
            match self.back(at) {
                Some(Back::Ends(number)) => {
                    return Ok(Some((units, rest.saturating_sub(number))));
                }
                Some(Back::Moves(to, more)) => {
                    rest = rest.saturating_sub(more);
                    at = to;
                }
                Some(Back::Adds(to, unit)) => {
                    if let Some(later) = units.last() {
                        if later.slot <= unit.slot {
                            return Ok(None);
                        }
                    }
                    units.push(unit)?;
                    at = to;
                }
                None => return Ok(None),
            }
        }
        Ok(None)
    }

    // The column that decides whether the goal is met, and the number that it has to be. Nothing where there are more, or
    // where another one is decided and wrong.
    fn deciding_cell(&self, coded: &Coded, wanted: &[Option<Cell>]) -> Option<(u32, i64)> {
        let mut deciding = None;
        for (column, cell) in coded.columns.as_slice().iter().zip(wanted) {
            if let Some(cell) = cell {
                let number = number_of(cell);
                if self.is_free(*column) {
                    if deciding.is_some() {
                        return None;
                    }
                    deciding = Some((*column, number));
                } else if self.fixed(*column) != number {
                    return None;
                }
            }
        }
        deciding
    }

    fn lives_surely(&self, coded: &Coded) -> bool {
        self.fixed(coded.live) == 1
    }

    /// The row as one that adds up, where it is one.
    pub fn form(
        &self,
        alloc: Global,
        coded: &Coded,
        goal: &Goal,
    ) -> Result<Option<Form>, NoMemory> {
        let Goal::There(wanted) = goal else {
            return Ok(None);
        };
        if !self.lives_surely(coded) {
            return Ok(None);
        }
        let Some((column, number)) = self.deciding_cell(coded, wanted.as_slice()) else {
            return Ok(None);
        };
        let Some((mut units, target)) = self.units(alloc, column, number)? else {
            return Ok(None);
        };
        units.reverse();
        Ok(Some(Form {
            class: 0,
            target,
            units,
        }))
    }
}
