// Rows that do not add up, by their circuits.

use qf_base::{Intervals, NoMemory};
use qf_circuit::Def;
use qf_encode::Coded;
use qf_ir::Goal;
use qf_sums::{Slots, Span, number_of, span_at};
use std::alloc::Global;

const MOST_CASES: u32 = 8;

/// A row's circuit, with what some definitions have to be where the row meets its goal. It has room for the intervals of the
/// definitions over one box, and for their values at its cheapest point.
#[derive(Drop)]
pub struct Wired {
    coded: Coded,
    open: Vec<u32>,
    targets: Vec<(u32, i64)>,
    hull: Vec<Span>,
    values: Vec<Span>,
}

/// How a definition comes to lie in a span.
#[derive(Clone, Copy)]
pub enum Way {
    /// Not at all.
    None,
    /// In a way that is not followed further.
    Some,
    /// Only if another definition lies in a span.
    Through(u32, Span),
    /// Only if a truth is true or false, and another definition lies in the same span.
    If(u32, bool, u32),
    /// Only if a truth is true and the first of two definitions lies in the same span, or it is false and the second does.
    Either(u32, u32, u32),
}

fn are_apart(left: Span, right: Span) -> bool {
    left.1 < right.0 || right.1 < left.0
}

fn is_within(inner: Span, outer: Span) -> bool {
    outer.0 <= inner.0 && inner.1 <= outer.1
}

/// The span of a truth alone.
pub fn truth(is_set: bool) -> Span {
    (i64::from(is_set), i64::from(is_set))
}

// What a truth has to be, where its opposite lies in a span.
fn opposite(span: Span) -> Span {
    (1i64.saturating_sub(span.1), 1i64.saturating_sub(span.0))
}

// What a number has to be, where the truth that it is at least 0 lies in a span.
fn signed(span: Span) -> Span {
    if 0 < span.0 {
        (0, i64::MAX)
    } else {
        (i64::MIN, -1)
    }
}

fn times(factor: i64, span: Span) -> Span {
    let one = factor.saturating_mul(span.0);
    let other = factor.saturating_mul(span.1);
    (one.min(other), one.max(other))
}

fn add(left: Span, right: Span) -> Span {
    (
        left.0.saturating_add(right.0),
        left.1.saturating_add(right.1),
    )
}

fn rounded_down(number: i64, by: i64) -> i64 {
    number.checked_div_euclid(by).unwrap_or(number)
}

fn rounded_up(number: i64, by: i64) -> i64 {
    0i64.saturating_sub(rounded_down(0i64.saturating_sub(number), by))
}

// What a number has to be, where a factor times it and something in another span come to lie in a span.
fn solved(factor: i64, others: Span, wanted: Span) -> Span {
    let low = wanted.0.saturating_sub(others.1);
    let high = wanted.1.saturating_sub(others.0);
    if factor < 0 {
        let by = 0i64.saturating_sub(factor);
        (
            rounded_up(0i64.saturating_sub(high), by),
            rounded_down(0i64.saturating_sub(low), by),
        )
    } else {
        (rounded_up(low, factor), rounded_down(high, factor))
    }
}

// The interval of a number among some.
fn among(spans: &[Span], number: u32) -> Span {
    span_at(spans, number.saturating_sub(1) as usize)
}

fn sum_span(spans: &[Span], terms: &[(i64, u32)], constant: i64) -> Span {
    let mut sum = (constant, constant);
    for (factor, var) in terms {
        sum = add(sum, times(*factor, among(spans, *var)));
    }
    sum
}

fn all_span(spans: &[Span], vars: &[u32]) -> Span {
    let mut span = (1, 1);
    for var in vars {
        let own = among(spans, *var);
        span = (own.0.min(span.0), own.1.min(span.1));
    }
    span
}

fn any_span(spans: &[Span], vars: &[u32]) -> Span {
    let mut span = (0, 0);
    for var in vars {
        let own = among(spans, *var);
        span = (own.0.max(span.0), own.1.max(span.1));
    }
    span
}

fn chosen_span(test: Span, left: Span, right: Span) -> Span {
    if 0 < test.0 {
        left
    } else if test.1 < 1 {
        right
    } else {
        (left.0.min(right.0), left.1.max(right.1))
    }
}

// The interval of a definition, where parameters and earlier definitions have these.
fn span_of(def: &Def, spans: &[Span], slots: &Slots, region: &[Span]) -> Option<Span> {
    match def {
        Def::Param(param) => {
            let slot = slots.slot_of(*param)?;
            Some(span_at(region, slot as usize))
        }
        Def::Const(number) => Some((*number, *number)),
        Def::Linear(terms, constant) => Some(sum_span(spans, terms.as_slice(), *constant)),
        Def::AtLeastZero(var) => {
            let (low, high) = among(spans, *var);
            Some((i64::from(0 <= low), i64::from(0 <= high)))
        }
        Def::All(vars) => Some(all_span(spans, vars.as_slice())),
        Def::Any(vars) => Some(any_span(spans, vars.as_slice())),
        Def::Not(var) => Some(opposite(among(spans, *var))),
        Def::Choose(test, left, right) => Some(chosen_span(
            among(spans, *test),
            among(spans, *left),
            among(spans, *right),
        )),
    }
}

// Puts the intervals of some definitions over a region.
fn put_spans(defs: &[Def], open: &[u32], slots: &Slots, region: &[Span], spans: &mut Vec<Span>) {
    for number in open {
        let place = number.saturating_sub(1) as usize;
        if let Some(def) = defs.get(place) {
            let own = span_of(def, spans.as_slice(), slots, region);
            if let (Some(span), Some(own)) = (spans.get_mut(place), own) {
                *span = own;
            }
        }
    }
}

fn open_of(alloc: Global, hull: &[Span]) -> Result<Vec<u32>, NoMemory> {
    let mut open = Vec::new(alloc);
    let mut number: u32 = 0;
    for span in hull {
        number = number.saturating_add(1);
        if span.0 < span.1 {
            open.push(number)?;
        }
    }
    Ok(open)
}

// What definitions have to be, where a row meets its goal.
fn targets_of(alloc: Global, coded: &Coded, goal: &Goal) -> Result<Vec<(u32, i64)>, NoMemory> {
    let mut targets = Vec::new(alloc);
    match goal {
        Goal::Gone => targets.push((coded.live, 0))?,
        Goal::There(wanted) => {
            targets.push((coded.live, 1))?;
            for (column, cell) in coded.columns.as_slice().iter().zip(wanted.as_slice()) {
                if let Some(cell) = cell {
                    targets.push((*column, number_of(cell)))?;
                }
            }
        }
    }
    Ok(targets)
}

impl Wired {
    /// The row of a circuit with this hull over the root box.
    pub fn new(
        alloc: Global,
        coded: Coded,
        hull: &Intervals,
        goal: &Goal,
    ) -> Result<Wired, NoMemory> {
        Ok(Wired {
            open: open_of(alloc, hull.as_slice())?,
            targets: targets_of(alloc, &coded, goal)?,
            hull: Vec::from_slice(alloc, hull.as_slice())?,
            values: Vec::from_slice(alloc, hull.as_slice())?,
            coded,
        })
    }

    /// The definitions.
    pub fn defs(&self) -> &[Def] {
        self.coded.circuit.defs().as_slice()
    }

    /// A definition by its number, from 1.
    pub fn def(&self, number: u32) -> Option<&Def> {
        let place = number.checked_sub(1)?;
        self.defs().get(place as usize)
    }

    /// What definitions have to be, where the row meets its goal.
    pub fn targets(&self) -> &[(u32, i64)] {
        self.targets.as_slice()
    }

    /// The numbers of the definitions that have several values over the root box.
    pub fn open(&self) -> &[u32] {
        self.open.as_slice()
    }

    /// Takes the intervals of a box.
    pub fn load_box(&mut self, slots: &Slots, region: &[Span]) {
        let defs = self.coded.circuit.defs().as_slice();
        put_spans(defs, self.open.as_slice(), slots, region, &mut self.hull);
    }

    /// Takes the values at a point, which is a box of one point.
    pub fn load_point(&mut self, slots: &Slots, point: &[Span]) {
        let defs = self.coded.circuit.defs().as_slice();
        put_spans(defs, self.open.as_slice(), slots, point, &mut self.values);
    }

    /// The interval of a definition over the box.
    pub fn span(&self, number: u32) -> Span {
        among(self.hull.as_slice(), number)
    }

    /// Whether a definition has several values over the box.
    pub fn is_free(&self, number: u32) -> bool {
        let (low, high) = self.span(number);
        low < high
    }

    /// The value of a definition at the point.
    pub fn value(&self, number: u32) -> i64 {
        among(self.values.as_slice(), number).0
    }

    /// The first definition that is not what it has to be at the point, and by how much.
    pub fn missed(&self) -> Option<(u32, i64)> {
        for (number, wanted) in self.targets.as_slice() {
            let value = self.value(*number);
            if value != *wanted {
                return Some((*number, wanted.saturating_sub(value)));
            }
        }
        None
    }

    /// What one term's definition has to be, where the sum lies in a span.
    pub fn solved(
        &self,
        terms: &[(i64, u32)],
        constant: i64,
        factor: i64,
        var: u32,
        wanted: Span,
    ) -> Span {
        solved(factor, self.others(terms, constant, var), wanted)
    }

    // The interval of all terms of a sum but one, and the constant.
    fn others(&self, terms: &[(i64, u32)], constant: i64, var: u32) -> Span {
        let mut sum = (constant, constant);
        for (factor, other) in terms {
            if *other != var {
                sum = add(sum, times(*factor, self.span(*other)));
            }
        }
        sum
    }

    /// Whether a definition is a parameter.
    pub fn is_param(&self, number: u32) -> bool {
        matches!(self.def(number), Some(Def::Param(_)))
    }

    /// The term of a sum that is followed: the only free one that is no parameter, or the only free one.
    pub fn followed(&self, terms: &[(i64, u32)]) -> Option<(i64, u32)> {
        let mut found: Option<(i64, u32)> = None;
        for (factor, var) in terms {
            if *factor != 0 && self.is_free(*var) {
                match found {
                    None => found = Some((*factor, *var)),
                    Some((_, first)) => {
                        if !self.is_param(*var) {
                            if !self.is_param(first) {
                                return None;
                            }
                            found = Some((*factor, *var));
                        }
                    }
                }
            }
        }
        found
    }

    fn way_of_sum(&self, terms: &[(i64, u32)], constant: i64, wanted: Span) -> Way {
        match self.followed(terms) {
            Some((factor, var)) => {
                Way::Through(var, self.solved(terms, constant, factor, var, wanted))
            }
            None => Way::Some,
        }
    }

    fn way_of_choice(&self, test: u32, left: u32, right: u32, wanted: Span) -> Way {
        let (low, high) = self.span(test);
        let is_left = 0 < high && !are_apart(self.span(left), wanted);
        let is_right = low < 1 && !are_apart(self.span(right), wanted);
        match (is_left, is_right) {
            (true, true) => Way::Either(test, left, right),
            (true, false) => Way::If(test, true, left),
            (false, true) => Way::If(test, false, right),
            (false, false) => Way::None,
        }
    }

    // The only free truth of some.
    fn only_free(&self, vars: &[u32]) -> Option<u32> {
        let mut free = None;
        for var in vars {
            if self.is_free(*var) {
                if free.is_some() {
                    return None;
                }
                free = Some(*var);
            }
        }
        free
    }

    fn way_of_truths(&self, vars: &[u32], wanted: Span) -> Way {
        match self.only_free(vars) {
            Some(var) => Way::Through(var, wanted),
            None => Way::Some,
        }
    }

    /// How a definition comes to lie in a span at a point of the box.
    pub fn way(&self, number: u32, wanted: Span) -> Way {
        let own = self.span(number);
        if are_apart(own, wanted) {
            return Way::None;
        }
        if is_within(own, wanted) {
            return Way::Some;
        }
        match self.def(number) {
            Some(Def::Choose(test, left, right)) => {
                self.way_of_choice(*test, *left, *right, wanted)
            }
            Some(Def::Linear(terms, constant)) => {
                self.way_of_sum(terms.as_slice(), *constant, wanted)
            }
            Some(Def::AtLeastZero(var)) => Way::Through(*var, signed(wanted)),
            Some(Def::Not(var)) => Way::Through(*var, opposite(wanted)),
            Some(Def::All(vars)) => self.way_of_truths(vars.as_slice(), wanted),
            Some(Def::Any(vars)) => self.way_of_truths(vars.as_slice(), wanted),
            _ => Way::Some,
        }
    }

    // Whether a definition cannot lie in a span, by cases of cases up to a depth.
    fn avoids(&self, number: u32, wanted: Span, depth: u32) -> bool {
        let mut at = number;
        let mut wanted = wanted;
        for _ in self.defs() {
            match self.way(at, wanted) {
                Way::None => return true,
                Way::Some => return false,
                Way::Through(var, span) => {
                    at = var;
                    wanted = span;
                }
                Way::If(test, is_set, var) => {
                    if 0 < depth && self.avoids(test, truth(is_set), depth - 1) {
                        return true;
                    }
                    at = var;
                }
                Way::Either(test, left, right) => {
                    return 0 < depth
                        && (self.avoids(test, truth(true), depth - 1)
                            || self.avoids(left, wanted, depth - 1))
                        && (self.avoids(test, truth(false), depth - 1)
                            || self.avoids(right, wanted, depth - 1));
                }
            }
        }
        false
    }

    /// Whether cases show that the row misses its goal at each point of the box.
    pub fn is_closed(&self) -> bool {
        for (number, wanted) in self.targets.as_slice() {
            if self.avoids(*number, (*wanted, *wanted), MOST_CASES) {
                return true;
            }
        }
        false
    }
}
