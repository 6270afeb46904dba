// How many boxes a row that does not add up would make of a box.

use crate::pulls::Place;
use crate::wired::Wired;
use qf_base::NoMemory;
use qf_sums::{Limit, Policy, Slots, Span, Toggle, first_numbers, picked, raising, span_at};
use std::alloc::Global;

const MET: u64 = 5;

const MOST_NESTED: u32 = 400;

/// What becomes of a box.
#[derive(Clone, Copy)]
pub enum Next {
    /// Cases close it.
    Closed,
    /// The row meets its goal at the cheapest point.
    Met,
    /// Nothing is known to be done.
    Stuck,
    /// It is cut at a toggle; the near half of a demanded one is closed.
    Cut(Toggle, bool),
}

/// What all boxes of a trial have in common.
#[derive(Clone, Copy)]
pub struct Trial<'a> {
    pub alloc: Global,
    pub slots: &'a Slots,
    pub policy: Policy,
}

fn points_of(alloc: Global, point: &[i64]) -> Result<Vec<Span>, NoMemory> {
    let mut points = Vec::new(alloc);
    for value in point {
        points.push((*value, *value))?;
    }
    Ok(points)
}

fn put(spans: &mut Vec<Span>, slot: u32, span: Span) {
    if let Some(own) = spans.get_mut(slot as usize) {
        *own = span;
    }
}

// The parts of a span on the near side and on the far side of a toggle.
fn sides(span: Span, toggle: &Toggle) -> (Span, Span) {
    let lower = (span.0, toggle.cut);
    let upper = (toggle.cut.saturating_add(1), span.1);
    if toggle.raises {
        (lower, upper)
    } else {
        (upper, lower)
    }
}

impl Wired {
    /// Whether the row misses its goal at a point.
    pub fn misses(
        &mut self,
        alloc: Global,
        slots: &Slots,
        point: &[i64],
    ) -> Result<bool, NoMemory> {
        let points = points_of(alloc, point)?;
        self.load_point(slots, points.as_slice());
        Ok(self.missed().is_some())
    }

    /// Whether cases close a box.
    pub fn closes(&mut self, slots: &Slots, spans: &[Span]) -> bool {
        self.load_box(slots, spans);
        self.is_closed()
    }

    fn pulled(&self, policy: Policy, place: &Place<'_>) -> Result<Next, NoMemory> {
        let pulls = self.pulls(place)?;
        let list = pulls.toggles.as_slice();
        let at = picked(
            policy,
            list,
            first_numbers(list.len()),
            raising(list),
            pulls.need,
        );
        match list.get(at as usize) {
            Some(toggle) => Ok(Next::Cut(*toggle, false)),
            None => Ok(Next::Stuck),
        }
    }

    /// What becomes of a box.
    pub fn next(&mut self, trial: &Trial<'_>, spans: &[Span]) -> Result<Next, NoMemory> {
        if self.closes(trial.slots, spans) {
            return Ok(Next::Closed);
        }
        let point = trial.slots.cheapest(trial.alloc, spans)?;
        if !self.misses(trial.alloc, trial.slots, point.as_slice())? {
            return Ok(Next::Met);
        }
        let place = Place {
            alloc: trial.alloc,
            slots: trial.slots,
            spans,
            point: point.as_slice(),
        };
        match self.demanded(&place)? {
            Some(toggle) => Ok(Next::Cut(toggle, true)),
            None => self.pulled(trial.policy, &place),
        }
    }

    fn count(
        &mut self,
        trial: &Trial<'_>,
        spans: &mut Vec<Span>,
        slack: u64,
        limit: &mut Limit,
        depth: u32,
    ) -> Result<u64, NoMemory> {
        limit.take(1);
        if limit.is_passed || depth == 0 {
            return Ok(1);
        }
        let (toggle, is_demanded) = match self.next(trial, spans.as_slice())? {
            Next::Closed => return Ok(1),
            Next::Met => {
                limit.take(MET);
                return Ok(MET);
            }
            Next::Stuck => return Ok(MET),
            Next::Cut(toggle, is_demanded) => (toggle, is_demanded),
        };
        let span = span_at(spans.as_slice(), toggle.slot as usize);
        let (near, far) = sides(span, &toggle);
        let mut boxes: u64 = 2;
        if !is_demanded {
            put(spans, toggle.slot, near);
            boxes = self
                .count(trial, spans, slack, limit, depth - 1)?
                .saturating_add(1);
        }
        if toggle.cost < slack && !limit.is_passed {
            put(spans, toggle.slot, far);
            let slack = slack.saturating_sub(toggle.cost);
            boxes = boxes.saturating_add(self.count(trial, spans, slack, limit, depth - 1)?);
        }
        put(spans, toggle.slot, span);
        Ok(boxes)
    }

    /// How many boxes the row makes by a policy, unless they are more than a limit.
    pub fn boxes(
        &mut self,
        trial: &Trial<'_>,
        spans: &[Span],
        slack: u64,
        most: u64,
    ) -> Result<Option<u64>, NoMemory> {
        let mut limit = Limit {
            left: most,
            is_passed: false,
        };
        let mut own = Vec::from_slice(trial.alloc, spans)?;
        let boxes = self.count(trial, &mut own, slack, &mut limit, MOST_NESTED)?;
        if limit.is_passed {
            Ok(None)
        } else {
            Ok(Some(boxes))
        }
    }
}
