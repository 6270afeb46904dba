// Whether steps refute bounds: the bounds that are still to be refuted, changed in place.

ghost use Rattle.std.specs.Prelude.{◌≡◌, [], ◌∷◌, ◌<◌, ◌≤◌, ◌+◌, ◌-◌, ◌^◌, ◌==◌, true, false, length, slice_set, count_by, OnOk, IfOk};
ghost use Rattle.std.specs.List.{list_any};
ghost use Rattle.std.specs.List.Sorted.{IsNonDecreasing};
ghost use Rattle.qf_lin.specs.declared.inequality.System.{System as SystemValue};
ghost use Rattle.qf_tree.specs.Refutations.{keeps_rule, pending_after, first_wrong_step};
ghost use Rattle.qf_instance.specs.RowSystems.{FitsUnlessEmpty};
ghost use Rattle.qf_check.specs.Undoing as spec;
ghost use Rattle.qf_check.specs.Undoing.{AreVars, IsTracked, Took, once, counted, undone, pending, cases_to_come, GoesOn};
ghost use Rattle.qf_lin.specs.Inequalities.{taken};

use crate::stack::Stack;
use qf_base::{Bound, Intervals, List, NoMemory};
use qf_lin::{Step, System};
use qf_tree::apply_step;
use std::alloc::Global;

/// What changed an interval: a tight step, or the case that a selector is 0 or 1.
#[derive(Clone, Copy)]
pub enum Cause {
    Tight,
    Zero,
    One,
}

/// A change of an interval: what did it, the variable, from 1, and the interval before.
#[derive(Clone, Copy)]
pub struct Change {
    pub cause: Cause,
    pub var: u32,
    pub former: (i64, i64),
}

/// The bounds that are still to be refuted: those at hand, and the other cases of the changes that led to them.
#[derive(Drop)]
pub struct Refuting {
    pub bounds: Intervals,
    // how many intervals have their greatest value below their least
    pub crossed: u32,
    pub changes: Stack<Change>,
    // how many cases are nested
    pub depth: u32,
    pub is_done: bool,
}

fn is_crossed(interval: (i64, i64)) -> bool
    ensures { result ≡ spec.is_crossed interval }
{
    interval.1 < interval.0
}

fn put(bounds: &mut Intervals, place: u32, interval: (i64, i64))
    requires { place < length bounds.old }
    ensures { bounds.new ≡ slice_set bounds.old place interval }
{
    bounds.set(place, interval.0, interval.1);
}

// How many intervals are crossed once one of them is put in the place of another.
fn recount(crossed: u32, before: (i64, i64), after: (i64, i64)) -> u32
    requires there { once (spec.is_crossed before) ≤ crossed }
    requires fits { crossed + once (spec.is_crossed after) < 2 ^ 32 + once (spec.is_crossed before) }
    ensures { result + once (spec.is_crossed before) ≡ crossed + once (spec.is_crossed after) }
{
    let others = if is_crossed(before) {
        crossed - 1
    } else {
        crossed
    };
    if is_crossed(after) {
        others + 1
    } else {
        others
    }
}

fn crossed_count(bounds: &Intervals) -> u32
    ensures { result ≡ count_by spec.is_crossed bounds.now }
{
    let mut count = 0;
    for i in 0..bounds.len() {
        if is_crossed(bounds.get(i)) {
            count += 1;
        }
    }
    count
}

// The interval with the bound taken where it is better.
fn taken(bound: Bound, interval: (i64, i64)) -> (i64, i64)
    ensures { result ≡ taken bound interval }
{
    match bound {
        Bound::Low(least) => (interval.0.max(least), interval.1),
        Bound::High(most) => (interval.0, interval.1.min(most)),
    }
}

// A search by halves: a system may have tens of thousands of selectors, and a refutation a million cases.
fn is_selector(system: &System, var: u32) -> bool
    requires rising { IsNonDecreasing system.now.selectors }
    ensures { result ≡ list_any (λ s. s == var) system.now.selectors }
{
    system.selectors.as_slice().binary_search(&var).is_ok()
}

impl Refuting {
    // These bounds alone are to be refuted.
    fn new(alloc: Global, bounds: Intervals) -> Refuting
        ensures pending { pending result ≡ (bounds, 0) ∷ [] }
        ensures tracked { (system : SystemValue) → AreVars (length bounds) system.selectors → IsNonDecreasing system.selectors → FitsUnlessEmpty system bounds → IsTracked system result }
    {
        let crossed = crossed_count(&bounds);
        Refuting {
            bounds,
            crossed,
            changes: Stack::new(alloc),
            depth: 0,
            is_done: false,
        }
    }

    // Puts an interval at a variable.
    fn set(&mut self, var: u32, interval: (i64, i64))
        requires first { 0 < var }
        requires last { var ≤ length self.old.bounds }
        requires crossed { self.old.crossed ≡ count_by spec.is_crossed self.old.bounds }
        ensures { self.new ≡ record self.old { bounds = slice_set self.old.bounds (var - 1) interval; crossed = count_by spec.is_crossed (slice_set self.old.bounds (var - 1) interval) } }
    {
        // fewer than 2^32, so the count fits
        let _few = self.bounds.len();
        self.crossed = recount(self.crossed, self.bounds.get(var - 1), interval);
        put(&mut self.bounds, var - 1, interval);
    }

    // Takes a tight step; whether it keeps its rule.
    fn tighten(
        &mut self,
        system: &System,
        inequality: u32,
        var: u32,
        bound: Bound,
    ) -> Result<bool, NoMemory>
        requires there { self.old.is_done ≡ false }
        requires tracked { IsTracked system.now self.old }
        ensures right { IfOk result (λ right. right ≡ keeps_rule system.now (pending self.old) (Step.Tight inequality var bound)) }
        ensures goes_on { IfOk result (λ right. right ≡ true → GoesOn system.now self.new (pending_after (pending self.old) (Step.Tight inequality var bound))) }
    {
        if self.crossed > 0 || var == 0 || var > self.bounds.len() {
            return Ok(false);
        }
        let former = self.bounds.get(var - 1);
        let step = Step::Tight {
            inequality,
            var,
            bound,
        };
        if !apply_step(system, &mut self.bounds, &step) {
            return Ok(false);
        }
        // fewer than 2^32, so the count fits
        let _few = self.bounds.len();
        self.crossed = recount(self.crossed, former, self.bounds.get(var - 1));
        self.changes.push(Change {
            cause: Cause::Tight,
            var,
            former,
        })?;
        Ok(true)
    }

    // Begins a case of a variable, which has the bound there.
    fn begin(&mut self, cause: Cause, var: u32, bound: Bound) -> Result<(), NoMemory>
        requires there { self.old.is_done ≡ false }
        requires first { 0 < var }
        requires last { var ≤ length self.old.bounds }
        requires crossed { self.old.crossed ≡ count_by spec.is_crossed self.old.bounds }
        requires case { counted cause self.old.depth ≡ self.old.depth + 1 }
        requires shallow { self.old.depth < 8 }
        ensures { OnOk result (Took self.old self.new cause var bound) }
    {
        let former = self.bounds.get(var - 1);
        self.set(var, taken(bound, former));
        self.depth += 1;
        self.changes.push(Change { cause, var, former })
    }

    // Begins the case that a selector is 0; whether it is a selector and so many cases may be nested.
    fn begin_cases(&mut self, system: &System, var: u32) -> Result<bool, NoMemory>
        requires there { self.old.is_done ≡ false }
        requires tracked { IsTracked system.now self.old }
        ensures right { IfOk result (λ right. right ≡ keeps_rule system.now (pending self.old) (Step.Case var)) }
        ensures goes_on { IfOk result (λ right. right ≡ true → GoesOn system.now self.new (pending_after (pending self.old) (Step.Case var))) }
    {
        if !is_selector(system, var) || self.depth >= 8 {
            return Ok(false);
        }
        self.begin(Cause::Zero, var, Bound::High(0))?;
        Ok(true)
    }

    // Undoes a change.
    fn undo(&mut self, change: Change)
        requires first { 0 < change.var }
        requires last { change.var ≤ length self.old.bounds }
        requires crossed { self.old.crossed ≡ count_by spec.is_crossed self.old.bounds }
        requires deep { counted change.cause 0 ≤ self.old.depth }
        ensures { self.new ≡ record self.old { bounds = undone self.old.bounds change; crossed = count_by spec.is_crossed (undone self.old.bounds change); depth = self.old.depth - counted change.cause 0 } }
    {
        self.set(change.var, change.former);
        self.depth = match change.cause {
            Cause::Tight => self.depth,
            Cause::Zero | Cause::One => self.depth - 1,
        };
    }

    // Goes on to the next case, where the bounds at hand are refuted.
    fn next_case(&mut self) -> Result<(), NoMemory>
        requires there { self.old.is_done ≡ false }
        requires tracked { (system : SystemValue) × IsTracked system self.old }
        ensures { (system : SystemValue) → IsTracked system self.old → OnOk result (GoesOn system self.new (cases_to_come self.old.bounds self.old.changes)) }
    {
        while let Some(change) = self.changes.pop() {
            self.undo(change);
            if let Cause::Zero = change.cause {
                return self.begin(Cause::One, change.var, Bound::Low(1));
            }
        }
        self.is_done = true;
        Ok(())
    }

    // Ends the bounds at hand; whether they are empty.
    fn end(&mut self) -> Result<bool, NoMemory>
        requires there { self.old.is_done ≡ false }
        requires tracked { (system : SystemValue) × IsTracked system self.old }
        ensures right { (system : SystemValue) → IfOk result (λ right. right ≡ keeps_rule system (pending self.old) Step.Empty) }
        ensures goes_on { (system : SystemValue) → IsTracked system self.old → IfOk result (λ right. right ≡ true → GoesOn system self.new (pending_after (pending self.old) Step.Empty)) }
    {
        if self.crossed == 0 {
            return Ok(false);
        }
        self.next_case()?;
        Ok(true)
    }

    // Takes a step; whether it keeps its rule.
    fn take(&mut self, system: &System, step: &Step) -> Result<bool, NoMemory>
        requires tracked { IsTracked system.now self.old }
        ensures right { IfOk result (λ right. right ≡ keeps_rule system.now (pending self.old) step.now) }
        ensures goes_on { IfOk result (λ right. right ≡ true → GoesOn system.now self.new (pending_after (pending self.old) step.now)) }
    {
        if self.is_done {
            return Ok(false);
        }
        match step {
            Step::Tight {
                inequality,
                var,
                bound,
            } => self.tighten(system, *inequality, *var, *bound),
            Step::Empty => self.end(),
            Step::Case { var } => self.begin_cases(system, *var),
        }
    }
}

/// The place, from 0, of the first step that breaks its rule, where the steps are to refute the bounds; the number of the
/// steps where they end too early.
pub fn first_wrong_step(
    alloc: Global,
    system: &System,
    bounds: Intervals,
    steps: &List<Step>,
) -> Result<Option<u64>, NoMemory>
    requires selectors { AreVars (length bounds) system.now.selectors }
    requires rising { IsNonDecreasing system.now.selectors }
    requires fits { FitsUnlessEmpty system.now bounds }
    ensures { IfOk result (λ wrong. wrong ≡ first_wrong_step system.now ((bounds, 0) ∷ []) steps.now) }
{
    let mut refuting = Refuting::new(alloc, bounds);
    let steps = steps.as_slice();
    for (i, step) in steps.iter().enumerate() {
        if !refuting.take(system, step)? {
            return Ok(Some(i as u64));
        }
    }
    if refuting.is_done {
        Ok(None)
    } else {
        Ok(Some(steps.len() as u64))
    }
}
