// Whether steps refute bounds: each of them is applied once more.

ghost use Rattle.std.specs.Prelude.{◌≡◌, ◌↔◌, ◌<◌, ◌≤◌, false, length, drop, All, IfOk, IfSome, IsTrue};
ghost use Rattle.std.specs.List.{list_any};
ghost use Rattle.qf_lin.specs.Inequalities.{is_empty, with_bound};
ghost use Rattle.qf_tree.specs.Refutations.{IsRefutation, Refutes};
ghost use Rattle.qf_tree.specs.Lines.{StepsFit, is_small_bound, line_fits, step_line};
ghost use Rattle.qf_prop.specs.Sweeps.{Fits};
ghost use Rattle.qf_probe.specs.Probes.{IsSelector, TakesTo};

use qf_base::{Bound, Intervals, List, NoMemory};
use qf_lin::{Step, System};
use qf_prop::is_empty;
use qf_tree::apply_step;
use std::alloc::Global;

// Whether a bound is within 2^60 in size.
fn is_small_bound(bound: Bound) -> bool
    ensures { result ≡ is_small_bound bound }
{
    let end = match bound {
        Bound::Low(least) => least,
        Bound::High(most) => most,
    };
    -(1 << 60) <= end && end <= 1 << 60
}

// Whether a step can be written.
fn is_spelled(step: &Step) -> bool
    ensures { result ≡ line_fits (step_line step.now) }
{
    match step {
        Step::Tight {
            inequality,
            var,
            bound,
        } => *inequality > 0 && *var > 0 && is_small_bound(*bound),
        Step::Empty => true,
        Step::Case { var } => *var > 0,
    }
}

fn are_spelled(steps: &[Step]) -> bool
    ensures { IsTrue result ↔ All (λ s. IsTrue (line_fits (step_line s))) steps.now }
{
    steps.iter().all(|step| is_spelled(step))
}

// Takes a bound of a variable where it is better than the present one.
fn take_bound(bounds: &mut Intervals, var: u32, bound: Bound)
    requires first { 0 < var }
    requires last { var ≤ length bounds.old }
    ensures { bounds.new ≡ with_bound bounds.old var bound }
{
    let (low, high) = bounds.get(var - 1);
    match bound {
        Bound::Low(least) => bounds.set(var - 1, low.max(least), high),
        Bound::High(most) => bounds.set(var - 1, low, high.min(most)),
    }
}

// Takes the tight steps from a place on, until one breaks its rule or the bounds are empty; the place of the next step.
fn take_tight_steps(system: &System, bounds: &mut Intervals, steps: &[Step], from: usize) -> usize
    requires fits { Fits system.now bounds.old }
    requires from { from ≤ length steps.now }
    ensures { TakesTo system.now bounds.old (drop from steps.now) (drop result steps.now) bounds.new }
{
    if is_empty(bounds) {
        return from;
    }
    for at in from..steps.len() {
        let step = &steps[at];
        let Step::Tight { var, .. } = step else {
            return at;
        };
        if !apply_step(system, bounds, step) {
            return at;
        }
        let (low, high) = bounds.get(*var - 1);
        if high < low {
            return at + 1;
        }
    }
    steps.len()
}

fn is_selector(system: &System, var: u32) -> bool
    ensures { IsTrue result → IsSelector system.now var }
{
    system.selectors.as_slice().contains(&var)
}

// Applies the steps of one refutation from a place on, under so many cases; the place after its last step, where they refute
// the bounds.
fn replay(
    alloc: Global,
    system: &System,
    bounds: &mut Intervals,
    steps: &[Step],
    from: usize,
    depth: u32,
) -> Result<Option<usize>, NoMemory>
    requires fits { Fits system.now bounds.old }
    requires from { from ≤ length steps.now }
    requires depth { depth ≤ 8 }
    ensures within { IfOk result (λ found. IfSome found (λ end. end ≤ length steps.now)) }
    ensures refutes { IfOk result (λ found. IfSome found (λ end. Refutes system.now bounds.old depth (drop from steps.now) (drop end steps.now))) }
{
    let at = take_tight_steps(system, bounds, steps, from);
    if at >= steps.len() {
        return Ok(None);
    }
    match &steps[at] {
        Step::Tight { .. } => Ok(None),
        Step::Empty => {
            if is_empty(bounds) {
                Ok(Some(at + 1))
            } else {
                Ok(None)
            }
        }
        Step::Case { var } => {
            if depth >= 8 || is_empty(bounds) {
                return Ok(None);
            }
            if !is_selector(system, *var) {
                return Ok(None);
            }
            let mut other = bounds.copy(alloc)?;
            take_bound(bounds, *var, Bound::High(0));
            let Some(middle) = replay(alloc, system, bounds, steps, at + 1, depth + 1)? else {
                return Ok(None);
            };
            take_bound(&mut other, *var, Bound::Low(1));
            replay(alloc, system, &mut other, steps, middle, depth + 1)
        }
    }
}

/// Whether the steps refute the bounds, as they are replayed here, and each of them can be written.
pub fn is_refutation(
    alloc: Global,
    system: &System,
    bounds: &Intervals,
    steps: &List<Step>,
) -> Result<bool, NoMemory>
    requires { Fits system.now bounds.now }
    ensures refutes { IfOk result (λ right. IsTrue right → IsRefutation system.now bounds.now steps.now) }
    ensures spelled { IfOk result (λ right. IsTrue right → StepsFit steps.now) }
{
    let steps = steps.as_slice();
    if !are_spelled(steps) {
        return Ok(false);
    }
    let mut bounds = bounds.copy(alloc)?;
    let end = replay(alloc, system, &mut bounds, steps, 0, 0)?;
    Ok(end == Some(steps.len()))
}
