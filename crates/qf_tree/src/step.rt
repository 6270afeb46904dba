ghost use Rattle.std.specs.Prelude.{◌≡◌, ◌<◌, ◌≤◌, length, cond, ℤ, List as Items};
ghost use Rattle.qf_base.specs.Values.{IsWithin};
ghost use Rattle.qf_lin.specs.Inequalities.{with_bound, AllHold};
ghost use Rattle.qf_lin.specs.Steps.{suits_factor, is_weaker, row_gives, tight_step_is_right};
ghost use Rattle.qf_tree.specs.Steps.{RowFits, RowsFit, step_is_right, bounds_after};

use qf_base::{Bound, Intervals};
use qf_lin::{Inequality, Step, System, factor_in, tight_bound};

// A row gives lower bounds of a variable with a factor above 0, and upper bounds of one with a factor below 0.
fn suits_factor(factor: i64, bound: Bound) -> bool
    ensures { result ≡ suits_factor factor bound }
{
    match bound {
        Bound::Low(_) => 0 < factor,
        Bound::High(_) => factor < 0,
    }
}

// Whether the stated bound says no more than the other.
fn is_weaker(stated: Bound, other: Bound) -> bool
    ensures { result ≡ is_weaker stated other }
{
    match (stated, other) {
        (Bound::Low(a), Bound::Low(b)) => a <= b,
        (Bound::High(a), Bound::High(b)) => b <= a,
        _ => false,
    }
}

// Whether the bound is the row's, or a weaker one.
fn row_gives(row: &Inequality, bounds: &Intervals, var: u32, bound: Bound) -> bool
    requires fits { RowFits bounds.now row.now }
    ensures { result ≡ row_gives row.now bounds.now var bound }
{
    if !suits_factor(factor_in(row, var), bound) {
        return false;
    }
    is_weaker(bound, tight_bound(row, bounds, var))
}

// Takes the bound where it is better than the present one.
fn take_bound(bounds: &mut Intervals, var: u32, bound: Bound)
    requires { (0 < var) × (var ≤ length bounds.old) }
    ensures { bounds.new ≡ with_bound bounds.old var bound }
{
    let (low, high) = bounds.get(var - 1);
    match bound {
        Bound::Low(least) => bounds.set(var - 1, low.max(least), high),
        Bound::High(most) => bounds.set(var - 1, low, high.min(most)),
    }
}

// Whether a tight step keeps its rule.
fn tight_step_is_right(
    system: &System,
    bounds: &Intervals,
    inequality: u32,
    var: u32,
    bound: Bound,
) -> bool
    requires fit { RowsFit system.now bounds.now }
    ensures { result ≡ tight_step_is_right system.now bounds.now inequality var bound }
{
    if var == 0 || var > bounds.len() {
        return false;
    }
    if inequality == 0 || u64::from(inequality) > system.inequalities.len() {
        return false;
    }
    let row = system.inequalities.at(u64::from(inequality) - 1);
    row_gives(row, bounds, var, bound)
}

// Takes a tight step into the bounds where it keeps its rule.
fn take_step(system: &System, bounds: &mut Intervals, step: &Step) -> bool
    requires fit { RowsFit system.now bounds.old }
    ensures right { result ≡ step_is_right system.now bounds.old step.now }
    ensures bounds { bounds.new ≡ cond result (bounds_after bounds.old step.now) bounds.old }
{
    match step {
        Step::Tight {
            inequality,
            var,
            bound,
        } => {
            if !tight_step_is_right(system, bounds, *inequality, *var, *bound) {
                return false;
            }
            take_bound(bounds, *var, *bound);
            true
        }
        _ => false,
    }
}

/// Takes a tight step into the bounds, whose intervals count from 1 as the variables do. It answers false, and the
/// bounds stay, exactly where the step breaks its rule: its inequality and its variable exist, the variable is in the
/// inequality with a factor of the sign of the bound, and the bound is the one that the inequality gives or a weaker one.
/// No values that satisfy the system are lost. It takes no memory.
pub fn apply_step(system: &System, bounds: &mut Intervals, step: &Step) -> bool
    requires fit { RowsFit system.now bounds.old }
    ensures right { result ≡ step_is_right system.now bounds.old step.now }
    ensures bounds { bounds.new ≡ cond result (bounds_after bounds.old step.now) bounds.old }
    ensures keeps { (values : Items ℤ) → AllHold system.now.inequalities values → IsWithin values bounds.old → IsWithin values bounds.new }
{
    take_step(system, bounds, step)
}
