ghost use Rattle.std.specs.Prelude.{◌≡◌, ◌+◌, ◌<◌, ◌≤◌, true, false, length, IfOk};
ghost use Rattle.qf_lin.specs.Inequalities.{is_better, is_empty, with_bound};
ghost use Rattle.qf_lin.specs.Steps.{ends_empty};
ghost use Rattle.qf_tree.specs.Lines.{StepsFit};
ghost use Rattle.qf_prop.specs.Sweeps.{Fits, Leads};
ghost use Rattle.qf_probe.specs.Probes.{Closes};

use qf_base::{Bound, List, NoMemory};
use qf_lin::{Step, System};
use qf_prop::{Swept, sweep};
use qf_trail::Trail;

// Sweeps four times, or until a sweep changes nothing, and says whether the bounds are then empty.
fn sweep_four(system: &System, trail: &mut Trail, steps: &mut List<Step>) -> Result<bool, NoMemory>
    requires { Fits system.now trail.old.bounds }
    ensures leads { Leads system.now trail.old steps.old trail.new steps.new }
    ensures ended { IfOk result (λ closed. closed ≡ is_empty trail.new.bounds) }
    ensures closed { IfOk result (λ closed. closed ≡ ends_empty system.now.inequalities trail.old.bounds) }
    ensures spelled { StepsFit steps.old → StepsFit steps.new }
{
    for _turn in 0..4u32 {
        let before = steps.len();
        let swept = sweep(system, trail, steps)?;
        if let Swept::Empty = swept {
            return Ok(true);
        }
        if steps.len() == before {
            return Ok(false);
        }
    }
    Ok(false)
}

/// Whether four sweeps end empty. Where they do, the steps that refute the bounds are added. The trail stays as it was.
pub fn closes(system: &System, trail: &mut Trail, steps: &mut List<Step>) -> Result<bool, NoMemory>
    requires fits { Fits system.now trail.old.bounds }
    requires level { length trail.old.marks < trail.old.levels }
    ensures trail { trail.new ≡ trail.old }
    ensures steps { IfOk result (λ closed. closed ≡ true → Closes system.now trail.old.bounds steps.old steps.new) }
    ensures spelled { StepsFit steps.old → StepsFit steps.new }
    ensures closed { IfOk result (λ closed. closed ≡ ends_empty system.now.inequalities trail.old.bounds) }
{
    trail.mark();
    let ended = sweep_four(system, trail, steps);
    trail.undo();
    let closed = ended?;
    if closed {
        steps.push(Step::Empty)?;
    }
    Ok(closed)
}

// Whether a bound says more than an interval.
fn is_better(bound: Bound, low: i64, high: i64) -> bool
    ensures { result ≡ is_better bound (low, high) }
{
    match bound {
        Bound::Low(least) => low < least,
        Bound::High(most) => most < high,
    }
}

// Takes a bound of a variable where it is better than the present one.
fn take_bound(trail: &mut Trail, var: u32, bound: Bound)
    requires first { 0 < var }
    requires last { var ≤ length trail.old.bounds }
    ensures { trail.new ≡ record trail.old { bounds = with_bound trail.old.bounds var bound } }
{
    let (low, high) = trail.get(var);
    if is_better(bound, low, high) {
        trail.set(var, bound);
    }
}

/// Whether four sweeps end empty once a bound of a variable is taken. Where they do, the steps that refute those bounds
/// are added. The trail stays as it was.
pub fn closes_case(
    system: &System,
    trail: &mut Trail,
    var: u32,
    bound: Bound,
    steps: &mut List<Step>,
) -> Result<bool, NoMemory>
    requires fits { Fits system.now trail.old.bounds }
    requires nonempty { is_empty trail.old.bounds ≡ false }
    requires var { (0 < var) × (var ≤ length trail.old.bounds) }
    requires levels { length trail.old.marks + 2 ≤ trail.old.levels }
    ensures trail { trail.new ≡ trail.old }
    ensures steps { IfOk result (λ closed. closed ≡ true → Closes system.now (with_bound trail.old.bounds var bound) steps.old steps.new) }
    ensures spelled { StepsFit steps.old → StepsFit steps.new }
    ensures closed { IfOk result (λ closed. closed ≡ ends_empty system.now.inequalities (with_bound trail.old.bounds var bound)) }
{
    trail.mark();
    take_bound(trail, var, bound);
    let closed = closes(system, trail, steps);
    trail.undo();
    closed
}
