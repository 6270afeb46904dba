ghost use Rattle.std.specs.Prelude.{◌≡◌, ◌<◌, ◌≤◌, false, length, IfOk, OnOk};
ghost use Rattle.qf_lin.specs.Inequalities.{is_empty, with_bound, tight_bound, factor_of, row_swept};
ghost use Rattle.qf_tree.specs.Lines.{StepsFit};
ghost use Rattle.qf_prop.specs.Sweeps.{Fits, Leads, NamesFactor, row_at};

use crate::quiet::is_quiet;
use qf_base::{Intervals, List, NoMemory};
use qf_lin::{Step, System, tighten};
use qf_trail::Trail;

/// Whether some interval is empty.
pub fn is_empty(bounds: &Intervals) -> bool
    ensures { result ≡ is_empty bounds.now }
{
    for (low, high) in bounds.as_slice() {
        if high < low {
            return true;
        }
    }
    false
}

// Takes the bound that an inequality gives for one of its variables, and says whether the bounds are now empty.
fn tighten_at(
    system: &System,
    number: u32,
    var: u32,
    trail: &mut Trail,
    steps: &mut List<Step>,
) -> Result<bool, NoMemory>
    requires fits { Fits system.now trail.old.bounds }
    requires nonempty { is_empty trail.old.bounds ≡ false }
    requires number { (0 < number) × (number ≤ length system.now.inequalities) }
    requires in_row { NamesFactor (row_at system.now.inequalities number) var (length trail.old.bounds) }
    ensures leads { Leads system.now trail.old steps.old trail.new steps.new }
    ensures bounds { OnOk result (trail.new.bounds ≡ with_bound trail.old.bounds var (tight_bound (row_at system.now.inequalities number) trail.old.bounds var)) }
    ensures empty { IfOk result (λ empty. empty ≡ is_empty trail.new.bounds) }
    ensures spelled { StepsFit steps.old → StepsFit steps.new }
{
    let row = system.inequalities.at(u64::from(number - 1));
    match tighten(row, trail.bounds(), var) {
        Some(bound) => {
            steps.push(Step::Tight {
                inequality: number,
                var,
                bound,
            })?;
            trail.set(var, bound);
        }
        None => {}
    }
    let (low, high) = trail.get(var);
    Ok(high < low)
}

/// Takes the bounds that an inequality gives for its variables, in the order of its terms, until the bounds are empty, and
/// says whether they are.
pub fn sweep_row(
    system: &System,
    number: u32,
    trail: &mut Trail,
    steps: &mut List<Step>,
) -> Result<bool, NoMemory>
    requires fits { Fits system.now trail.old.bounds }
    requires nonempty { is_empty trail.old.bounds ≡ false }
    requires number { (0 < number) × (number ≤ length system.now.inequalities) }
    ensures leads { Leads system.now trail.old steps.old trail.new steps.new }
    ensures bounds { OnOk result (trail.new.bounds ≡ row_swept trail.old.bounds (row_at system.now.inequalities number)) }
    ensures empty { IfOk result (λ empty. empty ≡ is_empty trail.new.bounds) }
    ensures spelled { StepsFit steps.old → StepsFit steps.new }
{
    let row = system.inequalities.at(u64::from(number - 1));
    if is_quiet(row, trail.bounds()) {
        return Ok(false);
    }
    let terms = row.terms.as_slice();
    for term in terms {
        if tighten_at(system, number, term.1, trail, steps)? {
            return Ok(true);
        }
    }
    Ok(false)
}
