ghost use Rattle.std.specs.Prelude.{◌≡◌, ◌↔◌, ◌+◌, ◌<◌, ◌≤◌, ◌&&◌, false, length, IfOk, IfSome, IsTrue};
ghost use Rattle.std.specs.List.{list_any};
ghost use Rattle.qf_lin.specs.Inequalities.{is_empty};
ghost use Rattle.qf_lin.specs.Steps.{ends_empty, is_closable, case_zero, case_one};
ghost use Rattle.qf_tree.specs.Refutations.{IsRefutation};
ghost use Rattle.qf_tree.specs.Lines.{StepsFit};
ghost use Rattle.qf_prop.specs.Sweeps.{Fits};
ghost use Rattle.qf_probe.specs.Probes.{IsSelector};

use crate::close::{closes, closes_case};
use qf_base::{Bound, List, NoMemory};
use qf_lin::{Step, System};
use qf_trail::Trail;
use std::alloc::Global;

// A refutation by the two cases of a selector, where both end empty. Where the bounds decide the selector, one case has the
// bounds themselves, which don't end empty.
fn probe_selector(
    alloc: Global,
    system: &System,
    trail: &mut Trail,
    var: u32,
) -> Result<Option<List<Step>>, NoMemory>
    requires fits { Fits system.now trail.old.bounds }
    requires open { ends_empty system.now.inequalities trail.old.bounds ≡ false }
    requires selector { IsSelector system.now var }
    requires var { (0 < var) × (var ≤ length trail.old.bounds) }
    requires levels { length trail.old.marks + 2 ≤ trail.old.levels }
    ensures trail { trail.new ≡ trail.old }
    ensures refutes { IfOk result (λ found. IfSome found (λ steps. IsRefutation system.now trail.old.bounds steps)) }
    ensures spelled { IfOk result (λ found. IfSome found (λ steps. StepsFit steps)) }
    ensures none { IfOk result (λ found. found ≡ None → (ends_empty system.now.inequalities (case_zero trail.old.bounds var) && ends_empty system.now.inequalities (case_one trail.old.bounds var)) ≡ false) }
{
    let (low, high) = trail.get(var);
    if low >= 1 || high <= 0 {
        return Ok(None);
    }
    let mut steps = List::new(alloc);
    steps.push(Step::Case { var })?;
    if !closes_case(system, trail, var, Bound::High(0), &mut steps)? {
        return Ok(None);
    }
    if !closes_case(system, trail, var, Bound::Low(1), &mut steps)? {
        return Ok(None);
    }
    Ok(Some(steps))
}

/// A refutation of the trail's bounds: the steps of four sweeps where these end empty, or else the two cases of the first
/// selector of which both end empty. Each case starts from the trail's bounds. None means that there is no such. Each of
/// the steps can be written. The trail stays as it was, also for want of memory.
pub fn probe(
    alloc: Global,
    system: &System,
    trail: &mut Trail,
) -> Result<Option<List<Step>>, NoMemory>
    requires fits { Fits system.now trail.old.bounds }
    requires levels { length trail.old.marks + 2 ≤ trail.old.levels }
    ensures trail { trail.new ≡ trail.old }
    ensures refutes { IfOk result (λ found. IfSome found (λ steps. IsRefutation system.now trail.old.bounds steps)) }
    ensures spelled { IfOk result (λ found. IfSome found (λ steps. StepsFit steps)) }
    ensures none { IfOk result (λ found. found ≡ None → is_closable system.now trail.old.bounds ≡ false) }
{
    let mut steps = List::new(alloc);
    if closes(system, trail, &mut steps)? {
        return Ok(Some(steps));
    }
    for var in system.selectors.as_slice() {
        let found = probe_selector(alloc, system, trail, *var)?;
        if found.is_some() {
            return Ok(found);
        }
    }
    Ok(None)
}
