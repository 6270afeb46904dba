ghost use Rattle.std.specs.Prelude.{IfOk, IfSome};
ghost use Rattle.qf_tree.specs.Refutations.{IsRefutation};
ghost use Rattle.qf_tree.specs.Lines.{StepsFit};
ghost use Rattle.qf_prop.specs.Sweeps.{Fits};

use crate::finding::{Keep, find};
use crate::replay::is_refutation;
use qf_base::{Intervals, List, NoMemory};
use qf_lin::{Step, System};
use std::alloc::Global;

// A refutation of the bounds with all the steps that were found.
fn refute_by_all(
    alloc: Global,
    system: &System,
    bounds: &Intervals,
    limit: u32,
) -> Result<Option<List<Step>>, NoMemory>
    requires { Fits system.now bounds.now }
    ensures refutes { IfOk result (λ found. IfSome found (λ steps. IsRefutation system.now bounds.now steps)) }
    ensures spelled { IfOk result (λ found. IfSome found (λ steps. StepsFit steps)) }
{
    let Some(steps) = find(alloc, system, bounds, limit, Keep::All)? else {
        return Ok(None);
    };
    if is_refutation(alloc, system, bounds, &steps)? {
        return Ok(Some(steps));
    }
    Ok(None)
}

/// A refutation of the bounds with at most 8 nested cases, found within so many looks at inequalities; `bounds` has the
/// interval of variable `v`, from 1, at place `v - 1`. Each of the steps can be written, and steps that no conclusion needs
/// are left out. None says nothing: there may be a refutation all the same.
pub fn refute(
    alloc: Global,
    system: &System,
    bounds: &Intervals,
    limit: u32,
) -> Result<Option<List<Step>>, NoMemory>
    requires { Fits system.now bounds.now }
    ensures refutes { IfOk result (λ found. IfSome found (λ steps. IsRefutation system.now bounds.now steps)) }
    ensures spelled { IfOk result (λ found. IfSome found (λ steps. StepsFit steps)) }
{
    let Some(steps) = find(alloc, system, bounds, limit, Keep::Needed)? else {
        return Ok(None);
    };
    if is_refutation(alloc, system, bounds, &steps)? {
        return Ok(Some(steps));
    }
    refute_by_all(alloc, system, bounds, limit)
}
