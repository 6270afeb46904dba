// Steps that refute a box for a row.

ghost use Rattle.std.specs.Prelude.{◌≡◌, [], ◌∷◌, false, IfOk, OnOk, IfSome, IfNone};
ghost use Rattle.qf_ir.specs.Plan.{RowExists};
ghost use Rattle.qf_tree.specs.Refutations.{IsRefutation};
ghost use Rattle.qf_tree.specs.Lines.{StepsFit};
ghost use Rattle.qf_lin.specs.Steps.{is_closable};
ghost use Rattle.qf_prop.specs.Sweeps.{Fits};
ghost use Rattle.qf_encode.specs.Lives.{BoxIn};
ghost use Rattle.qf_instance.specs.RowsMade.{AreMade};
ghost use Rattle.qf_search.specs.Grounding.{AreGrounds, IsOpenRow};
ghost use Rattle.qf_search.specs.Deciding.{IsOpenFor, IsClosing};

use crate::closing::{closing_step, goal_size};
use crate::grounds::Grounds;
use qf_base::{Intervals, List, NoMemory, PBox, RowName};
use qf_instance::Made;
use qf_lin::{Step, System};
use qf_probe::{probe, refute};
use qf_prop::sweep;
use qf_trail::Trail;
use std::alloc::Global;

// A refutation of one step, after which the bounds are empty.
fn refutation_of(alloc: Global, step: Step) -> Result<List<Step>, NoMemory>
    ensures { IfOk result (λ steps. steps ≡ step ∷ Step.Empty ∷ []) }
{
    let mut steps = List::new(alloc);
    steps.push(step)?;
    steps.push(Step::Empty)?;
    Ok(steps)
}

// A trail of bounds.
fn trail_at(alloc: Global, bounds: &Intervals) -> Result<Trail, NoMemory>
    ensures { IfOk result (λ trail. trail ≡ record { bounds = bounds.now; marks = []; levels = 2 }) }
{
    let mut trail = Trail::new(alloc, bounds.len(), 2)?;
    trail.load(bounds);
    Ok(trail)
}

// How often inequalities of a system may be looked at for one refutation: so often, and at least 50 times each.
fn looks(system: &System, limit: u32) -> u32 {
    let all = system.inequalities.len().saturating_mul(50);
    limit.max(u32::try_from(all).unwrap_or(u32::MAX))
}

// Steps that refute bounds, at least where these are closable.
fn closing(
    alloc: Global,
    system: &System,
    bounds: &Intervals,
    limit: u32,
) -> Result<Option<List<Step>>, NoMemory>
    requires { Fits system.now bounds.now }
    ensures refutes { IfOk result (λ found. IfSome found (IsRefutation system.now bounds.now)) }
    ensures spelled { IfOk result (λ found. IfSome found StepsFit) }
    ensures none { IfOk result (λ found. IfNone found (is_closable system.now bounds.now ≡ false)) }
{
    let found = refute(alloc, system, bounds, looks(system, limit))?;
    if found.is_some() {
        return Ok(found);
    }
    let mut trail = trail_at(alloc, bounds)?;
    probe(alloc, system, &mut trail)
}

/// Bounds after a few sweeps.
pub fn swept(alloc: Global, system: &System, bounds: &Intervals) -> Result<Intervals, NoMemory>
    requires { Fits system.now bounds.now }
{
    let mut trail = trail_at(alloc, bounds)?;
    let mut steps = List::new(alloc);
    for _turn in 0..4 {
        sweep(system, &mut trail, &mut steps)?;
    }
    trail.bounds().copy(alloc)
}

impl Grounds<'_> {
    /// Steps that refute a box for a row, where the hull of the box violates an inequality of the row's goal.
    pub fn goal_refutation(
        &self,
        made: &mut Made,
        region: &PBox,
        row: RowName,
    ) -> Result<Option<List<Step>>, NoMemory>
        requires grounds { AreGrounds self.now }
        requires inside { BoxIn region.now self.now.root }
        requires exists { RowExists self.now.problem.now.plan row }
        requires made { AreMade self.now.problem.now self.now.root made.old }
        ensures made { OnOk result (AreMade self.now.problem.now self.now.root made.new) }
        ensures some { IfOk result (λ found. IfSome found (IsClosing self.now.problem.now region.now row)) }
        ensures none { IfOk result (λ found. IfNone found (IsOpenFor self.now.problem.now region.now row)) }
    {
        made.make(self.alloc, self.problem, &self.root, row)?;
        let own = made.get(row);
        let hull = own.hull(self.alloc, region)?;
        let size = goal_size(self.problem.goal(row));
        let first = own.system.inequalities.len() as usize - size;
        match closing_step(&own.system, first, &hull) {
            Some(step) => Ok(Some(refutation_of(self.alloc, step)?)),
            None => Ok(None),
        }
    }

    /// Steps that refute a box for a row, as far as they are found with a limited amount of work.
    pub fn row_refutation(
        &self,
        made: &mut Made,
        region: &PBox,
        row: RowName,
        limit: u32,
    ) -> Result<Option<List<Step>>, NoMemory>
        requires grounds { AreGrounds self.now }
        requires inside { BoxIn region.now self.now.root }
        requires exists { RowExists self.now.problem.now.plan row }
        requires made { AreMade self.now.problem.now self.now.root made.old }
        ensures made { OnOk result (AreMade self.now.problem.now self.now.root made.new) }
        ensures some { IfOk result (λ found. IfSome found (IsClosing self.now.problem.now region.now row)) }
    {
        made.make(self.alloc, self.problem, &self.root, row)?;
        let own = made.get(row);
        let hull = own.hull(self.alloc, region)?;
        refute(self.alloc, &own.system, &hull, looks(&own.system, limit))
    }

    /// Steps that refute a box for a row, at least where the row closes the box.
    pub fn closing_refutation(
        &self,
        made: &mut Made,
        region: &PBox,
        row: RowName,
        limit: u32,
    ) -> Result<Option<List<Step>>, NoMemory>
        requires grounds { AreGrounds self.now }
        requires inside { BoxIn region.now self.now.root }
        requires exists { RowExists self.now.problem.now.plan row }
        requires made { AreMade self.now.problem.now self.now.root made.old }
        ensures made { OnOk result (AreMade self.now.problem.now self.now.root made.new) }
        ensures some { IfOk result (λ found. IfSome found (IsClosing self.now.problem.now region.now row)) }
        ensures none { IfOk result (λ found. IfNone found (IsOpenRow self.now region.now row)) }
    {
        made.make(self.alloc, self.problem, &self.root, row)?;
        let own = made.get(row);
        let hull = own.hull(self.alloc, region)?;
        closing(self.alloc, &own.system, &hull, limit)
    }
}
