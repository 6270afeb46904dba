ghost use Rattle.std.specs.Prelude.{◌≡◌, ◌<◌, ◌^◌, ◌↔◌, length, List as Items, ℤ, IfOk, All};
ghost use Rattle.qf_base.specs.Values.{Bounds, IsWithin};
ghost use Rattle.qf_lin.specs.Inequalities.{AllHold, IsWellFormed};
ghost use Rattle.qf_circuit.specs.Circuits.{eval, hull_of, IsCircuit, circuit_size};
ghost use Rattle.qf_rows.specs.Encoding.{rows_of, is_selector, selectors_of, circuit_system, GivesParams};
ghost use Rattle.qf_rows.specs.Limits.{EndsFit, SumFits};

use crate::rows::Rows;
use qf_base::{Intervals, List, NoMemory};
use qf_circuit::{Circuit, Def};
use qf_lin::{Inequality, System};
use std::alloc::Global;

// The inequalities of the definitions in order.
#[tactic(auto, using(crate::proofs::Forms::def_size_le))]
fn inequalities_of(
    alloc: Global,
    defs: &[Def],
    root: &Intervals,
) -> Result<List<Inequality>, NoMemory>
    requires few { circuit_size defs.now < 2 ^ 29 }
    requires numbers { length defs.now < 2 ^ 32 }
    requires ends { All EndsFit root.now }
    requires sums { All SumFits defs.now }
    ensures { IfOk result (λ rows. rows ≡ rows_of root.now defs.now) }
{
    let mut rows = Rows::new(alloc);
    let mut var: u32 = 0;
    for def in defs {
        var += 1;
        rows.push_def(root, var, def)?;
    }
    Ok(rows.into_list())
}

fn is_selector(def: &Def) -> bool
    ensures { result ≡ is_selector def.now }
{
    matches!(def, Def::AtLeastZero(_))
}

// The numbers of the selectors.
fn selectors_of(alloc: Global, defs: &[Def]) -> Result<List<u32>, NoMemory>
    requires numbers { length defs.now < 2 ^ 32 }
    ensures { IfOk result (λ selectors. selectors ≡ selectors_of defs.now) }
{
    let mut selectors = List::new(alloc);
    let mut var: u32 = 0;
    for def in defs {
        var += 1;
        if is_selector(def) {
            selectors.push(var)?;
        }
    }
    Ok(selectors)
}

// The inequalities of a circuit, and its selectors.
fn system_over(alloc: Global, circuit: &Circuit, root: &Intervals) -> Result<System, NoMemory>
    requires few { circuit_size circuit.now < 2 ^ 29 }
    requires ends { All EndsFit root.now }
    requires sums { All SumFits circuit.now }
    ensures system { IfOk result (λ system. system ≡ circuit_system root.now circuit.now) }
    ensures circuit { IsCircuit circuit.now }
{
    let defs = circuit.defs().as_slice();
    Ok(System {
        inequalities: inequalities_of(alloc, defs, root)?,
        vars: circuit.len(),
        selectors: selectors_of(alloc, defs)?,
    })
}

/// The inequalities of a circuit over its hull, definition by definition, and its selectors.
///
/// The variables are the definitions' numbers, from 1. `root` has an interval for each definition: the circuit's hull over
/// some box. Within it, the values of the circuit at a point of the box are the only ones that satisfy the inequalities and
/// give each `Param` its value at the point. In each inequality equal variables are added up at their first place, and
/// factors 0 are dropped. The only refusal is want of memory.
pub fn rows_of(alloc: Global, circuit: &Circuit, root: &Intervals) -> Result<System, NoMemory>
    requires few { circuit_size circuit.now < 2 ^ 29 }
    requires ends { All EndsFit root.now }
    requires sums { All SumFits circuit.now }
    ensures system { IfOk result (λ system. system ≡ circuit_system root.now circuit.now) }
    ensures circuit { IsCircuit circuit.now }
    ensures well_formed { IfOk result IsWellFormed }
    ensures alone { (region : Bounds) (point values : Items ℤ) → root.now ≡ hull_of region circuit.now → IsWithin point region → IsWithin values root.now → GivesParams point values circuit.now → IfOk result (λ system. AllHold system.inequalities values ↔ (values ≡ eval point circuit.now)) }
{
    system_over(alloc, circuit, root)
}
