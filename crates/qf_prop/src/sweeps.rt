ghost use Rattle.std.specs.Prelude.{◌≡◌, ◌+◌, ◌^◌, ◌↔◌, ◌<◌, ◌≤◌, length, IfOk, IsTrue, OnOk};
ghost use Rattle.qf_lin.specs.Inequalities.{is_empty, swept};
ghost use Rattle.qf_tree.specs.Lines.{StepsFit};
ghost use Rattle.qf_prop.specs.Sweeps.{Fits, Leads, number_at};

use crate::row::{is_empty, sweep_row};
use qf_base::{List, NoMemory};
use qf_lin::{Step, System};
use qf_trail::Trail;

/// Whether some interval was empty at the end of a sweep.
#[derive(Clone, Copy, Debug, Drop, PartialEq, Eq)]
pub enum Swept {
    Empty,
    Kept,
}

// The number of the inequality at a turn of the sweep: from the first to the last, and then back.
fn number_at(turn: u64, rows: u64) -> u64
    requires turn { turn < rows + rows }
    requires rows { rows < 2 ^ 32 }
    ensures value { result ≡ number_at turn rows }
    ensures exists { (0 < result) × (result ≤ rows) }
{
    if turn < rows {
        turn + 1
    } else {
        rows + rows - turn
    }
}

/// Takes the bounds that the inequalities give from the first to the last and then from the last to the first, in each in
/// the order of its terms, until the bounds are empty. It adds a step for each bound that was better than the present
/// one; where the numbers of the steps before can be written, those of the added ones can be too. For want of memory the
/// trail holds the bounds that the steps added so far give.
pub fn sweep(system: &System, trail: &mut Trail, steps: &mut List<Step>) -> Result<Swept, NoMemory>
    requires { Fits system.now trail.old.bounds }
    ensures leads { Leads system.now trail.old steps.old trail.new steps.new }
    ensures bounds { OnOk result (trail.new.bounds ≡ swept system.now.inequalities trail.old.bounds) }
    ensures empty { IfOk result (λ ended. (ended ≡ Swept.Empty) ↔ IsTrue (is_empty trail.new.bounds)) }
    ensures spelled { StepsFit steps.old → StepsFit steps.new }
    ensures still { IsTrue (is_empty trail.old.bounds) → steps.new ≡ steps.old }
{
    if is_empty(trail.bounds()) {
        return Ok(Swept::Empty);
    }
    let rows = system.inequalities.len();
    for turn in 0..rows + rows {
        if sweep_row(system, number_at(turn, rows) as u32, trail, steps)? {
            return Ok(Swept::Empty);
        }
    }
    Ok(Swept::Kept)
}
