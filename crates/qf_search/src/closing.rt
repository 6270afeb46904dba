// A step on an inequality of a row's goal that leaves bounds empty.

ghost use Rattle.std.specs.Prelude.{◌≡◌, ◌-◌, ◌+◌, ◌*◌, ◌<◌, ◌≤◌, ◌^◌, [], ◌∷◌, length, is_some, IfSome, IfNone, All, slice_index_or, pos, true};
ghost use Rattle.std.specs.List.{count_by};
ghost use Rattle.qf_lin.specs.Inequalities.{tight_bound};
ghost use Rattle.qf_tree.specs.Steps.{RowFits, RowsFit};
ghost use Rattle.qf_tree.specs.Refutations.{IsRefutation};
ghost use Rattle.qf_tree.specs.Lines.{StepsFit};
ghost use Rattle.qf_search.specs.Closing as spec;
ghost use Rattle.qf_search.specs.Closing.{is_violated, row_at, AreSingle, NoneViolated, goal_size};

use qf_base::Intervals;
use qf_ir::{Cell, Goal};
use qf_lin::{Inequality, Step, System, tight_bound, violated};

// How many cells are stated.
fn stated_count(wanted: &[Option<Cell>]) -> usize
    ensures { result ≡ count_by is_some wanted.now }
{
    let mut count = 0;
    for cell in wanted {
        if cell.is_some() {
            count += 1;
        }
    }
    count
}

/// How many inequalities say the goal. They are the last ones of a row's system.
pub fn goal_size(goal: &Goal) -> usize
    requires { goal_size goal.now < 2 ^ 32 }
    ensures { result ≡ goal_size goal.now }
{
    match goal {
        Goal::Gone => 1,
        Goal::There(wanted) => 1 + 2 * stated_count(wanted.as_slice()),
    }
}

fn is_violated(row: &Inequality, bounds: &Intervals) -> bool
    requires { RowFits bounds.now row.now }
    ensures { result ≡ is_violated bounds.now row.now }
{
    violated(row, bounds)
}

// The first violated inequality from a place on.
fn first_violated(rows: &[Inequality], first: usize, bounds: &Intervals) -> Option<usize>
    requires fit { All (λ row. RowFits bounds.now row) rows.now }
    ensures after { IfSome result (λ place. first ≤ place) }
    ensures within { IfSome result (λ place. place < length rows.now) }
    ensures violated { IfSome result (λ place. is_violated bounds.now (row_at rows.now place) ≡ true) }
    ensures none { IfNone result (NoneViolated first rows.now bounds.now) }
{
    for place in first..rows.len() {
        if is_violated(&rows[place], bounds) {
            return Some(place);
        }
    }
    None
}

// What an inequality of one variable says of it.
fn step_of(row: &Inequality, inequality: u32, bounds: &Intervals) -> Step
    requires fits { RowFits bounds.now row.now }
    requires single { length row.now.terms ≡ 1 }
    ensures { let var = (slice_index_or row.now.terms 0 (pos 0, 0)).1 in result ≡ Step.Tight inequality var (tight_bound row.now bounds.now var) }
{
    let var = row.terms.as_slice()[0].1;
    Step::Tight {
        inequality,
        var,
        bound: tight_bound(row, bounds, var),
    }
}

/// A step that leaves the bounds empty, on one of the inequalities from a place on, each of which has one variable. None
/// comes exactly where each of them can hold within the bounds.
pub fn closing_step(system: &System, first: usize, bounds: &Intervals) -> Option<Step>
    requires fit { RowsFit system.now bounds.now }
    requires single { AreSingle first system.now.inequalities }
    requires few { length system.now.inequalities < 2 ^ 32 }
    ensures some { IfSome result (λ step. IsRefutation system.now bounds.now (step ∷ Step.Empty ∷ [])) }
    ensures spelled { IfSome result (λ step. StepsFit (step ∷ Step.Empty ∷ [])) }
    ensures none { IfNone result (NoneViolated first system.now.inequalities bounds.now) }
{
    let _variables = bounds.len();
    let rows = system.inequalities.as_slice();
    match first_violated(rows, first, bounds) {
        Some(place) => Some(step_of(&rows[place], place as u32 + 1, bounds)),
        None => None,
    }
}
