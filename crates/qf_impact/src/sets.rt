// Steps over the sets of all parameters at once.

ghost use Rattle.std.specs.Prelude.{◌≡◌, ◌+◌, ◌<◌, ◌==◌, not, ◌&&◌, ◌||◌, length};
ghost use Rattle.std.specs.List.{list_any, AllByRecursion};
ghost use Rattle.qf_ir.specs.ColumnSets.{has};
ghost use Rattle.qf_ir.specs.Flow.{Place, same_place};
ghost use Rattle.qf_ir.specs.Flow.{At, Live};
ghost use Rattle.qf_impact.specs.Steps.{is_param, is_reached, touches, sets_place};
ghost use Rattle.qf_impact.specs.Sets.{names, set_at, Changed};

use qf_ir::{Atom, ColumnSet, Expr};

pub fn only_column(column: u32) -> ColumnSet
    requires { column < 32 }
    ensures { (place : Place) → has result place ≡ same_place place (At column) }
{
    let mut set = ColumnSet::new();
    set.add(column);
    set
}

pub fn only_live() -> ColumnSet
    ensures { (place : Place) → has result place ≡ same_place place Live }
{
    let mut set = ColumnSet::new();
    set.add_live();
    set
}

// The columns that the atoms name.
fn columns_in(atoms: &[Atom]) -> ColumnSet
    ensures { (place : Place) → has result place ≡ list_any (names place) atoms.now }
{
    let mut set = ColumnSet::new();
    for atom in atoms {
        if let Atom::Column(column) = *atom {
            if column < 32 {
                set.add(column);
            }
        }
    }
    set
}

// The columns that are set.
pub fn columns_set(sets: &[(u32, Expr)]) -> ColumnSet
    requires { AllByRecursion (λ s. s.0 < 32) sets.now }
    ensures { (place : Place) → has result place ≡ list_any (sets_place place) sets.now }
{
    let mut set = ColumnSet::new();
    for assignment in sets {
        set.add(assignment.0);
    }
    set
}

// Takes these columns out of each set.
pub fn clear(columns: ColumnSet, sets: &mut [ColumnSet])
    ensures { Changed (λ i reach place. reach place && not (has columns place)) sets.old sets.new }
{
    for i in 0..sets.len() {
        let mut set = sets[i];
        set.remove_all(columns);
        sets[i] = set;
    }
}

// Adds the target to each set that had a column of the atoms before.
fn carry(atoms: &[Atom], target: ColumnSet, before: &[ColumnSet], sets: &mut [ColumnSet])
    requires { length before.now ≡ length sets.old }
    ensures { Changed (λ i reach place. reach place || (has target place && list_any (is_reached (has (set_at before.now i))) atoms.now)) sets.old sets.new }
{
    let columns = columns_in(atoms);
    for i in 0..sets.len() {
        if before[i].meets(columns) {
            let mut set = sets[i];
            set.add_all(target);
            sets[i] = set;
        }
    }
}

// Adds the target to the set of each parameter that the atoms name. The sets are of the parameters from the first on.
pub fn enter(first: u32, atoms: &[Atom], target: ColumnSet, sets: &mut [ColumnSet])
    ensures { Changed (λ i reach place. reach place || (has target place && list_any (is_param (first + i)) atoms.now)) sets.old sets.new }
{
    for atom in atoms {
        if let Atom::Param(param) = *atom {
            enter_one(first, param, target, sets);
        }
    }
}

fn enter_one(first: u32, param: u32, target: ColumnSet, sets: &mut [ColumnSet])
    ensures { Changed (λ i reach place. reach place || (has target place && (first + i == param))) sets.old sets.new }
{
    if param < first {
        return;
    }
    let place = (param - first) as usize;
    if place < sets.len() {
        let mut set = sets[place];
        set.add_all(target);
        sets[place] = set;
    }
}

// Adds the target to the set of each parameter that touches the atoms: it is one of them, or its set had one of their
// columns before.
pub fn spread(
    first: u32,
    atoms: &[Atom],
    target: ColumnSet,
    before: &[ColumnSet],
    sets: &mut [ColumnSet],
)
    requires { length before.now ≡ length sets.old }
    ensures { Changed (λ i reach place. reach place || (has target place && touches (first + i) (has (set_at before.now i)) atoms.now)) sets.old sets.new }
{
    carry(atoms, target, before, sets);
    enter(first, atoms, target, sets);
}
