ghost use Rattle.std.specs.Prelude.{◌≡◌, ℤ, List as Items, length, IfOk};
ghost use Rattle.qf_base.specs.Values.{In};
ghost use Rattle.qf_point.specs.Points.{HasNoEmpty};
ghost use Rattle.qf_slice.specs.RootBox as spec;
ghost use Rattle.qf_slice.specs.RootBox.{IsRootBox};
ghost use Rattle.qf_slice.specs.Sliced.{IsSlicedBox};

use crate::marks::needed_list;
use qf_base::{NoMemory, PBox};
use qf_goal::Problem;
use std::alloc::Global;

// Gives each parameter that is not marked its old constant alone.
fn slice(marks: &[bool], olds: &[i64], region: &mut PBox)
    requires marks { length marks.now ≡ length region.old }
    requires olds { length olds.now ≡ length region.old }
    ensures { IsSlicedBox marks.now olds.now region.old region.new }
{
    for i in 0..region.len() {
        if !marks[i as usize] {
            let old = olds[i as usize];
            region.set(i, old, old);
        }
    }
}

/// The box that has to be searched for a repair, with one interval for each parameter: a needed parameter has its domain,
/// any other its old constant alone. Nothing is lost by it (`slicing_loses_no_repair`).
pub fn root_box(alloc: Global, problem: &Problem) -> Result<PBox, NoMemory>
    ensures root { IfOk result (IsRootBox problem.now) }
    ensures spans { IfOk result HasNoEmpty }
    ensures old { IfOk result (λ root. In root problem.now.plan.olds) }
    ensures within { IfOk result (λ root. (q : Items ℤ) → In root q → In problem.now.domains.region q) }
{
    let program = problem.program();
    let marks = needed_list(alloc, program, problem.seeds())?;
    let mut region = problem.domains().region().copy(alloc)?;
    slice(marks.as_slice(), program.olds().as_slice(), &mut region);
    Ok(region)
}

fn is_open(interval: (i64, i64)) -> bool
    ensures { result ≡ spec.is_open interval }
{
    interval.0 != interval.1
}

/// How many parameters have more than one value in the box.
pub fn open_count(region: &PBox) -> u32
    ensures { result ≡ spec.open_count region.now }
{
    let mut count = 0;
    for i in 0..region.len() {
        if is_open(region.get(i)) {
            count += 1;
        }
    }
    count
}
