ghost use Rattle.std.specs.Prelude.{◌≡◌, [], map, IfOk};
ghost use Rattle.qf_prop.specs.Sweeps.{Fits};

use super::*;
use qf_base::{Bound, Intervals, List, NoMemory};
use qf_lin::{Inequality, Step, System};
use qf_prop::sweep;
use qf_trail::Trail;
use std::alloc::Global;
use std::process::Abort;
use std::test::Fail;

// Inequalities by their terms and what these must sum up to.
fn rows_of(alloc: Global, table: &[(&[(i64, u32)], i64)]) -> Result<List<Inequality>, NoMemory>
    ensures { IfOk result (λ rows. rows ≡ map (λ row. record { terms = row.0.now; least = row.1 }) table.now) }
{
    let mut rows = List::new(alloc);
    for (terms, least) in table {
        let terms = List::from_slice(alloc, terms)?;
        rows.push(Inequality {
            terms,
            least: *least,
        })?;
    }
    Ok(rows)
}

// The fourth variable is the sum of the first, which is 0, and the third, and it is to be 9.
fn one_sum(alloc: Global) -> Result<(System, Intervals), NoMemory>
    ensures { IfOk result (λ made. Fits made.0 made.1) }
{
    let hull = List::from_slice(alloc, &[(0, 0), (1, 1), (0, 10), (0, 10)])?;
    let inequalities = rows_of(
        alloc,
        &[
            (&[(1, 1), (1, 3), (-1, 4)], 0),
            (&[(-1, 1), (-1, 3), (1, 4)], 0),
            (&[(1, 2)], 1),
            (&[(1, 4)], 9),
            (&[(-1, 4)], -9),
        ],
    )?;
    let system = System {
        inequalities,
        vars: 4,
        selectors: List::new(alloc),
    };
    Ok((system, Intervals::from_list(hull)))
}

// The second variable is a selector, and each of its cases leaves no value for the first.
fn two_cases(alloc: Global) -> Result<(System, Intervals), NoMemory>
    ensures { IfOk result (λ made. Fits made.0 made.1) }
{
    let hull = List::from_slice(alloc, &[(0, 10), (0, 1)])?;
    let selectors = List::from_slice(alloc, &[2])?;
    let inequalities = rows_of(
        alloc,
        &[
            (&[(1, 1), (6, 2)], 6),
            (&[(-1, 1), (5, 2)], -5),
            (&[(1, 1), (-6, 2)], 0),
            (&[(-1, 1), (-5, 2)], -10),
        ],
    )?;
    let system = System {
        inequalities,
        vars: 2,
        selectors,
    };
    Ok((system, Intervals::from_list(hull)))
}

fn trail_over(alloc: Global, hull: &Intervals) -> Result<Trail, NoMemory>
    ensures bounds { IfOk result (λ trail. trail.bounds ≡ hull.now) }
    ensures marks { IfOk result (λ trail. trail.marks ≡ []) }
    ensures levels { IfOk result (λ trail. trail.levels ≡ 2) }
{
    let mut trail = Trail::new(alloc, hull.len(), 2)?;
    trail.load(hull);
    Ok(trail)
}

// A step as its line in a certificate: its first letter, its numbers, and its bound.
fn line_of(step: &Step) -> (char, u32, u32, i64) {
    match step {
        Step::Tight {
            inequality,
            var,
            bound: Bound::Low(least),
        } => ('g', *inequality, *var, *least),
        Step::Tight {
            inequality,
            var,
            bound: Bound::High(most),
        } => ('l', *inequality, *var, *most),
        Step::Empty => ('e', 0, 0, 0),
        Step::Case { var } => ('c', 0, *var, 0),
    }
}

fn lines(alloc: Global, steps: &List<Step>) -> Result<Vec<(char, u32, u32, i64)>, NoMemory> {
    let mut lines = Vec::new(alloc);
    for step in steps.as_slice() {
        lines.push(line_of(step))?;
    }
    Ok(lines)
}

fn sweep_lines(
    alloc: Global,
    system: &System,
    hull: &Intervals,
) -> Result<Vec<(char, u32, u32, i64)>, NoMemory>
    requires { Fits system.now hull.now }
{
    let mut trail = trail_over(alloc, hull)?;
    let mut steps = List::new(alloc);
    let _ = sweep(system, &mut trail, &mut steps)?;
    lines(alloc, &steps)
}

fn probe_lines(
    alloc: Global,
    system: &System,
    hull: &Intervals,
) -> Result<Vec<(char, u32, u32, i64)>, NoMemory>
    requires { Fits system.now hull.now }
{
    let mut trail = trail_over(alloc, hull)?;
    match probe(alloc, system, &mut trail)? {
        Some(steps) => lines(alloc, &steps),
        None => Ok(Vec::new(alloc)),
    }
}

fn refute_lines(
    alloc: Global,
    system: &System,
    hull: &Intervals,
) -> Result<Vec<(char, u32, u32, i64)>, NoMemory>
    requires { Fits system.now hull.now }
{
    match refute(alloc, system, hull, 100)? {
        Some(steps) => lines(alloc, &steps),
        None => Ok(Vec::new(alloc)),
    }
}

fn one_sum_swept(alloc: Global) -> Result<Vec<(char, u32, u32, i64)>, NoMemory> {
    let (system, hull) = one_sum(alloc)?;
    sweep_lines(alloc, &system, &hull)
}

fn two_cases_swept(alloc: Global) -> Result<Vec<(char, u32, u32, i64)>, NoMemory> {
    let (system, hull) = two_cases(alloc)?;
    sweep_lines(alloc, &system, &hull)
}

fn two_cases_probed(alloc: Global) -> Result<Vec<(char, u32, u32, i64)>, NoMemory> {
    let (system, hull) = two_cases(alloc)?;
    probe_lines(alloc, &system, &hull)
}

fn two_cases_refuted(alloc: Global) -> Result<Vec<(char, u32, u32, i64)>, NoMemory> {
    let (system, hull) = two_cases(alloc)?;
    refute_lines(alloc, &system, &hull)
}

fn expect_lines(
    rt: &impl Abort,
    found: Vec<(char, u32, u32, i64)>,
    wanted: &[(char, u32, u32, i64)],
) {
    assert_eq!(rt; found.as_slice(), wanted);
}

/// A sweep that makes four steps, and a system that sweeps leave as it is, but that both cases of a selector refute.
#[test]
fn worked_systems(rt: HostRuntime) -> Result<(), Fail> {
    let alloc = rt.alloc();
    let to_nine = [
        ('g', 4, 4, 9),
        ('l', 5, 4, 9),
        ('l', 2, 3, 9),
        ('g', 1, 3, 9),
    ];
    let by_cases = [
        ('c', 0, 2, 0),
        ('g', 1, 1, 6),
        ('l', 2, 1, 5),
        ('e', 0, 0, 0),
        ('g', 3, 1, 6),
        ('l', 4, 1, 5),
        ('e', 0, 0, 0),
    ];
    expect_lines(&rt, one_sum_swept(alloc)?, &to_nine);
    expect_lines(&rt, two_cases_swept(alloc)?, &[]);
    expect_lines(&rt, two_cases_probed(alloc)?, &by_cases);
    expect_lines(&rt, two_cases_refuted(alloc)?, &by_cases);
    Ok(())
}
