//! The search for the least repair over halves of the root box.

ghost use Rattle.std.specs.Prelude.{IfOk};
ghost use Rattle.qf_encode.specs.Lives.{BoxIn};
ghost use Rattle.qf_inputs.specs.Known.{IsSearchable};

use qf_base::PBox;
use qf_inputs::{Opened, read_question};
use qf_search::{Found, solve};
use std::alloc::Global;
use std::process::Abort;
use std::test::Fail;

// A cell that is 0, to which a log adds 5, is to be 9. The constant may be from 0 to 10.
fn question(alloc: Global) -> Result<Opened, Fail>
    ensures { IfOk result IsSearchable }
{
    let question = read_question(
        alloc,
        b"a\n0\n",
        b"UPDATE t SET a = a + 5;",
        br#"[{"row":"r1","set":{"a":9}}]"#,
        b"param,lo,hi\np1,0,10\n",
    )?;
    match question {
        Ok(opened) => Ok(opened),
        Err(_) => Err("inputs that are refused".into()),
    }
}

// The one interval of a box within that of the root box.
fn part(alloc: Global, root: &PBox, lo: i64, hi: i64) -> Result<PBox, Fail>
    ensures { IfOk result (λ region. BoxIn region root.now) }
{
    if root.len() != 1 {
        return Err("more parameters than one".into());
    }
    let whole = root.get(0);
    if lo < whole.0 || hi < lo || whole.1 < hi {
        return Err("a part that is none".into());
    }
    let mut region = PBox::new(alloc, 1)?;
    region.set(0, lo, hi);
    Ok(region)
}

// What the search over a part of the root box finds.
fn found(alloc: Global, opened: &Opened, lo: i64, hi: i64) -> Result<Found, Fail>
    requires { IsSearchable opened.now }
{
    let region = part(alloc, &opened.root, lo, hi)?;
    Ok(solve(alloc, &opened.problem, &region, 21)?)
}

fn is_nine(found: &Found) -> bool {
    match found {
        Found::Repair(point, _) => point.as_slice() == [9].as_slice(),
        _ => false,
    }
}

fn halves(rt: &impl Abort, alloc: Global, opened: &Opened) -> Result<(), Fail>
    requires { IsSearchable opened.now }
{
    assert!(rt; matches!(found(alloc, opened, 0, 5)?, Found::Nothing(_)));
    assert!(rt; is_nine(&found(alloc, opened, 6, 10)?));
    Ok(())
}

#[test]
fn halves_of_the_root_box(rt: HostRuntime) -> Result<(), Fail> {
    let alloc = rt.alloc();
    let opened = question(alloc)?;
    halves(&rt, alloc, &opened)
}
