//! Long certificates, which are made here.

use crate::runs::{Inputs, says};
use qf_certtext::{read, write};
use std::alloc::Global;
use std::fmt::Write;
use std::process::Abort;
use std::test::Fail;

// A certificate for one cell that is 0, to which a log adds 5, is accepted.
fn is_accepted(
    rt: &impl Abort,
    alloc: Global,
    complaints: &str,
    domains: &str,
    certificate: &str,
    said: &str,
) -> Result<(), Fail> {
    let inputs = Inputs {
        initial: "a\n0\n",
        log: "UPDATE t SET a = a + 5;",
        complaints,
        domains,
        certificate,
    };
    says(
        rt,
        alloc,
        &["check", "I", "L", "C", "D", "K"],
        &inputs,
        said,
    )
}

// 100,000 splits, each the left half of the one before; all leaves are open.
#[test]
fn long_left_chain(rt: HostRuntime) -> Result<(), Fail> {
    let alloc = rt.alloc();
    let mut text = String::from_str(alloc, "qfix-cert 1\nanswer budget\n")?;
    for cut in (900_000..1_000_000).rev() {
        write!(text, "split p1 {cut} r1\n")?;
    }
    for _ in 0..100_001 {
        text.push_str("open\n")?;
    }
    text.push_str("end\n")?;
    is_accepted(
        &rt,
        alloc,
        r#"[{"row":"r1","set":{"a":9}}]"#,
        "param,lo,hi\np1,-1000000,1000000\n",
        text.as_str(),
        "accepted: budget, at least 0\n",
    )
}

// 1,000 splits, each the left half of the one before, and 1,000 refuted leaves of one value: from 0 to 999 none gives 1000.
fn two_thousand_nodes(alloc: Global) -> Result<String, Fail> {
    let mut text = String::from_str(alloc, "qfix-cert 1\nanswer repair 1000\n")?;
    for cut in (0..1000).rev() {
        write!(text, "split p1 {cut} r1\n")?;
    }
    for _ in 0..1000 {
        text.push_str("refuted r1\nge 4 4 1000\nempty\n")?;
    }
    text.push_str("dear\nend\n")?;
    Ok(text)
}

// A certificate is read, written again to the same bytes, and accepted.
#[test]
fn certificate_of_two_thousand_nodes(rt: HostRuntime) -> Result<(), Fail> {
    let alloc = rt.alloc();
    let text = two_thousand_nodes(alloc)?;
    let Ok(certificate) = read(alloc, text.as_bytes()) else {
        return Err("the text of a certificate".into());
    };
    let again = write(alloc, &certificate)?;
    drop(certificate);
    assert!(rt; again.as_slice() == text.as_bytes());
    drop(again);
    is_accepted(
        &rt,
        alloc,
        r#"[{"row":"r1","set":{"a":1000}}]"#,
        "param,lo,hi\np1,0,1000\n",
        text.as_str(),
        "accepted: repair 995\n",
    )
}
