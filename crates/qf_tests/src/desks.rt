//! A desk in memory, call by call.

use qf_base::{Desk, DeskFault, List, MemoryDesk, Text, have_distinct_names};
use std::alloc::Global;
use std::test::Fail;

fn one_file(alloc: Global, name: &str, bytes: &[u8]) -> Result<List<(Text, List<u8>)>, Fail> {
    let mut files = List::new(alloc);
    files.push((Text::new(alloc, name)?, List::from_slice(alloc, bytes)?))?;
    Ok(files)
}

#[test]
fn memory_desk_fails_by_number(rt: HostRuntime) -> Result<(), Fail> {
    let alloc = rt.alloc();
    let files = one_file(alloc, "a", b"abcd")?;
    assert!(rt; have_distinct_names(files.as_slice()));
    let mut desk = MemoryDesk::new(alloc, files, List::from_slice(alloc, &[2, 5, 6])?);
    let bytes = desk.read(alloc, "a", 4).ok().ok_or("the file is read")?;
    assert_eq!(rt; bytes.as_slice(), b"abcd".as_slice());
    assert!(rt; matches!(desk.read(alloc, "a", 4), Err(DeskFault::Failed)));
    assert!(rt; matches!(desk.read(alloc, "a", 3), Err(DeskFault::TooLong)));
    assert!(rt; matches!(desk.put(alloc, "b", b"xyz"), Ok(())));
    assert!(rt; matches!(desk.put(alloc, "b", b"pqrst"), Err(DeskFault::Failed)));
    assert_eq!(rt; desk.put_bytes("b"), b"xyzpq".as_slice());
    assert!(rt; matches!(desk.say(alloc, b"done"), Err(DeskFault::Failed)));
    assert_eq!(rt; desk.said_bytes(), b"do".as_slice());
    Ok(())
}
