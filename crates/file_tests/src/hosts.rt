//! Hosts of files in memory. Real files are loaded and stored by each of the command lines in the programs' `cases`.

use host_files::{Host, HostError, MemHost, NeverFails};
use std::alloc::Global;
use std::test::Fail;

// Its texts are the only thing of an error that no clause says.
#[test]
fn errors_are_told(rt: HostRuntime) -> Result<(), Fail> {
    let failed = HostError::Failed;
    let memory = HostError::OutOfMemory;
    let text = format!(in rt.alloc(); "{failed}, {memory}")?;
    assert_eq!(rt; text.as_str(), "host call failed, out of memory");
    Ok(())
}

/// A call of a host.
enum Call {
    Store(&'static str, &'static [u8]),
    Print(&'static [u8]),
}

/// Whether it fails.
fn fails(host: &mut MemHost, call: &Call) -> bool {
    match call {
        Call::Store(name, bytes) => host.store(name, bytes).is_err(),
        Call::Print(bytes) => host.print(bytes).is_err(),
    }
}

/// The second call fails, and so does each for which there is no room.
static CALLS: [(Call, bool); 6] = [
    (Call::Store("a", b"12"), false),
    (Call::Store("a", b"3"), true),
    (Call::Store("a", b"3"), false),
    (Call::Store("a", b"4"), true),
    (Call::Print(b"56"), false),
    (Call::Print(b"5678"), true),
];

/// A host whose second call fails, with room for 10 bytes in two files.
fn second_fails(alloc: Global) -> Result<MemHost, Fail> {
    let mut host = MemHost::new(alloc, [2].to_vec(alloc)?);
    host.reserve(2, 10)?;
    Ok(host)
}

#[test]
fn a_listed_call_fails(rt: HostRuntime) -> Result<(), Fail> {
    let mut host = second_fails(rt.alloc())?;
    for (call, expected) in &CALLS {
        assert_eq!(rt; fails(&mut host, call), *expected);
    }
    assert_eq!(rt; host.file("a"), Some(b"3".as_slice()));
    assert_eq!(rt; host.printed(), b"56".as_slice());
    assert_eq!(rt; (host.room(), host.fault_count()), ((0, 3), 3));
    Ok(())
}

/// A host of one file.
fn one_file(alloc: Global) -> Result<NeverFails, Fail> {
    let mut inner = MemHost::new(alloc, Vec::new(alloc));
    inner.add_file("a", b"12")?;
    Ok(NeverFails::new(inner))
}

#[test]
fn never_fails_with_room(rt: HostRuntime) -> Result<(), Fail> {
    let mut host = one_file(rt.alloc())?;
    let found = host.load(rt.alloc(), "a", 2);
    assert!(rt; found.is_ok());
    assert_eq!(rt; host.inner().fault_count(), 0);
    Ok(())
}
