//! Shelves and sinks at each call that fails, in memory and over the system's files.

use std::alloc::{AllocError, Global};
use std::test::Fail;
use std::{fs, io};
use xc_base::{FileShelf, MemoryShelf, MemorySink, Shelf, SinkFault, StreamSink, put_all};

fn written(alloc: Global, bytes: &[u8]) -> Result<String, AllocError> {
    let mut text = String::new(alloc);
    for byte in bytes {
        text.push((*byte & 127) as char)?;
    }
    Ok(text)
}

// What a load gives: the text, or its fault.
fn loaded<S: Shelf>(
    alloc: Global,
    shelf: &mut S,
    name: &str,
    limit: u16,
) -> Result<String, AllocError> {
    match shelf.load(alloc, name, usize::from(limit)) {
        Ok(bytes) => written(alloc, bytes.as_slice()),
        Err(fault) => format!(in alloc; "{fault:?}"),
    }
}

// Loads from a shelf on which one is to fail.
fn three_loads(alloc: Global, call: u64) -> Result<String, Fail> {
    let mut shelf = MemoryShelf::new(alloc);
    shelf.add("a", b"new text")?;
    shelf.fail(call)?;
    let mut text = String::new(alloc);
    for (name, limit) in [("a", 8), ("a", 2), ("b", 8)] {
        text.push_str(loaded(alloc, &mut shelf, name, limit)?.as_str())?;
    }
    Ok(text)
}

#[test]
fn a_shelf_in_memory_fails_at_each_load(rt: HostRuntime) -> Result<(), Fail> {
    let table = [
        (1, "FailednewFailed"),
        (2, "new textFailedFailed"),
        (3, "new textnewFailed"),
    ];
    for (call, expected) in table {
        assert_eq!(rt; three_loads(rt.alloc(), call)?.as_str(), expected);
    }
    Ok(())
}

// What a sink has that takes three bytes at a time and on which one put is to fail.
fn put_in_pieces(alloc: Global, call: u64) -> Result<String, Fail> {
    let mut sink = MemorySink::new(alloc, 3);
    sink.fail(call)?;
    let done = put_all(&mut sink, b"12345678");
    let bytes = written(alloc, sink.bytes())?;
    Ok(format!(in alloc; "{bytes} {done:?}")?)
}

#[test]
fn a_sink_in_memory_fails_at_each_put(rt: HostRuntime) -> Result<(), Fail> {
    let table = [
        (1, " Err(Failed)"),
        (2, "123 Err(Failed)"),
        (3, "123456 Err(Failed)"),
        (4, "12345678 Ok(())"),
    ];
    for (call, expected) in table {
        assert_eq!(rt; put_in_pieces(rt.alloc(), call)?.as_str(), expected);
    }
    Ok(())
}

#[test]
fn files_of_the_system_are_loaded(rt: HostRuntime) -> Result<(), Fail> {
    let mut shelf = FileShelf::new(&rt);
    let table = [
        ("no such file", 10, "Failed"),
        ("/dev/null", 10, ""),
        ("/dev/zero", 4, "\0\0\0\0\0"),
    ];
    for (name, limit, expected) in table {
        assert_eq!(rt;
            loaded(rt.alloc(), &mut shelf, name, limit)?.as_str(),
            expected
        );
    }
    Ok(())
}

fn put_on<X: io::Write + Drop>(writer: X) -> Result<(), SinkFault> {
    let mut sink = StreamSink::new(writer);
    put_all(&mut sink, b"1234")
}

#[test]
fn streams_fail_where_they_are_full(rt: HostRuntime) -> Result<(), Fail> {
    assert!(rt; put_on(io::Cursor::new([0u8; 4])).is_ok());
    assert!(rt; put_on(io::Cursor::new([0u8; 3])) == Err(SinkFault::Failed));
    assert!(rt; put_on(fs::File::create(&rt, "/dev/null")?).is_ok());
    assert!(rt; put_on(fs::File::create(&rt, "/dev/full")?) == Err(SinkFault::Failed));
    Ok(())
}
