use outside_ports::{
    DripShelf, FailShelf, FailSink, Failed, Gate, HoldGate, MemShelf, MemSink, NamedFile, OpenGate,
    Shelf, Sink, new_chunk, read_chunk, read_front,
};
use std::alloc::{AllocError, Global};
use std::test::Fail;
use std::thread;

fn one_file(alloc: Global) -> Result<Vec<NamedFile>, AllocError> {
    let mut files = Vec::new(alloc);
    let name = String::from_str(alloc, "t")?;
    let bytes = Vec::from_slice(alloc, b"abc")?;
    files.push(NamedFile { name, bytes })?;
    Ok(files)
}

#[test]
fn reads_by_place(rt: HostRuntime) -> Result<(), Fail> {
    let mut shelf = MemShelf::new(one_file(rt.alloc())?);
    let mut two = [0u8; 2];
    assert_eq!(rt; shelf.read("t", 0, &mut two), Ok(2));
    assert_eq!(rt; two, [b'a', b'b']);
    assert_eq!(rt; shelf.read("t", 2, &mut two), Ok(1));
    assert_eq!(rt; two[0], b'c');
    assert_eq!(rt; shelf.read("t", 3, &mut two), Ok(0));
    assert_eq!(rt; shelf.read("t", u64::MAX, &mut two), Ok(0));
    assert_eq!(rt; shelf.read("i", 0, &mut two), Err(Failed));
    assert_eq!(rt; shelf.misses, 1);
    Ok(())
}

#[test]
fn gives_so_many_bytes(rt: HostRuntime) -> Result<(), Fail> {
    let mut shelf = DripShelf::new(one_file(rt.alloc())?, 2);
    let mut three = [0u8; 3];
    assert_eq!(rt; shelf.read("t", 0, &mut three), Ok(2));
    assert_eq!(rt; three, [b'a', b'b', 0]);
    assert_eq!(rt; shelf.read("t", 2, &mut three), Ok(1));
    assert_eq!(rt; three, [b'c', b'b', 0]);
    assert_eq!(rt; shelf.read("t", 3, &mut three), Ok(0));
    assert_eq!(rt; shelf.read("t", 0, &mut three[..1]), Ok(1));
    assert_eq!(rt; shelf.read("i", 0, &mut three), Err(Failed));
    assert_eq!(rt; shelf.shelf.misses, 1);
    Ok(())
}

#[test]
fn reads_chunks(rt: HostRuntime) -> Result<(), Fail> {
    let mut shelf = DripShelf::new(one_file(rt.alloc())?, 2);
    let mut chunk = new_chunk(rt.alloc())?;
    for (at, wanted) in [(0, 2), (1, 2), (2, 1), (3, 0)] {
        let count = read_chunk(&mut shelf, "t", at, &mut chunk)?;
        assert_eq!(rt; count, wanted);
    }
    assert_eq!(rt; chunk[0], b'c');
    let front = read_front(rt.alloc(), &mut shelf, "t", 2)?;
    assert_eq!(rt;
        (front.bytes.as_slice(), front.more),
        (b"ab".as_slice(), true)
    );
    Ok(())
}

#[test]
fn fails_where_listed(rt: HostRuntime) -> Result<(), Fail> {
    let failing = Vec::from_slice(rt.alloc(), &[2, 3])?;
    let mut shelf = FailShelf::new(MemShelf::new(one_file(rt.alloc())?), failing);
    let mut two = [0u8; 2];
    assert_eq!(rt; shelf.read("t", 0, &mut two), Ok(2));
    assert_eq!(rt; shelf.read("t", 0, &mut two), Err(Failed));
    assert_eq!(rt; shelf.read("i", 0, &mut two), Err(Failed));
    assert_eq!(rt; shelf.read("t", 2, &mut two), Ok(1));
    assert_eq!(rt; (shelf.faults, shelf.shelf.misses), (2, 1));
    Ok(())
}

#[test]
fn holds_what_is_written(rt: HostRuntime) -> Result<(), Fail> {
    let mut sink = MemSink::new(rt.alloc());
    assert_eq!(rt; sink.write(b"agr"), Ok(3));
    assert_eq!(rt; sink.write(b"ees"), Ok(3));
    assert_eq!(rt; sink.held.as_slice(), b"agrees".as_slice());
    let mut sink = FailSink::new(rt.alloc(), 4)?;
    assert_eq!(rt; sink.write(b"agr"), Ok(3));
    assert_eq!(rt; sink.write(b"ees"), Ok(1));
    assert_eq!(rt; sink.write(b""), Ok(0));
    assert_eq!(rt; sink.write(b"es"), Err(Failed));
    assert_eq!(rt; sink.held.as_slice(), b"agre".as_slice());
    assert_eq!(rt; sink.faults, 1);
    OpenGate.before(1, 2);
    OpenGate.after(1, 2);
    Ok(())
}

#[test]
fn holds_segment_1(rt: HostRuntime) -> Result<(), Fail> {
    let gate = HoldGate::new();
    assert_eq!(rt;
        (gate.befores(), gate.afters(), gate.gave_up()),
        (0, 0, false)
    );
    for seg in [0, 2, u32::MAX] {
        gate.before(1, seg);
    }
    for seg in [0, 1, u32::MAX] {
        gate.after(1, seg);
    }
    assert_eq!(rt;
        (gate.befores(), gate.afters(), gate.gave_up()),
        (3, 3, false)
    );
    gate.before(0, 1);
    assert_eq!(rt;
        (gate.befores(), gate.afters(), gate.gave_up()),
        (4, 3, true)
    );
    Ok(())
}

#[test]
fn opens_after_segment_2(rt: HostRuntime) -> Result<(), Fail> {
    let gate = HoldGate::new();
    gate.after(0, 2);
    gate.before(0, 1);
    assert_eq!(rt;
        (gate.befores(), gate.afters(), gate.gave_up()),
        (1, 1, false)
    );
    let gate = HoldGate::new();
    thread::join(&rt, || gate.before(0, 1), || gate.after(1, 2));
    assert_eq!(rt;
        (gate.befores(), gate.afters(), gate.gave_up()),
        (1, 1, false)
    );
    Ok(())
}
