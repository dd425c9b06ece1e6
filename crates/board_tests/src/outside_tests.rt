//! The fakes and the adapters of the outside.

use crate::asserts::none_wrong;
use desk_io::{
    Failed, FileShelf, LoadError, Loaded, MemoryShelf, MemorySink, MemorySource, Shelf, Sink,
    Source, StdSink, StdSource,
};
use std::alloc::{AllocError, Global};
use std::io::{self, ErrorKind, Read, Write};
use std::test::Fail;

/// Whether a source gives two bytes, fails, gives one, and is at its end; the buffer then begins with this byte.
fn gives_pieces(source: &mut MemorySource, first: u8) -> bool {
    let mut buf = [0u8; 4];
    source.read(&mut buf) == Ok(2)
        && source.read(&mut buf) == Err(Failed)
        && source.read(&mut buf) == Ok(1)
        && source.read(&mut buf) == Ok(0)
        && buf[0] == first
}

#[test]
fn memory_source_gives_pieces(rt: HostRuntime) -> Result<(), Fail> {
    let bytes = b"abc".to_vec(rt.alloc())?;
    let mut source = MemorySource::new(bytes, 2, vec![in rt.alloc(); 1]?);
    assert!(rt; gives_pieces(&mut source, b'c'));
    Ok(())
}

/// Whether a sink of 4 bytes, whose call 7 alone fails, answers so and has got this then.
fn takes(
    alloc: Global,
    piece: &[u8],
    answer: Result<(), Failed>,
    written: &[u8],
) -> Result<bool, AllocError> {
    let mut sink = MemorySink::with_room(alloc, 4, vec![in alloc; 7]?)?;
    Ok(sink.write(piece) == answer && sink.written() == written)
}

/// What is written, what comes of it, and what the sink has got then.
static WRITES: [(&[u8], Result<(), Failed>, &[u8]); 4] = [
    (b"solve", Err(Failed), b"solv"),
    (b"end", Ok(()), b"end"),
    (b"four", Ok(()), b"four"),
    (b"", Ok(()), b""),
];

/// The first row of the table of writes that isn't so.
fn wrong_write(alloc: Global) -> Option<usize> {
    for (at, row) in WRITES.iter().enumerate() {
        if takes(alloc, row.0, row.1, row.2) != Ok(true) {
            return Some(at);
        }
    }
    None
}

/// Whether a sink fails at its first call and writes nothing then, and writes at its second.
fn fails_once(failing: &mut MemorySink) -> bool {
    failing.write(b"end") == Err(Failed)
        && failing.written().is_empty()
        && failing.write(b"end") == Ok(())
}

#[test]
fn memory_sink_takes_what_fits(rt: HostRuntime) -> Result<(), Fail> {
    let alloc = rt.alloc();
    none_wrong(&rt, wrong_write(alloc));
    let mut failing = MemorySink::with_room(alloc, 4, vec![in alloc; 0]?)?;
    assert!(rt; fails_once(&mut failing));
    Ok(())
}

/// A name and a limit, and what comes of loading it.
type Load = (&'static str, usize, Result<Loaded, LoadError>);

/// Whether the loads are so, and append this.
fn loads<S: Shelf>(alloc: Global, shelf: &mut S, loads: &[Load], appended: &[u8]) -> bool {
    let mut out = Vec::new(alloc);
    for row in loads {
        if shelf.load(row.0, row.1, &mut out) != row.2 {
            return false;
        }
    }
    out.as_slice() == appended
}

static FROM_MEMORY: [Load; 5] = [
    ("c", 3, Ok(Loaded::Whole)),
    ("c", 2, Ok(Loaded::Longer)),
    ("d", 3, Err(LoadError::Absent)),
    ("c", 3, Err(LoadError::Failed)),
    ("c", 9, Ok(Loaded::Whole)),
];

/// Adds a file twice to a shelf whose call 3 fails.
fn fill(alloc: Global, shelf: &mut MemoryShelf) -> Result<(), AllocError> {
    shelf.add("c", b"old".to_vec(alloc)?)?;
    shelf.add("c", b"abc".to_vec(alloc)?)?;
    shelf.fail_at(3)
}

#[test]
fn memory_shelf_loads(rt: HostRuntime) -> Result<(), Fail> {
    let mut shelf = MemoryShelf::new(rt.alloc());
    fill(rt.alloc(), &mut shelf)?;
    assert!(rt; loads(rt.alloc(), &mut shelf, &FROM_MEMORY, b"abcababc"));
    Ok(())
}

static FROM_FILES: [Load; 4] = [
    ("a", 3, Ok(Loaded::Whole)),
    ("a", 2, Ok(Loaded::Longer)),
    ("b", 2, Err(LoadError::Failed)),
    ("a", 0, Ok(Loaded::Longer)),
];

#[test]
fn file_shelf_loads(rt: HostRuntime) -> Result<(), Fail> {
    std::fs::write(&rt, "a", "abc")?;
    let good = loads(rt.alloc(), &mut FileShelf::new(&rt), &FROM_FILES, b"abcab");
    std::fs::remove_file(&rt, "a")?;
    assert!(rt; good);
    Ok(())
}

/// A writer that takes at most two bytes a call and four in all.
#[derive(Drop)]
struct Narrow {
    taken: usize,
}

impl Write for Narrow {
    fn write(&mut self, buf: &[u8]) -> io::Result<usize> {
        let count = buf.len().min(2).min(4usize.saturating_sub(self.taken));
        self.taken += count;
        Ok(count)
    }

    fn flush(&mut self) -> io::Result<()> {
        Ok(())
    }
}

/// Whether a source gives two bytes, the second of them this, and then none.
fn gives_two(source: &mut StdSource<&[u8]>, second: u8) -> bool {
    let mut buf = [0u8; 4];
    source.read(&mut buf) == Ok(2) && buf[1] == second && source.read(&mut buf) == Ok(0)
}

/// Whether a narrow writer's sink takes a first piece and no second, and then only nothing.
fn takes_one_piece(sink: &mut StdSink<Narrow>) -> bool {
    sink.write(b"abc") == Ok(())
        && sink.write(b"def") == Err(Failed)
        && sink.write(b"g") == Err(Failed)
        && sink.write(b"") == Ok(())
}

#[test]
fn adapters_pass_on(rt: HostRuntime) {
    assert!(rt; gives_two(&mut StdSource::new(b"ab".as_slice()), b'b'));
    assert!(rt; takes_one_piece(&mut StdSink::new(Narrow { taken: 0 })));
}

/// A reader and a writer whose first call is interrupted, and which then takes or gives one byte a call.
#[derive(Drop)]
struct Interrupted {
    called: bool,
}

impl Interrupted {
    /// Whether the call is the first.
    fn is_first(&mut self) -> bool {
        let first = !self.called;
        self.called = true;
        first
    }
}

impl Read for Interrupted {
    fn read(&mut self, buf: &mut [u8]) -> io::Result<usize> {
        if self.is_first() {
            return Err(io::Error::from(ErrorKind::Interrupted));
        }
        match buf.first_mut() {
            Some(first) => {
                *first = b'x';
                Ok(1)
            }
            None => Ok(0),
        }
    }
}

impl Write for Interrupted {
    fn write(&mut self, buf: &[u8]) -> io::Result<usize> {
        if self.is_first() {
            return Err(io::Error::from(ErrorKind::Interrupted));
        }
        Ok(buf.len().min(1))
    }

    fn flush(&mut self) -> io::Result<()> {
        Ok(())
    }
}

/// Whether a source gives one byte, this one.
fn gives_one(source: &mut StdSource<Interrupted>, first: u8) -> bool {
    let mut buf = [0u8; 4];
    source.read(&mut buf) == Ok(1) && buf[0] == first
}

#[test]
fn adapters_try_interrupted_calls_again(rt: HostRuntime) {
    assert!(rt; gives_one(&mut StdSource::new(Interrupted { called: false }), b'x'));
    assert!(rt; StdSink::new(Interrupted { called: false }).write(b"abc") == Ok(()));
}
