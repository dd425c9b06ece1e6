//! Standard input and output. What is written is held back until more has to be read.

use std::alloc::Global;
use std::cell::{Cell, RefCell};
use std::io::{self, BufWriter, Error, ErrorKind, Read, Write};

/// Standard output. What is written goes on to the writer before standard input is read, when it is much, and at the end.
#[derive(Drop)]
pub(crate) struct Output<W: Write + Drop> {
    writer: RefCell<BufWriter<W>>,
    has_failed: Cell<bool>,
}

impl<W: Write + Drop> Output<W> {
    /// Nothing is held back for `writer` yet.
    pub(crate) fn new(alloc: Global, writer: W) -> io::Result<Self> {
        Ok(Output {
            writer: RefCell::new(BufWriter::new(alloc, writer)?),
            has_failed: Cell::new(false),
        })
    }

    /// Writes what is held back.
    fn pass_on(&self) -> io::Result<()> {
        match self.writer.try_borrow_mut() {
            Ok(mut writer) => writer.flush(),
            Err(_) => Err(Error::from(ErrorKind::Other)),
        }
    }

    /// Writes what is held back. Whether nothing has failed so far.
    pub(crate) fn is_written(&self) -> bool {
        if !self.has_failed.get() && self.pass_on().is_err() {
            self.has_failed.set(true);
        }
        !self.has_failed.get()
    }
}

/// A writer to standard output. A flush waits for the next read.
#[derive(Drop)]
pub(crate) struct OutputWriter<'a, W: Write + Drop> {
    output: &'a Output<W>,
}

impl<'a, W: Write + Drop> OutputWriter<'a, W> {
    /// Writes to `output`.
    pub(crate) fn new(output: &'a Output<W>) -> Self {
        OutputWriter { output }
    }
}

impl<'a, W: Write + Drop> Write for OutputWriter<'a, W> {
    fn write(&mut self, buf: &[u8]) -> io::Result<usize> {
        match self.output.writer.try_borrow_mut() {
            Ok(mut writer) if !self.output.has_failed.get() => writer.write(buf),
            _ => Err(Error::from(ErrorKind::Other)),
        }
    }

    fn flush(&mut self) -> io::Result<()> {
        Ok(())
    }
}

/// A reader of standard input, before whose reads all output is written. Where that fails the input is at its end.
#[derive(Drop)]
pub(crate) struct InputReader<'a, R, W: Write + Drop> {
    reader: R,
    output: &'a Output<W>,
}

impl<'a, R, W: Write + Drop> InputReader<'a, R, W> {
    /// Reads what `reader` gives.
    pub(crate) fn new(reader: R, output: &'a Output<W>) -> Self {
        InputReader { reader, output }
    }
}

impl<'a, R: Read, W: Write + Drop> Read for InputReader<'a, R, W> {
    fn read(&mut self, buf: &mut [u8]) -> io::Result<usize> {
        if !self.output.is_written() {
            return Ok(0);
        }
        self.reader.read(buf)
    }
}
