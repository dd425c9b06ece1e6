//! Standard output within the system's limit on the size of files.

use std::fs::Files;
use std::io::{Error, ErrorKind, Read, Write};
use std::{fs, io, str};

/// A writer to standard output that fails at the limit on the size of files (`ulimit -f`), where the system would end the
/// program by a signal.
#[derive(Drop)]
pub(crate) struct FileLimited<'a, F, W> {
    files: &'a F,
    writer: W,
    /// In bytes.
    limit: Option<u64>,
}

impl<'a, F: Files, W> FileLimited<'a, F, W> {
    /// Writes to `writer`, which is standard output's, within the limit that is set now.
    pub(crate) fn new(files: &'a F, writer: W) -> Self {
        let limit = match size(files) {
            Some(_) => limit(files),
            None => None,
        };
        FileLimited {
            files,
            writer,
            limit,
        }
    }

    /// How many bytes may be written, wherever in the file they go.
    fn room(&self) -> usize {
        let Some(limit) = self.limit else {
            return usize::MAX;
        };
        match size(self.files) {
            Some(size) => usize::try_from(limit.saturating_sub(size)).unwrap_or(usize::MAX),
            None => usize::MAX,
        }
    }
}

impl<'a, F: Files, W: Write> Write for FileLimited<'a, F, W> {
    ghost contents = { λ s. W.contents s.writer };

    fn write(&mut self, buf: &[u8]) -> io::Result<usize> {
        let len = buf.len().min(self.room());
        if len == 0 && !buf.is_empty() {
            return Err(Error::from(ErrorKind::FileTooLarge));
        }
        self.writer.write(&buf[..len])
    }

    fn flush(&mut self) -> io::Result<()> {
        self.writer.flush()
    }
}

/// The size of the file behind standard output, in bytes, if it is a regular one.
fn size<F: Files>(files: &F) -> Option<u64> {
    let file = fs::metadata(files, "/dev/stdout").ok()?;
    if file.is_file() {
        return Some(file.len());
    }
    None
}

/// The limit on the size of a file, in bytes, if there is one, as Linux tells it: `Max file size 10 10 bytes`.
fn limit<F: Files>(files: &F) -> Option<u64> {
    let mut buf = [0u8; 4096];
    let count = fs::open(files, "/proc/self/limits")
        .ok()?
        .read(&mut buf)
        .ok()?;
    let text = str::from_utf8(&buf[..count]).ok()?;
    let (_, behind) = text.split_once("Max file size")?;
    let (number, _) = behind.trim_start().split_once(' ')?;
    number.parse().ok()
}
