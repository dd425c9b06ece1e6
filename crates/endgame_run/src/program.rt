//! The run of the program: its words, its files, its input and its output.

ghost use Rattle.std.specs.Prelude.{◌≡◌, ◌<◌, IfOk, OnErr};
ghost use Rattle.endgame_questions.specs.Codes.{code_of};
ghost use Rattle.endgame_questions.specs.declared.status.Status.TheVariants.{Memory};

use crate::console::{InputReader, Output, OutputWriter};
use crate::file_limit::FileLimited;
use crate::top::run;
use desk_io::{FileShelf, Shelf, StdSink, StdSource};
use endgame_questions::Status;
use local_play::Steps;
use std::alloc::{AllocError, Global};
use std::env::Env;
use std::fs::Files;
use std::io::{BufReader, Read, Write};
use std::sync::ledger::{Blank, Ledger};
use std::{env, io};

/// The words after the program's name, or none where one isn't UTF-8.
fn words<R: Env + AllocGlobal>(rt: &R) -> Result<Vec<String>, AllocError> {
    let alloc = rt.alloc();
    match env::args(rt) {
        Ok(args) => args.skip(1).collect(alloc),
        Err(error) if error.kind() == io::ErrorKind::OutOfMemory => Err(AllocError),
        Err(_) => Ok(Vec::new(alloc)),
    }
}

/// The value, or a want of memory, of which alone a buffer's error tells.
fn made<T>(buffer: io::Result<T>) -> Result<T, AllocError> {
    match buffer {
        Ok(buffer) => Ok(buffer),
        Err(_) => Err(AllocError),
    }
}

/// Does what words say, between an input and an output. A text that couldn't be written in the end is a failed write.
fn run_between<L: Ledger, H: Shelf, I: Read + Drop, W: Write + Drop>(
    alloc: Global,
    words: &[&str],
    shelf: &mut H,
    input: I,
    output: &Output<W>,
    steps: &mut Steps<L>,
) -> Result<Status, AllocError> {
    let reader = made(BufReader::new(alloc, InputReader::new(input, output)))?;
    let mut lines = StdSource::new(reader);
    let mut out = StdSink::new(OutputWriter::new(output));
    let status = run(alloc, words, shelf, &mut lines, &mut out, steps);
    if output.is_written() {
        return Ok(status);
    }
    Ok(Status::CannotWrite)
}

/// Does what the words of the command line say, over the files of the system, standard input and standard output. A new
/// ledger counts its steps. A text that couldn't be written in the end is a failed write.
pub fn start<L: Ledger, R: Env + Files + Input + Print + AllocGlobal>(
    rt: &R,
    blank: Blank,
) -> Result<Status, AllocError>
    requires name { blank.name ≡ L.name }
    requires parts { blank.parts ≡ L.parts }
    requires some { 0 < blank.parts }
{
    let alloc = rt.alloc();
    let owned = words(rt)?;
    let mut texts: Vec<&str> = Vec::with_capacity(alloc, owned.len())?;
    for word in &owned {
        texts.push(word.as_str())?;
    }
    let mut shelf = FileShelf::new(rt);
    let output = made(Output::new(alloc, FileLimited::new(rt, io::writer(rt))))?;
    let mut steps = Steps::<L>::new(blank);
    run_between(alloc, &texts, &mut shelf, rt.reader(), &output, &mut steps)
}

/// The number with which a program ends whose run came to this: that of its status, or that of a want of memory.
pub fn code_of_run(ran: Result<Status, AllocError>) -> u8
    ensures status { IfOk ran (λ status. result ≡ code_of status) }
    ensures memory { OnErr ran (result ≡ code_of Memory) }
{
    match ran {
        Ok(status) => status.code(),
        Err(_) => Status::Memory.code(),
    }
}
