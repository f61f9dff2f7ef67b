// Files by their names, the three ends that a program starts with, its words, and whether somebody watches.
ghost use Rattle.std.specs.Prelude.{◌≤◌, length, IfSome};
ghost use Rattle.std.specs.Io.{ReadsAtMost, WritesAtMost};

use crate::bytes;
use std::fs::{File, OpenOptions};
use std::io;
use std::io::{IsTerminal, Read, Write};
use std::os::fd::AsFd;
use std::rt::{Env, Files, Stderr, Stdin, Stdout};
use std::str::from_utf8;

// What a program starts with: standard input, standard output and standard error.
#[derive(Clone, Copy)]
pub struct Ends {
    pub input: Stdin,
    pub output: Stdout,
    pub errors: Stderr,
}

// What is read: standard input, or a file.
#[derive(Drop)]
pub enum Source {
    Input(Stdin),
    File(File),
}

// What is written: standard output, standard error, or a file; of a file that can't be opened nothing can be written.
// `Shut` and no error at once: such a file is told at its first write.
#[derive(Drop)]
pub enum Target {
    Output(Stdout),
    Errors(Stderr),
    File(File),
    Shut,
}

fn read_by<R: Read + Copy>(from: R, buf: &mut [u8]) -> io::Result<usize>
    ensures { ReadsAtMost result buf.new }
{
    let mut from = from;
    from.read(buf)
}

fn read_source(from: &Source, buf: &mut [u8]) -> io::Result<usize>
    ensures { ReadsAtMost result buf.new }
{
    match from {
        Source::Input(input) => read_by(*input, buf),
        Source::File(file) => read_by(file, buf),
    }
}

fn write_by<W: Write + Copy>(to: W, bytes: &[u8]) -> io::Result<usize>
    ensures { WritesAtMost result bytes.now }
{
    let mut to = to;
    to.write(bytes)
}

fn write_target(to: &Target, bytes: &[u8]) -> io::Result<usize>
    ensures { WritesAtMost result bytes.now }
{
    match to {
        Target::Output(output) => write_by(*output, bytes),
        Target::Errors(errors) => write_by(*errors, bytes),
        Target::File(file) => write_by(file, bytes),
        Target::Shut => Err(io::Error::from(io::ErrorKind::NotFound)),
    }
}

impl Read for &Source {
    fn read(&mut self, buf: &mut [u8]) -> io::Result<usize> {
        read_source(*self, buf)
    }
}

impl Write for &Target {
    fn write(&mut self, bytes: &[u8]) -> io::Result<usize> {
        write_target(*self, bytes)
    }

    // Nothing waits to be written.
    fn flush(&mut self) -> io::Result<()> {
        Ok(())
    }
}

// Reads until a buffer is full, the input ends or it can't be read: how many bytes stand at the buffer's front.
pub fn read_full(from: &Source, buf: &mut [u8]) -> usize
    ensures { result ≤ length buf.new }
{
    let mut source = from;
    bytes::read_full(&mut source, buf)
}

// Writes all of some bytes; an error where they can't be written whole.
pub fn write_all(to: &Target, text: &[u8]) -> io::Result<()> {
    let mut target = to;
    bytes::write_all(&mut target, text)
}

// Writes a number's decimal digits; an error where they can't be written whole.
pub fn print_decimal(to: &Target, n: u64) -> io::Result<()> {
    let mut target = to;
    bytes::print_decimal(&mut target, n)
}

// A file by its name, opened so; none where it can't be opened, or where its name is no text.
fn by_name<R: Files<File = File>>(rt: &R, how: &OpenOptions, name: &[u8]) -> Option<File> {
    how.open(rt, from_utf8(name).ok()?).ok()
}

// Whether a name is '-', which stands for what is open already.
fn is_dash(name: &[u8]) -> bool {
    name == b"-".as_slice()
}

// A file to read: standard input for '-'.
pub fn open_in<R: Files<File = File>>(rt: &R, ends: Ends, name: &[u8]) -> Option<Source> {
    if is_dash(name) {
        return Some(Source::Input(ends.input));
    }
    let mut how = OpenOptions::new();
    how.read(true);
    Some(Source::File(by_name(rt, &how, name)?))
}

// A file to write, emptied or made: standard output for '-'.
pub fn open_out<R: Files<File = File>>(rt: &R, ends: Ends, name: &[u8]) -> Target {
    if is_dash(name) {
        return Target::Output(ends.output);
    }
    let mut how = OpenOptions::new();
    how.write(true).create(true).truncate(true);
    match by_name(rt, &how, name) {
        Some(file) => Target::File(file),
        None => Target::Shut,
    }
}

// Where the answer goes: standard output; descriptor 3 where '-', the name of what is written, has standard output, and standard error where that is not open.
pub fn answers<R: Files<File = File>>(rt: &R, ends: Ends, out: &[u8]) -> Target {
    if !is_dash(out) {
        return Target::Output(ends.output);
    }
    let mut how = OpenOptions::new();
    how.append(true);
    match by_name(rt, &how, b"/dev/fd/3") {
        Some(file) => Target::File(file),
        None => Target::Errors(ends.errors),
    }
}

// Brings all that was written to a regular file to its disk; what is none has no disk.
fn keep_file(file: &File) -> io::Result<()> {
    if file.metadata()?.is_file() {
        file.sync_data()?;
    }
    Ok(())
}

// Brings all that was written to where it is kept: a regular file's to its disk.
pub fn keep(to: &Target) -> io::Result<()> {
    match to {
        Target::Output(_) | Target::Errors(_) => Ok(()),
        Target::File(file) => keep_file(file),
        Target::Shut => Err(io::Error::from(io::ErrorKind::NotFound)),
    }
}

// Word k that the program was started with, at the front of a buffer; none where there is none, it is empty or it does not fit.
pub fn word<'b, R: Env>(rt: &R, k: usize, buf: &'b mut [u8]) -> Option<&'b [u8]>
    ensures { IfSome result (λ w. length w.now ≤ length buf.old) }
{
    let n = rt.arg(k, buf).ok()?;
    if n == 0 {
        return None;
    }
    Some(&buf[..n])
}

// Whether standard error is a terminal.
pub fn is_watched(ends: Ends) -> bool {
    ends.errors.as_fd().is_terminal()
}
