// The bytes of an image as a program reads them, and its text as it writes it. §11.5: what can't be read gives a message on standard error
// and no text, and the exit status is 0 all the same.
ghost use Rattle.std.specs.Prelude.{◌≡◌};
ghost use Rattle.image.specs.Input.{Fills};

use std::env::{Env, FillError};
use std::fs::File;
use std::io::{Error, ErrorKind, Read, Result};

// One byte more than the longest image, so that a longer one is seen to be too long.
pub const MOST: usize = crate::IMAGE + 1;

fn complain(rt: &HostRuntime, name: &[u8], fault: &[u8]) {
    let error = rt.stderr();
    let _ = error.write_all(name);
    let _ = error.write_all(fault);
}

// Reads until the buffer is full or the input ends. A loop, since std counts what it reads to the end only into a Vec, and there is no heap.
fn read_input<R: Read>(from: &mut R, buffer: &mut [u8]) -> Result<usize>
    ensures { Fills result buffer.new }
{
    let mut n: usize = 0;
    while n < buffer.len() {
        let more = from.read(&mut buffer[n..])?;
        if more == 0 {
            return Ok(n);
        }
        n += more;
    }
    Ok(n)
}

// The library takes a path as text: a name that isn't UTF-8 can't be opened, and so can't be read (§11.5).
fn open(rt: &HostRuntime, path: &[u8]) -> Result<File> {
    match str::from_utf8(path) {
        Ok(text) => File::open(rt, text),
        Err(_) => Err(Error::from(ErrorKind::InvalidInput)),
    }
}

fn read_path(rt: &HostRuntime, path: &[u8], buffer: &mut [u8]) -> Result<usize>
    ensures { Fills result buffer.new }
{
    let mut file = open(rt, path)?;
    read_input(&mut file, buffer)
}

// What was read from the input of this name, after a message where it can't be.
fn told(rt: &HostRuntime, name: &[u8], read: Result<usize>) -> Result<usize>
    ensures { result ≡ read }
{
    if read.is_err() {
        complain(rt, name, b": cannot be read\n");
    }
    read
}

// §11.1: the file that the first argument names, or standard input without one. A name that has no room is taken for the empty one, which
// names no file.
pub fn read_image(rt: &HostRuntime, buffer: &mut [u8]) -> Result<usize>
    ensures { Fills result buffer.new }
{
    let mut path = io::buffer();
    match rt.arg(1, &mut path) {
        Ok(n) => told(rt, &path[..n], read_path(rt, &path[..n], buffer)),
        Err(FillError::TooLong) => told(rt, b"", read_path(rt, b"", buffer)),
        Err(FillError::NotPresent) => told(
            rt,
            b"standard input",
            read_input(&mut rt.stdin(), buffer),
        ),
    }
}

pub fn write_text(rt: &HostRuntime, text: &[u8]) {
    if rt.stdout().write_all(text).is_err() {
        complain(rt, b"standard output", b": cannot be written\n");
    }
}
