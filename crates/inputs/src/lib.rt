// What the programs take from outside: arguments, files and streams; and a line of what failed.
#![tactic(auto)]

ghost use Rattle.std.specs.Prelude.{◌≤◌, length, IfOk, IfSome, IsOk, IsUtf8};

use std::env::FillError;
use std::io::Read;
use std::rt::{Env, Files};
use std::{fs, io};

#[cfg(test)]
mod tests;

// Reads until the buffer is full or the input ends. By `while`, since a step is as long as what was read.
pub fn read_full(input: &mut impl Read, buf: &mut [u8]) -> io::Result<usize>
    ensures { IfOk result (λ n. n ≤ length buf.new) }
{
    let mut done = 0;
    while done < buf.len() {
        let n = input.read(&mut buf[done..])?;
        if n == 0 {
            break;
        }
        done += n;
    }
    Ok(done)
}

// A name that is not UTF-8 opens no file, since paths are text.
pub fn open<R: Files>(files: &R, path: &[u8]) -> io::Result<R::File>
    ensures { IsOk result → IsUtf8 path.now }
{
    match str::from_utf8(path) {
        Ok(name) => fs::open(files, name),
        Err(_) => Err(io::Error::from(io::ErrorKind::InvalidFilename)),
    }
}

// How much of the file stands in the buffer.
pub fn read_file(files: &impl Files, path: &[u8], buf: &mut [u8]) -> io::Result<usize>
    ensures { IfOk result (λ n. n ≤ length buf.new) }
{
    let mut file = open(files, path)?;
    read_full(&mut file, buf)
}

// How long the argument is. One that is too long for a path counts as an empty name, which opens no file.
pub fn argument(env: &impl Env, i: usize, path: &mut [u8]) -> Option<usize>
    ensures { IfSome result (λ n. n ≤ length path.new) }
{
    match env.arg(i, path) {
        Ok(n) => Some(n),
        Err(FillError::TooLong) => Some(0),
        Err(FillError::NotPresent) => None,
    }
}

// A line of what failed: the file's name, a colon and the error.
pub fn complain(errors: &impl Print, path: &[u8], e: io::Error) -> io::Result<()> {
    errors.write_all(path)?;
    println!(errors; ": {e}")
}
