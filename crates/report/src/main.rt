// Verifies one bundle, the file that its argument names or what stands on standard input: a header, then the verdict's four numbers,
// parted by tabs.
#![tactic(auto)]

use inputs::{argument, open, read_full};
use reader::outlet::Answer;
use std::io;
use std::io::Read;
use std::rt::Files;
use verifier::verify;

fn print_answer(out: &impl Print, a: Answer) -> io::Result<()> {
    let Answer {
        number,
        class,
        method,
        place,
    } = a;
    println!(out; "verdict\tclass\tmethod\tplace")?;
    println!(out; "{number}\t{class}\t{method}\t{place}")
}

// Whether a byte follows those that were read.
fn has_more(input: &mut impl Read) -> io::Result<bool> {
    let mut one = [0u8; 1];
    let n = input.read(&mut one)?;
    Ok(n == 1)
}

// A bundle of more than 65,536 bytes is refused by its size, unread.
fn judge(input: &mut impl Read, bundle: &mut [u8], scratch: &mut [u8]) -> io::Result<Answer> {
    let n = read_full(input, bundle)?;
    if has_more(input)? {
        return Ok(Answer {
            number: 1,
            class: 65535,
            method: 65535,
            place: 0,
        });
    }
    Ok(verify::verify(&bundle[..n], scratch))
}

fn judge_named(
    files: &impl Files,
    path: &[u8],
    bundle: &mut [u8],
    scratch: &mut [u8],
) -> io::Result<Answer> {
    let mut file = open(files, path)?;
    judge(&mut file, bundle, scratch)
}

// A line of what failed: the file's name, a colon and the error.
fn complain(errors: &impl Print, path: &[u8], e: io::Error) -> io::Result<()> {
    errors.write_all(path)?;
    println!(errors; ": {e}")
}

fn main(rt: HostRuntime) -> io::Result<()> {
    let mut path = [0u8; 4096];
    let mut bundle = [0u8; 65536];
    let mut scratch = [0u8; 262144];
    let Some(n) = argument(&rt, 1, &mut path) else {
        let a = judge(&mut rt.stdin(), &mut bundle, &mut scratch)?;
        return print_answer(&rt, a);
    };
    match judge_named(&rt, &path[..n], &mut bundle, &mut scratch) {
        Ok(a) => print_answer(&rt, a),
        Err(e) => complain(&rt.stderr(), &path[..n], e),
    }
}
