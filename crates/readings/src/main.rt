// Reads the bundles that its arguments name: for each a line of its name and its verdict's four numbers, parted by tabs.
#![tactic(auto)]

use inputs::{argument, read_file};
use reader::outlet::{self, Answer};
use std::io;
use std::rt::{Env, Files};

fn report(out: &impl Print, path: &[u8], bundle: &[u8], scratch: &mut [u8]) -> io::Result<()> {
    let Answer {
        number,
        class,
        method,
        place,
    } = outlet::judge(bundle, scratch);
    out.write_all(path)?;
    println!(out; "\t{number}\t{class}\t{method}\t{place}")
}

// A line of what failed: the file's name, a colon and the error.
fn complain(errors: &impl Print, path: &[u8], e: io::Error) -> io::Result<()> {
    errors.write_all(path)?;
    println!(errors; ": {e}")
}

fn read_one(
    rt: &(impl Files + Print),
    errors: &impl Print,
    path: &[u8],
    bundle: &mut [u8],
    scratch: &mut [u8],
) -> io::Result<()> {
    match read_file(rt, path, bundle) {
        Ok(n) => report(rt, path, &bundle[..n], scratch),
        Err(e) => complain(errors, path, e),
    }
}

fn read_all(
    rt: &(impl Env + Files + Print),
    errors: &impl Print,
    bundle: &mut [u8],
    scratch: &mut [u8],
) -> io::Result<()> {
    let mut path = [0u8; 4096];
    for i in 1..usize::MAX {
        let Some(n) = argument(rt, i, &mut path) else {
            break;
        };
        read_one(rt, errors, &path[..n], bundle, scratch)?;
    }
    Ok(())
}

// A byte more than a bundle may have, so that a longer one is seen as such.
fn main(rt: HostRuntime) -> io::Result<()> {
    let mut bundle = [0u8; 65537];
    let mut scratch = [0u8; 262144];
    read_all(&rt, &rt.stderr(), &mut bundle, &mut scratch)
}
