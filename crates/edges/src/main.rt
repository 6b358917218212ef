// Runs document 01's examples on a heap of four cells: for each a line of what is run, refusal, end, value, step count and cells used, parted
// by tabs.
#![tactic(auto)]

use inputs::read_file;
use machine::run::{self, Told};
use std::io;
use std::rt::Files;

// The value with its sign.
fn print_told(out: &impl Print, what: &str, r: Told) -> io::Result<()> {
    match r {
        Ok(q) => {
            let end = q.end_number();
            let value = q.value().cast_signed();
            println!(out; "{what}\t0\t{end}\t{value}\t{}\t{}", q.count, q.used)
        }
        Err(e) => println!(out; "{what}\t{}\t0\t0\t0\t0", e.number()),
    }
}

// Method 0 of class 0 of the bundle.
fn run_first(bundle: &[u8], args: &[u32], budget: u32) -> Told {
    let mut scratch = [0u8; 262144];
    let mut cells = [0u32; 4];
    let mut slots = [0u32; 4096];
    let mut tags = [0u8; 4096];
    run::run(
        bundle,
        &mut scratch,
        &mut cells,
        &mut slots,
        &mut tags,
        0,
        0,
        args,
        budget,
    )
}

// What the bundle in a file comes to, or a line of what failed on standard error.
fn show(
    rt: &(impl Files + Print + Eprint),
    path: &str,
    what: &str,
    args: &[u32],
    budget: u32,
) -> io::Result<()> {
    let mut bundle = [0u8; 4096];
    match read_file(rt, path.as_bytes(), &mut bundle) {
        Ok(n) => print_told(rt, what, run_first(&bundle[..n], args, budget)),
        Err(e) => eprintln!(rt; "{path}: {e}"),
    }
}

fn main(rt: HostRuntime) -> io::Result<()> {
    println!(rt; "run\trefusal\tend\tvalue\tcount\tcells")?;
    show(&rt, "ex01", "1()", &[], 1000)?;
    show(&rt, "ex01", "1(), budget 1", &[], 1)?;
    show(&rt, "ex02", "2()", &[], 1000)?;
    show(&rt, "ex03", "3()", &[], 1000)?;
    show(&rt, "ex06", "6()", &[], 1000)?;
    show(&rt, "ex06b", "6(), with the frame", &[], 1000)?;
    show(&rt, "ex07", "7(0)", &[0], 1000)?;
    show(&rt, "ex07", "7(5)", &[5], 1000)?;
    show(&rt, "ex07b", "7(0), without the frame", &[0], 1000)?;
    show(&rt, "ex08", "8()", &[], 1000)?;
    show(&rt, "ex09", "9()", &[], 1000)?;
    show(&rt, "ex10", "10()", &[], 1000)?;
    show(&rt, "ex11", "11(7, -2)", &[7, 4294967294], 1000)?;
    show(
        &rt,
        "ex11",
        "11(-2147483648, -1)",
        &[2147483648, 4294967295],
        1000,
    )?;
    show(&rt, "ex11", "11(1, 0)", &[1, 0], 1000)?;
    show(&rt, "ex01", "1(), budget 1000001", &[], 1000001)?;
    show(&rt, "empty", "no bytes", &[], 1000)?;
    show(&rt, "ex07", "7()", &[], 1000)
}
