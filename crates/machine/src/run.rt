// A run from the bytes: refusals, the steps, and everything lent as it is left.
ghost use Rattle.std.specs.Prelude.{true, ◌≡◌};
ghost use Rattle.kit.specs.Claims.{pass};
ghost use Rattle.shaping.specs.Phases.{Readied, program_now, shape_by, of_all};
ghost use Rattle.plain.specs.Run.{sizes_ok};
ghost use Rattle.machine.specs.Outcomes.{lent, no_verdict, refusal_number, verdict_in, Sized, Begins, Made, IsEntered, IsRun};

use crate::turns::Ran;
use crate::{dispatch, turns};
use reader::outlet::Answer;
use reader::types;
use running::entry;
use shaping::whole;

// Why nothing is run: what is lent has another size, the bundle has a verdict, the method is no entry, or it takes more or fewer arguments.
#[derive(Clone, Copy)]
pub enum Refused {
    Lent,
    Bundle(Answer),
    Entry,
    Arguments,
}

impl Refused {
    pub fn number(self) -> u32
        ensures { result ≡ refusal_number self }
    {
        match self {
            Refused::Lent => 20,
            Refused::Bundle(_) => 21,
            Refused::Entry => 22,
            Refused::Arguments => 23,
        }
    }

    // The bundle's; else zeros.
    pub fn verdict(self) -> Answer
        ensures { result ≡ verdict_in self }
    {
        match self {
            Refused::Bundle(v) => v,
            _ => no_verdict(),
        }
    }
}

pub type Told = Result<Ran, Refused>;

pub fn no_verdict() -> Answer
    ensures { result ≡ no_verdict }
{
    Answer {
        number: 0,
        class: 0,
        method: 0,
        place: 0,
    }
}

// Whether everything lent has its size.
fn sizes_ok(t: &[u8], cells: &[u32], s: &[u32], g: &[u8], budget: u32) -> bool
    ensures { result ≡ sizes_ok (lent t.now cells.now s.now g.now) budget }
{
    if t.len() < 262144 {
        return false;
    }
    if 16384 < cells.len() {
        return false;
    }
    if s.len() != 4096 {
        return false;
    }
    if g.len() != 4096 {
        return false;
    }
    if 1000000 < budget {
        return false;
    }
    true
}

// The run of an entry: the table, the first call, the steps; slots and tags end all zero.
fn made(
    b: &[u8],
    t: &mut [u8],
    cells: &mut [u32],
    s: &mut [u32],
    g: &mut [u8],
    n: usize,
    i: usize,
    j: usize,
    args: &[u32],
    budget: u32,
) -> Ran
    requires { Begins b.now n t.old cells.old s.old g.old i j args.now }
    ensures { Made (program_now b.now n t.old) cells.old s.old g.old i j args.now budget result cells.new s.new g.new }
{
    dispatch::fill(b, t, n);
    let k = entry::start(b, t, s, g, n, i, j, args);
    let r = turns::run_on(b, t, cells, s, g, n, 0, k, 0, budget);
    s.fill(0);
    g.fill(0);
    r
}

// The entry and its arguments, then the run, of a bundle that has passed phases A to C.
fn entered(
    b: &[u8],
    t: &mut [u8],
    cells: &mut [u32],
    s: &mut [u32],
    g: &mut [u8],
    n: usize,
    i: usize,
    j: usize,
    args: &[u32],
    budget: u32,
) -> Told
    requires { Readied b.now n t.old × (of_all shape_by b.now n t.old ≡ pass) × Sized t.old cells.old s.old g.old }
    ensures { IsEntered (program_now b.now n t.old) (lent t.old cells.old s.old g.old) i j args.now budget result cells.new s.new g.new }
{
    if !entry::is_entry(b, &t[0..187008], n, i, j) {
        return Err(Refused::Entry);
    }
    if args.len() != types::param_count(&t[0..187008], 64 * i + j) {
        return Err(Refused::Arguments);
    }
    Ok(made(b, t, cells, s, g, n, i, j, args, budget))
}

// The bundle, then the same; the scratch ends all zero.
fn judged(
    b: &[u8],
    t: &mut [u8],
    cells: &mut [u32],
    s: &mut [u32],
    g: &mut [u8],
    i: usize,
    j: usize,
    args: &[u32],
    budget: u32,
) -> Told
    requires { sizes_ok (lent t.old cells.old s.old g.old) budget ≡ true }
    ensures { IsRun b.now (lent t.old cells.old s.old g.old) i j args.now budget result (lent t.new cells.new s.new g.new) }
{
    let n = match whole::read_shaped(b, t) {
        Ok(n) => n,
        Err(answer) => {
            kit::clear(t);
            return Err(Refused::Bundle(answer));
        }
    };
    let a = entered(b, t, cells, s, g, n, i, j, args, budget);
    kit::clear(t);
    a
}

// The run of method j of class i; of the heap, its used cells alone change.
pub fn run(
    b: &[u8],
    t: &mut [u8],
    cells: &mut [u32],
    s: &mut [u32],
    g: &mut [u8],
    i: u32,
    j: u32,
    args: &[u32],
    budget: u32,
) -> Told
    ensures { IsRun b.now (lent t.old cells.old s.old g.old) i j args.now budget result (lent t.new cells.new s.new g.new) }
{
    if !sizes_ok(t, cells, s, g, budget) {
        return Err(Refused::Lent);
    }
    judged(b, t, cells, s, g, i as usize, j as usize, args, budget)
}
