// Steps until an end or until the budget is spent.
ghost use Rattle.std.specs.Prelude.{None, ◌≡◌, true, ◌+◌, ◌<◌, ◌≤◌, ◌^◌, length};
ghost use Rattle.classfiles.specs.Limits.{max_heap};
ghost use Rattle.running.specs.Standing.{Standing};
ghost use Rattle.running.specs.Dispatching.{Dispatch};
ghost use Rattle.machine.specs.Onward.{Onward};
ghost use Rattle.machine.specs.Turns.{number_of, value_of, counted, closing, SiteOf, RunsOn};

use plain::frames::Frame;
use rules::site::Site;
use running::ends::{End, Ended};
use running::landing;
use stepping::step;
use stretching::forward;

// What ends a run, none where the budget was spent; the steps made, the cells used.
#[derive(Clone, Copy, Debug, PartialEq, Eq)]
pub struct Ran {
    pub end: Option<End>,
    pub count: u32,
    pub used: u32,
}

impl Ran {
    // The end as a number.
    pub fn end_number(self) -> u32
        ensures { result ≡ number_of self.end }
    {
        let Some(end) = self.end else {
            return 3;
        };
        match end {
            End::Returned(_) => 1,
            End::Uncaught(_) => 2,
            End::HeapFull => 4,
            End::DepthFull => 5,
            End::Stuck => 6,
        }
    }

    // What is returned, or the class that is not caught; else 0.
    pub fn value(self) -> u32
        ensures { result ≡ value_of self.end }
    {
        let Some(end) = self.end else {
            return 0;
        };
        match end {
            End::Returned(v) => v,
            End::Uncaught(c) => c,
            End::HeapFull => 0,
            End::DepthFull => 0,
            End::Stuck => 0,
        }
    }
}

// Whether the step that comes to the end is counted: one that is stopped is not.
fn is_counted(end: End) -> bool
    ensures { result ≡ counted end }
{
    match end {
        End::Returned(_) => true,
        End::Uncaught(_) => true,
        End::HeapFull => false,
        End::DepthFull => false,
        End::Stuck => false,
    }
}

// What a step that does not go on comes to, after `count` others.
fn closed(e: Ended, count: u32) -> Ran
    requires { counted e.end ≡ true → count + 1 < 2 ^ 32 }
    ensures { result ≡ closing e count }
{
    if is_counted(e.end) {
        return Ran {
            end: Some(e.end),
            count: count + 1,
            used: e.used,
        };
    }
    Ran {
        end: Some(e.end),
        count,
        used: e.used,
    }
}

fn out_of_steps(budget: u32, used: u32) -> Ran
    ensures { result ≡ record { end = None; count = budget; used = used } }
{
    Ran {
        end: None,
        count: budget,
        used,
    }
}

// Where a stretch has come to in the call that is running, and how many steps are left.
#[derive(Clone, Copy)]
pub struct Reached {
    pub call: Frame,
    pub used: u32,
    pub left: u32,
}

// The call k at depth d, of the method at x, as far as its instructions stay in its window.
fn onward(
    b: &[u8],
    t: &[u8],
    cells: &mut [u32],
    s: &mut [u32],
    g: &mut [u8],
    n: usize,
    x: Site,
    d: usize,
    k: Frame,
    used: u32,
    left: u32,
) -> Reached
    requires { Standing b.now n t.now s.old g.old d k × (length cells.old ≤ max_heap) × SiteOf b.now n t.now k x }
    ensures { Onward b.now n t.now s.old g.old cells.old d k used left s.new g.new cells.new result }
{
    let q = forward::forward(b, t, cells, s, g, x, d, k, used, left);
    let call = Frame {
        class: k.class,
        method: k.method,
        offset: q.at,
        own: k.own,
        operands: q.operands as u32,
        locals: k.locals,
    };
    Reached {
        call,
        used: q.used,
        left: q.left,
    }
}

// Whether the calls k and j are of one method.
fn same_method(k: Frame, j: Frame) -> bool
    ensures { result ≡ true → (j.class ≡ k.class) × (j.method ≡ k.method) }
{
    if j.class == k.class {
        return j.method == k.method;
    }
    false
}

// At most `budget` steps from the call k at depth d on, whose method stands at x.
fn run_from(
    b: &[u8],
    t: &mut [u8],
    cells: &mut [u32],
    s: &mut [u32],
    g: &mut [u8],
    n: usize,
    x: Site,
    d: usize,
    k: Frame,
    from: u32,
    budget: u32,
) -> Ran
    requires { Standing b.now n t.old s.old g.old d k × Dispatch b.now n t.old × (length cells.old ≤ max_heap) × SiteOf b.now n t.old k x }
    ensures { RunsOn b.now n t.old s.old g.old cells.old d k from budget cells.new result }
{
    let mut left = budget;
    let mut depth = d;
    let mut call = k;
    let mut used = from;
    let mut site = x;
    // A turn spends as many steps as its stretch makes.
    while 0 < left {
        let p = onward(b, t, cells, s, g, n, site, depth, call, used, left);
        let here = p.call;
        if p.left == 0 {
            return out_of_steps(budget, p.used);
        }
        let m = match step::step_at(b, t, cells, s, g, n, site, depth, here, p.used) {
            Ok(m) => m,
            Err(e) => return closed(e, budget - p.left),
        };
        let next = m.call;
        if !same_method(here, next) {
            site = landing::site_of(b, t, n, next);
        }
        depth = m.depth;
        call = next;
        used = m.used;
        left = p.left - 1;
    }
    out_of_steps(budget, used)
}

// At most `budget` steps from the call k at depth d on.
pub fn run_on(
    b: &[u8],
    t: &mut [u8],
    cells: &mut [u32],
    s: &mut [u32],
    g: &mut [u8],
    n: usize,
    d: usize,
    k: Frame,
    from: u32,
    budget: u32,
) -> Ran
    requires { Standing b.now n t.old s.old g.old d k × Dispatch b.now n t.old × (length cells.old ≤ max_heap) }
    ensures { RunsOn b.now n t.old s.old g.old cells.old d k from budget cells.new result }
{
    let x = landing::site_of(b, t, n, k);
    run_from(b, t, cells, s, g, n, x, d, k, from, budget)
}
