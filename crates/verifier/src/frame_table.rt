// The frame table read: a row of words a frame, from word 46,752 on.
ghost use Rattle.std.specs.Prelude.{◌≡◌, cond, ◌++◌, ◌+◌, ◌*◌, ◌<◌, ◌≤◌, ◌/◌, length};
ghost use Rattle.reader.specs.TypeCodes.{params_in};
ghost use Rattle.rules.specs.Types.{self};
ghost use Rattle.rules.specs.States.{no_copy, parameter_tys};
ghost use Rattle.rules.specs.Slots.{locals_at};
ghost use Rattle.verifier.specs.FrameReading.{Readable};
ghost use Rattle.verifier.specs.Drawing.{list_in, stack_in};
ghost use Rattle.rules.specs.Sites.{front, method_at};
ghost use Rattle.verifier.specs.Starts.{start_tys};
ghost use Rattle.verifier.specs.RowWrites.{Brought, Topped, SlotsPut, RowPut};
ghost use Rattle.verifier.specs.FrameTable.{listing, frames_by, table_by, Listed, FramesRead};

use crate::frame_forms::frame;
use crate::start::start;
use reader::types;
use rules::frames::Rows;
use rules::site::Site;
use rules::types::Ty;
use texts::faults::{Fault, Got, Refusal};
use texts::items;

// ---- A row.

// No uninitThis among the n words from a on.
fn no_self(t: &[u8], a: usize, n: usize) -> bool
    requires { a + n ≤ length t.now / 4 }
    ensures { result ≡ no_copy self (locals_at t.now a n) }
{
    for i in 0..n {
        let v = Ty {
            word: kit::word(t, a + i),
        };
        if v.is_uninit(Ty::uninit_this()) {
            return false;
        }
    }
    true
}

// The flag's word of n locals and m operands at hand: 1 where uninitThis is one of them.
fn flag_word(t: &[u8], n: usize, m: usize) -> u32
    requires { (n ≤ 32) × (m ≤ 32) × (65288 ≤ length t.now / 4) }
    ensures { result ≡ cond (no_copy self (list_in t.now n ++ stack_in t.now m)) 0 1 }
{
    if no_self(t, 65184, n) {
        if no_self(t, 65216, m) {
            return 0;
        }
        return 1;
    }
    1
}

// The n words from a on come to stand from b on, which is before them.
fn bring(t: &mut [u8], a: usize, b: usize, n: usize)
    requires { (b + n ≤ a) × (a + n ≤ length t.old / 4) }
    ensures { Brought a b n t.old t.new }
{
    for i in 0..n {
        let w = kit::word(t, a + i);
        kit::put_word(t, b + i, w);
    }
}

// The n words from a on become top.
fn pad(t: &mut [u8], a: usize, n: usize)
    requires { a + n ≤ length t.old / 4 }
    ensures { Topped a n t.old t.new }
{
    for i in 0..n {
        kit::put_word(t, a + i, Ty::TOP);
    }
}

// The n locals and m operands at hand come to stand in the row at a, with z locals in all.
fn put_slots(t: &mut [u8], a: usize, z: usize, n: usize, m: usize)
    requires { (n ≤ z) × (z ≤ 32) × (m ≤ 32) × (a + 68 ≤ 65184) × (65288 ≤ length t.old / 4) }
    ensures { SlotsPut t.old a z n m t.new }
{
    bring(t, 65184, a, n);
    pad(t, a + n, z - n);
    bring(t, 65216, a + 32, m);
}

// The frame at hand becomes the row at a, for the offset o.
fn put_row(t: &mut [u8], a: usize, z: usize, n: usize, m: usize, o: usize)
    requires { (n ≤ z) × (z ≤ 32) × (m ≤ 32) × (o < 65536) × (a + 68 ≤ 65184) × (65288 ≤ length t.old / 4) }
    ensures { RowPut t.old a z n m o t.new }
{
    let g = flag_word(t, n, m);
    put_slots(t, a, z, n, m);
    kit::put_word(t, a + 64, o as u32);
    kit::put_word(t, a + 65, m as u32);
    kit::put_word(t, a + 66, g);
}

// ---- The table.

fn listed(n: usize, z: usize, e: usize) -> Got<Rows>
    ensures { result ≡ listing n z e }
{
    let val = Rows {
        at: 46752,
        count: n,
        locals: z,
    };
    Got { val, at: e }
}

// n frames from q on, the first with m locals at hand before it; nothing may follow them.
fn over_frames(
    s: &[u8],
    t: &mut [u8],
    x: Site,
    f: &[u8],
    n: usize,
    m: usize,
    q: usize,
) -> Result<Got<Rows>, Fault>
    requires { Readable s.now t.old x × (n ≤ 256) × (m ≤ x.locals) }
    ensures { Listed s.now t.old x (frames_by s.now t.old x f.now n m q) result t.new }
{
    let mut from = 0;
    let mut locals = m;
    let mut at = q;
    for k in 0..n {
        let r = frame(s, t, x, f, k, from, locals, at)?;
        let g = r.val;
        let o = from + g.delta;
        put_row(t, 46752 + 68 * k, x.locals, g.locals, g.stack, o);
        from = o + 1;
        locals = g.locals;
        at = r.at;
    }
    if at == f.len() {
        return Ok(listed(n, x.locals, at));
    }
    Err(Fault(Refusal::FrameTable, n))
}

// How many locals are given at the start.
fn given(t: &[u8], x: Site) -> usize
    requires { (x.class < 16) × (x.method < 64) }
    ensures { result ≡ length (start_tys t.now x) }
{
    let n = types::param_count(t, 64 * x.class + x.method);
    if x.fixed {
        return n;
    }
    n + 1
}

// The table f of the method at x: a count, then frames.
fn table(s: &[u8], t: &mut [u8], x: Site, f: &[u8]) -> Result<Got<Rows>, Fault>
    requires { Readable s.now t.old x × (length (parameter_tys (method_at s.now (front t.old) x)) ≤ x.locals) × (length (params_in t.old (64 * x.class + x.method)) ≤ 16) }
    ensures { Listed s.now t.old x (table_by s.now t.old x f.now) result t.new }
{
    let c = items::num2(f, f.len(), Fault(Refusal::FrameTable, 0), 0)?;
    if 256 < c.val {
        return Err(Fault(Refusal::FrameTable, 0));
    }
    let m = given(t, x);
    start(t, x);
    over_frames(s, t, x, f, c.val, m, c.at)
}

// The frames of the method at x, in rows, and the position past the table; none where it has no table.
pub fn frames(s: &[u8], t: &mut [u8], x: Site) -> Result<Got<Rows>, Fault>
    requires { Readable s.now t.old x × (length (parameter_tys (method_at s.now (front t.old) x)) ≤ x.locals) × (length (params_in t.old (64 * x.class + x.method)) ≤ 16) }
    ensures { FramesRead s.now t.old x result t.new }
{
    if x.tables != 1 {
        return Ok(listed(0, x.locals, 0));
    }
    let from = x.frames;
    let to = x.last;
    let f = &s[from..to];
    table(s, t, x, f)
}
