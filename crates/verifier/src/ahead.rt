// What lies ahead of the walk, so that neither a frame nor a handler is looked for where there is none.
ghost use Rattle.std.specs.Prelude.{◌≡◌, cond, ◌+◌, ◌*◌, ◌^◌, ◌<◌, ◌≤◌, ltb};
ghost use Rattle.rules.specs.FrameRows.{Laid};
ghost use Rattle.rules.specs.Sites.{Bounded};
ghost use Rattle.verifier.specs.Ahead.{Quiet, Nearer, Edge, Alike, Level, Stands, Beyond, Scouted};

use rules::frames::Rows;
use rules::site::Site;
use texts::items::u2_at;

// The row of the next frame, the offset up to which no table entry covers, and whether no frame stands here; then the offset up to which
// no frame stands and every entry covers what it does here, and whether that is nothing.
#[derive(Clone, Copy)]
pub struct Ahead {
    pub row: usize,
    pub quiet: usize,
    pub clear: bool,
    pub till: usize,
    pub loose: bool,
}

// The start of the entry at q, where that is before r and the entry ends behind o; r otherwise.
fn nearer(s: &[u8], q: usize, o: usize, r: usize) -> usize
    requires { q ≤ 2 ^ 63 + 256 }
    ensures { Nearer s.now q o r result }
{
    if u2_at(s, q + 2) <= o {
        return r;
    }
    r.min(u2_at(s, q))
}

// The first offset from o on that a table entry covers, or `end`.
fn quiet_from(s: &[u8], x: Site, o: usize, end: usize) -> usize
    requires { (x.table ≤ 2 ^ 63) × (x.entries ≤ 32) }
    ensures { Quiet s.now x o result }
{
    let mut r = end;
    for k in 0..x.entries {
        r = nearer(s, x.table + 8 * k, o, r);
    }
    r
}

fn still_quiet(s: &[u8], x: Site, o: usize, end: usize, quiet: usize) -> usize
    requires { Quiet s.now x o quiet × (x.table ≤ 2 ^ 63) × (x.entries ≤ 32) }
    ensures { Quiet s.now x o result }
{
    if o < quiet {
        return quiet;
    }
    quiet_from(s, x, o, end)
}

// The next of the two bounds of the entry at q that stands behind o, where that is before r; r otherwise.
fn edge(s: &[u8], q: usize, o: usize, r: usize) -> usize
    requires { q ≤ 2 ^ 63 + 256 }
    ensures { Edge s.now q o r result }
{
    let a = u2_at(s, q);
    if o < a {
        return r.min(a);
    }
    let b = u2_at(s, q + 2);
    if o < b {
        return r.min(b);
    }
    r
}

// Up to where every table entry covers what it does at o.
fn alike_from(s: &[u8], x: Site, o: usize, end: usize) -> usize
    requires { (x.table ≤ 2 ^ 63) × (x.entries ≤ 32) }
    ensures { Alike s.now x o result }
{
    let mut r = end;
    for k in 0..x.entries {
        r = edge(s, x.table + 8 * k, o, r);
    }
    r
}

fn still_alike(s: &[u8], x: Site, o: usize, end: usize, quiet: usize) -> usize
    requires { Quiet s.now x o quiet × (x.table ≤ 2 ^ 63) × (x.entries ≤ 32) }
    ensures { Level s.now x o (ltb o quiet) result }
{
    if o < quiet {
        return quiet;
    }
    alike_from(s, x, o, end)
}

// Where the frame of a row stands; `end` behind the last one.
fn frame_at(t: &[u8], f: Rows, row: usize, end: usize) -> usize
    requires { Laid t.now f }
    ensures { Stands t.now f row end result }
{
    if f.count <= row {
        return end;
    }
    kit::word(t, f.at + 68 * row + 64) as usize
}

fn past(row: usize, clear: bool) -> usize
    requires { row < 2 ^ 32 }
    ensures { result ≡ row + cond clear 0 1 }
{
    if clear {
        return row;
    }
    row + 1
}

// From o, with the rows below this one behind it.
pub fn scout(
    s: &[u8],
    t: &[u8],
    x: Site,
    f: Rows,
    o: usize,
    end: usize,
    row: usize,
    quiet: usize,
) -> Ahead
    requires { Bounded s.now x × Laid t.now f × Beyond t.now f row o × Quiet s.now x o quiet × (o < end) × (f.at + 68 * f.count + 68 ≤ 65184) }
    ensures { Scouted s.now t.now x f o result }
{
    let clear = o < frame_at(t, f, row, end);
    let beyond = past(row, clear);
    let hushed = still_quiet(s, x, o, end, quiet);
    let level = still_alike(s, x, o, end, hushed);
    let till = level.min(frame_at(t, f, beyond, end));
    Ahead {
        row: beyond,
        quiet: hushed,
        clear,
        till,
        loose: o < hushed,
    }
}
