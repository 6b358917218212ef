// The calls: a window of 64 slots and tags for each depth, and a record of six words for each call that waits.
ghost use Rattle.std.specs.Prelude.{◌≡◌, ◌+◌, ◌*◌, ◌/◌, ◌<◌, ◌≤◌, length};
ghost use Rattle.plain.specs.Calls.{frame_at};
ghost use Rattle.plain.specs.NextWindow.{Carried, Wiped, Fresh};

// A call without its values: class and method, offset, a constructor's receiver or 0, and how many operands and locals it has.
#[derive(Clone, Copy)]
pub struct Frame {
    pub class: u32,
    pub method: u32,
    pub offset: u32,
    pub own: u32,
    pub operands: u32,
    pub locals: u32,
}

// The record of the call at depth d, in the words from a on.
pub fn saved(t: &[u8], a: usize, d: usize) -> Frame
    requires { (d < 64) × (a + 6 * d + 6 ≤ length t.now / 4) }
    ensures { result ≡ frame_at t.now a d }
{
    let b = a + 6 * d;
    Frame {
        class: kit::word(t, b),
        method: kit::word(t, b + 1),
        offset: kit::word(t, b + 2),
        own: kit::word(t, b + 3),
        operands: kit::word(t, b + 4),
        locals: kit::word(t, b + 5),
    }
}

// n slots with their tags, once more from `to` on.
fn carry(s: &mut [u32], g: &mut [u8], from: usize, to: usize, n: usize)
    requires { (from + n ≤ to) × (to + n ≤ length s.old) × (to + n ≤ length g.old) }
    ensures { Carried s.old s.new from to n × Carried g.old g.new from to n }
{
    for i in 0..n {
        s[to + i] = s[from + i];
        g[to + i] = g[from + i];
    }
}

// n empty slots from `to` on.
fn wipe(s: &mut [u32], g: &mut [u8], to: usize, n: usize)
    requires { (to + n ≤ length s.old) × (to + n ≤ length g.old) }
    ensures { Wiped s.old s.new to n × Wiped g.old g.new to n }
{
    s[to..to + n].fill(0);
    g[to..to + n].fill(0);
}

// The next window's m locals: the n operands above the first `left` of depth d, then empty ones.
pub fn next_window(s: &mut [u32], g: &mut [u8], d: usize, left: usize, n: usize, m: usize)
    requires { (left + n ≤ 32) × (n ≤ m) × (m ≤ 32) × (64 * d + 128 ≤ length s.old) × (64 * d + 128 ≤ length g.old) }
    ensures { Fresh s.old s.new d left n m × Fresh g.old g.new d left n m }
{
    let b = 64 * d;
    carry(s, g, b + 32 + left, b + 64, n);
    wipe(s, g, b + 64 + n, m - n);
}
