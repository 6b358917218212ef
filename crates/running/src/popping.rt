// A callee's arguments on the caller's window against the types that the tables keep of it, by its entry there.
ghost use Rattle.std.specs.Prelude.{◌≡◌, ◌+◌, ◌<◌, ◌≤◌, length};
ghost use Rattle.kit.specs.Scan.{all_of};
ghost use Rattle.reader.specs.TypeCodes.{params_in, results_in};
ghost use Rattle.rules.specs.Ancestry.{lineage};
ghost use Rattle.rules.specs.Sites.{front};
ghost use Rattle.plain.specs.ValueLaws.{value_of};
ghost use Rattle.plain.specs.Windows.{val_at};
ghost use Rattle.plain.specs.Calls.{window_at};
ghost use Rattle.running.specs.Popping.{param_fits, taking_of, Pops, kin_of};

use plain::values::{self, Value};
use reader::types;
use rules::codes;
use rules::types::Kin;

// How many operands are left below the arguments, and how many those are.
#[derive(Clone, Copy)]
pub struct Popped {
    pub left: usize,
    pub count: usize,
}

// The i-th argument above the first `left` operands.
fn one_fits(
    t: &[u8],
    kin: Kin,
    cells: &[u32],
    w: &[u32],
    g: &[u8],
    e: usize,
    left: usize,
    i: usize,
) -> bool
    requires { (left + i < 32) × (length w.now ≡ 64) × (length g.now ≡ 64) × (e < 1024) × (i < length (params_in t.now e)) }
    ensures { result ≡ param_fits (lineage t.now kin.at kin.count) t.now e cells.now w.now g.now left i }
{
    let j = 32 + left + i;
    let v = Value {
        tag: g[j],
        cell: w[j],
    };
    let c = types::param_at(t, e, i);
    let asked = codes::described(c as u8);
    values::value_fits(t, kin, cells, v, values::described(asked))
}

fn fit(
    t: &[u8],
    kin: Kin,
    cells: &[u32],
    w: &[u32],
    g: &[u8],
    e: usize,
    left: usize,
    n: usize,
) -> bool
    requires { (left + n ≤ 32) × (length w.now ≡ 64) × (length g.now ≡ 64) × (e < 1024) × (n ≡ length (params_in t.now e)) }
    ensures { result ≡ all_of (param_fits (lineage t.now kin.at kin.count) t.now e cells.now w.now g.now left) n }
{
    for i in 0..n {
        if !one_fits(t, kin, cells, w, g, e, left, i) {
            return false;
        }
    }
    true
}

// The arguments of the method of entry e, of so many operands, if they are there and fit.
fn pop(
    t: &[u8],
    kin: Kin,
    cells: &[u32],
    w: &[u32],
    g: &[u8],
    e: usize,
    have: usize,
) -> Option<Popped>
    requires { (have ≤ 32) × (length w.now ≡ 64) × (length g.now ≡ 64) × (e < 1024) }
    ensures { Pops t.now kin cells.now w.now g.now e have (taking_of (length (params_in t.now e)) result) }
{
    let n = types::param_count(t, e);
    if have < n {
        return None;
    }
    let left = have - n;
    if !fit(t, kin, cells, w, g, e, left, n) {
        return None;
    }
    Some(Popped { left, count: n })
}

// How many results the method of entry e has.
pub fn result_count(t: &[u8], e: usize) -> usize
    requires { e < 1024 }
    ensures { (result ≡ length (results_in t.now e)) × (result ≤ 1) }
{
    let v = types::result_at(t, e);
    if v == 256 {
        return 0;
    }
    1
}

// On the window at depth d, of n classes.
pub fn pop_at(
    t: &[u8],
    s: &[u32],
    g: &[u8],
    cells: &[u32],
    n: usize,
    d: usize,
    e: usize,
    have: usize,
) -> Option<Popped>
    requires { (have ≤ 32) × (length s.now ≡ 4096) × (length g.now ≡ 4096) × (187008 ≤ length t.now) × (d < 64) × (n ≤ 16) × (e < 1024) }
    ensures { Pops (front t.now) (kin_of n) cells.now (window_at s.now d) (window_at g.now d) e have (taking_of (length (params_in (front t.now) e)) result) }
{
    let a = 64 * d;
    let z = a + 64;
    let kin = Kin {
        at: 25728,
        count: 11 + n,
    };
    pop(&t[0..187008], kin, cells, &s[a..z], &g[a..z], e, have)
}

// Operand i of the window at depth d, from the bottom.
pub fn operand(s: &[u32], g: &[u8], d: usize, i: usize) -> Value
    requires { (length s.now ≡ 4096) × (length g.now ≡ 4096) × (d < 64) × (i < 32) }
    ensures { value_of result.tag result.cell ≡ val_at (window_at s.now d) (window_at g.now d) (32 + i) }
{
    let j = 64 * d + 32 + i;
    Value {
        tag: g[j],
        cell: s[j],
    }
}
