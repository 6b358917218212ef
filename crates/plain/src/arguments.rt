// A callee's arguments: what stands on the caller's window against the types' words.
ghost use Rattle.std.specs.Prelude.{◌≡◌, ◌+◌, ◌<◌, ◌≤◌, length};
ghost use Rattle.kit.specs.Scan.{all_of};
ghost use Rattle.rules.specs.Ancestry.{lineage};
ghost use Rattle.plain.specs.Arguments.{arg_fits};

use crate::values::{self, Value};
use rules::types::{Kin, Ty};

// The i-th of those above the first `left` operands; its type is in the i-th word from `of` on.
fn one_fits(
    t: &[u8],
    kin: Kin,
    cells: &[u32],
    w: &[u32],
    g: &[u8],
    of: u32,
    left: usize,
    i: usize,
) -> bool
    requires { (left + i < 32) × (length w.now ≡ 64) × (length g.now ≡ 64) }
    ensures { result ≡ arg_fits (lineage t.now kin.at kin.count) t.now of cells.now w.now g.now left i }
{
    let j = 32 + left + i;
    let v = Value {
        tag: g[j],
        cell: w[j],
    };
    let asked = Ty {
        word: kit::word(t, of as usize + i),
    };
    values::value_fits(t, kin, cells, v, values::described(asked))
}

pub fn fit(
    t: &[u8],
    kin: Kin,
    cells: &[u32],
    w: &[u32],
    g: &[u8],
    of: u32,
    left: usize,
    n: usize,
) -> bool
    requires { (left + n ≤ 32) × (length w.now ≡ 64) × (length g.now ≡ 64) }
    ensures { result ≡ all_of (arg_fits (lineage t.now kin.at kin.count) t.now of cells.now w.now g.now left) n }
{
    for i in 0..n {
        if !one_fits(t, kin, cells, w, g, of, left, i) {
            return false;
        }
    }
    true
}
