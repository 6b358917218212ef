// Calls by their opcodes, with the callee's types read where they stand; the answer is as in `quick`.
ghost use Rattle.std.specs.Prelude.{◌≡◌, true, ◌<◌, ◌≤◌, length, get_or};
ghost use Rattle.reader.specs.TypeCodes.{params_in, result_of};
ghost use Rattle.rules.specs.Types.{tys_of};
ghost use Rattle.rules.specs.Ancestry.{lineage};
ghost use Rattle.rules.specs.Slots.{operands_of, Placed, Roomy};
ghost use Rattle.rules.specs.Sites.{site_code};
ghost use Rattle.verifier.specs.Quick.{Open, Tried};
ghost use Rattle.verifier.specs.QuickCalls.{Fitted, GivesBack, CallsStatic, CallsVirtual};

use crate::callees::entry_of;
use crate::quick::Went;
use crate::quick_names::operand_fits;
use reader::types::{param_at, param_count, result_at};
use rules::codes::described;
use rules::decode;
use rules::frames::Rows;
use rules::site::Site;
use rules::slots::{Held, put, room};
use rules::types::{Kin, Ty};

// The operands from the top down fit entry k's n parameters from the last on.
fn arguments_fit(t: &[u8], kin: Kin, h: Held, k: usize, n: usize) -> bool
    requires { Placed t.now h × (k < 1024) × (n ≡ length (params_in t.now k)) }
    ensures { result ≡ true → Fitted (lineage t.now kin.at kin.count) (operands_of t.now h) (params_in t.now k) n 0 }
{
    for i in 0..n {
        let w = described(param_at(t, k, n - i - 1) as u8);
        if !operand_fits(t, kin, h, i, w) {
            return false;
        }
    }
    true
}

// k operands go; what has the code back comes, nothing where that is 256.
fn give_back(t: &mut [u8], h: Held, most: usize, k: usize, back: usize) -> Option<Went>
    requires { Roomy t.old h × (h.depth ≤ 32) × (k ≤ h.depth) × (back ≤ 256) }
    ensures { GivesBack t.old t.new most h k (tys_of (result_of back)) result }
{
    if back == 256 {
        if room(h, k, 0, most).is_err() {
            return None;
        }
        return Some(Went::On(h.depth - k));
    }
    if room(h, k, 1, most).is_err() {
        return None;
    }
    let g = put(t, h, k, described(back as u8));
    Some(Went::On(g.depth))
}

// ---- By the word w of the method, of n classes of the bundle; its flags are 1 for static, 2 for a constructor.

fn call_static(t: &mut [u8], kin: Kin, h: Held, most: usize, n: usize, w: u32) -> Option<Went>
    requires { Roomy t.old h × (h.depth ≤ 32) × (n ≤ 16) }
    ensures { CallsStatic t.old t.new kin most n h w result }
{
    if w % 8 != 4 {
        return None;
    }
    if w / 524288 % 4 != 1 {
        return None;
    }
    let k = entry_of(t, n, (w / 256 % 32) as usize, (w / 8192 % 64) as usize);
    if 1024 <= k {
        return None;
    }
    let m = param_count(t, k);
    if h.depth < m {
        return None;
    }
    if !arguments_fit(t, kin, h, k, m) {
        return None;
    }
    give_back(t, h, most, m, result_at(t, k))
}

fn call_virtual(t: &mut [u8], kin: Kin, h: Held, most: usize, n: usize, w: u32) -> Option<Went>
    requires { Roomy t.old h × (h.depth ≤ 32) × (n ≤ 16) }
    ensures { CallsVirtual t.old t.new kin most n h w result }
{
    if w % 8 != 4 {
        return None;
    }
    if w / 524288 % 4 != 0 {
        return None;
    }
    let k = entry_of(t, n, (w / 256 % 32) as usize, (w / 8192 % 64) as usize);
    if 1024 <= k {
        return None;
    }
    let m = param_count(t, k);
    if h.depth <= m {
        return None;
    }
    if !arguments_fit(t, kin, h, k, m) {
        return None;
    }
    if !operand_fits(t, kin, h, m, Ty::class((w / 8 % 32) as u16)) {
        return None;
    }
    give_back(t, h, most, m + 1, result_at(t, k))
}

pub fn calls(
    s: &[u8],
    t: &mut [u8],
    x: Site,
    kin: Kin,
    f: Rows,
    h: Held,
    code: &[u8],
    o: u16,
    op: usize,
) -> Option<Went>
    requires { Open s.now t.old x kin f h o × (code.now ≡ site_code s.now x) × (op ≡ get_or code.now o 0) }
    ensures { Tried s.now t.old t.new x f true h o result }
{
    match op {
        0xb6 => call_virtual(
            t,
            kin,
            h,
            x.stack,
            x.classes,
            decode::named_at(t, x.class, code, o as usize),
        ),
        0xb8 => call_static(
            t,
            kin,
            h,
            x.stack,
            x.classes,
            decode::named_at(t, x.class, code, o as usize),
        ),
        _ => None,
    }
}
