// What an instruction's rule needs beside the state, from the tables: the callee's types, what this method returns, the class of a new.
ghost use Rattle.std.specs.Prelude.{◌≡◌, ◌+◌, ◌*◌, ◌<◌, ◌≤◌, ◌/◌, length};
ghost use Rattle.classfiles.specs.Descriptors.{dint};
ghost use Rattle.reader.specs.TypeCodes.{params_in};
ghost use Rattle.rules.specs.TypeWords.{type_of};
ghost use Rattle.rules.specs.Slots.{Roomy};
ghost use Rattle.verifier.specs.Callees.{entry_of, params_of, back_of, Back, Beside, Listed, Ready};
ghost use Rattle.verifier.specs.Preparing.{no_callee, callee_at, made_at, MadeBy, Prepared};

use reader::types;
use rules::calls::{Known, Params};
use rules::codes::described;
use rules::decode;
use rules::instruction::{Callee, Instr};
use rules::site::Site;
use rules::slots::{Held, peek};
use rules::types::Ty;

fn no_callee() -> Callee
    ensures { result ≡ no_callee }
{
    Callee {
        named: 0,
        owner: 0,
        index: 0,
    }
}

// The method that a call names; for any other instruction one with no types.
fn callee_of(i: Instr) -> Callee
    ensures { result ≡ callee_at i }
{
    match i {
        Instr::Simple(_) => no_callee(),
        Instr::Jump(_) => no_callee(),
        Instr::OnLocal(_) => no_callee(),
        Instr::OnStack(_) => no_callee(),
        Instr::Leaving(_) => no_callee(),
        Instr::New(_) => no_callee(),
        Instr::Calling(j) => j.callee(),
        Instr::Illegal => no_callee(),
        Instr::Unresolved => no_callee(),
    }
}

// The number of the entry of method j of class c, of n classes of the bundle; 1024 where it has none.
pub fn entry_of(t: &[u8], n: usize, c: usize, j: usize) -> usize
    requires { n ≤ 16 }
    ensures { (result ≡ entry_of t.now n c j) × (result ≤ 1024) }
{
    if c < 11 {
        return 1024;
    }
    if 11 + n <= c {
        return 1024;
    }
    if 64 <= j {
        return 1024;
    }
    if kit::word(t, 1608 * (c - 11) + 1028) as usize <= j {
        return 1024;
    }
    64 * (c - 11) + j
}

// What comes back from the method of entry k.
fn back_of(t: &[u8], k: usize) -> Option<Ty>
    ensures { Back result (back_of t.now k) }
{
    if 1024 <= k {
        return None;
    }
    let v = types::result_at(t, k);
    if v == 256 {
        return None;
    }
    Some(described(v as u8))
}

fn count_of(t: &[u8], k: usize) -> usize
    ensures { (result ≡ length (params_of t.now k)) × (result < 32) }
{
    if 1024 <= k {
        return 0;
    }
    types::param_count(t, k)
}

// The types of entry k's n parameters, a word each.
fn write_params(t: &mut [u8], k: usize, n: usize)
    requires { (k < 1024) × (n ≡ length (params_in t.old k)) × (n < 32) × (65288 ≤ length t.old / 4) }
    ensures { Beside 65256 t.old t.new × Listed 65256 n (params_in t.old k) dint t.new }
{
    for i in 0..n {
        let v = types::param_at(t, k, i);
        let w = described(v as u8);
        kit::put_word(t, 65256 + i, w.word);
    }
}

fn params_of(t: &mut [u8], k: usize) -> Params
    requires { 65288 ≤ length t.old / 4 }
    ensures { Ready t.old t.new k result }
{
    if 1024 <= k {
        return Params {
            at: 65256,
            count: 0,
        };
    }
    let n = types::param_count(t, k);
    write_params(t, k, n);
    Params {
        at: 65256,
        count: n,
    }
}

// The class that a new names, 0 for any other instruction.
fn new_class(i: Instr) -> u16
    ensures { result ≡ made_at i }
{
    match i {
        Instr::Simple(_) => 0,
        Instr::Jump(_) => 0,
        Instr::OnLocal(_) => 0,
        Instr::OnStack(_) => 0,
        Instr::Leaving(_) => 0,
        Instr::New(c) => c,
        Instr::Calling(_) => 0,
        Instr::Illegal => 0,
        Instr::Unresolved => 0,
    }
}

// The class of the object that the new at w's offset makes.
fn made_by(s: &[u8], t: &[u8], x: Site, w: Ty) -> u16
    requires { (x.start ≤ x.end) × (x.end ≤ length s.now) }
    ensures { MadeBy s.now t.now x (type_of w.word) result }
{
    if w.word % 8 != Ty::UNINIT {
        return 0;
    }
    let from = x.start;
    let to = x.end;
    let code = &s[from..to];
    let i = decode::instruction(s, t, x.class, code, (w.word / 64) as usize);
    new_class(i)
}

// What the rule of the instruction i needs beside the state h; the callee's parameters come to stand behind the state.
pub fn known(s: &[u8], t: &mut [u8], x: Site, h: Held, i: Instr) -> Known
    requires { Roomy t.old h × (h.at + 72 ≤ 65256) × (65288 ≤ length t.old / 4) × (x.classes ≤ 16) × (x.class < 16) × (x.method < 64) × (x.start ≤ x.end) × (x.end ≤ length s.now) }
    ensures { Prepared s.now t.old t.new x h i result }
{
    let m = callee_of(i);
    let k = entry_of(t, x.classes, m.owner as usize, m.index as usize);
    let back = back_of(t, 64 * x.class + x.method);
    let gives = back_of(t, k);
    let w = peek(t, h, count_of(t, k));
    let made = made_by(s, t, x, w);
    let args = params_of(t, k);
    Known {
        back,
        args,
        gives,
        own: (11 + x.class) as u16,
        made,
    }
}
