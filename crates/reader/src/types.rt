// Types as codes of one byte, brackets + 8 * base; a class that is not known has the first number past the classes. What is malformed is int.
ghost use Rattle.std.specs.Prelude.{◌≡◌, true, false, ◌+◌, ◌-◌, ◌*◌, ◌<◌, ◌≤◌, IfOk, length, get_or};
ghost use Rattle.classfiles.specs.Limits.{max_dimensions};
ghost use Rattle.texts.specs.Answers.{res_as};
ghost use Rattle.classfiles.specs.Descriptors.{dint, named_at, base_at, type_at, results_at, field_type_at, class_type_at, known_desc};
ghost use Rattle.classfiles.specs.Blocks.{block_size, classes_in};
ghost use Rattle.reader.specs.BuiltIns.{first_class};
ghost use Rattle.reader.specs.Program.{number_in, class_names, desc_or};
ghost use Rattle.reader.specs.Linked.{parents_at};
ghost use Rattle.reader.specs.TypeCodes.{base_of, nested, desc_of, ref_of, result_of, known_all, types_end, params_in, results_in, number_by, Kept, ParamsKept, Settled, Described};

use crate::link;
use classfiles::descriptors;
use texts::faults::{Fault, Got, Refusal};
use texts::names;

// The class name from q, up to the ; at z: its number.
fn named(s: &[u8], t: &[u8], n: usize, x: &[u8], q: usize, z: usize) -> Result<Got<usize>, Fault>
    requires { (n ≤ 16) × (16 * block_size ≤ length t.now) × (q ≤ z) }
    ensures { (res_as base_of result ≡ named_at (number_in (class_names (classes_in s.now t.now n))) x.now 0 q z) × IfOk result (λ r. r.val < 32) }
{
    if z < x.len() && names::class_name(&x[q..z]) {
        return Ok(Got {
            val: link::number(s, t, n, &x[q..z]),
            at: z + 1,
        });
    }
    Err(Fault(Refusal::Malformed, 0))
}

// I, or L name ; : the base.
fn base(s: &[u8], t: &[u8], n: usize, x: &[u8], q: usize) -> Result<Got<usize>, Fault>
    requires { (n ≤ 16) × (16 * block_size ≤ length t.now) }
    ensures { (res_as base_of result ≡ base_at (number_in (class_names (classes_in s.now t.now n))) x.now 0 q) × IfOk result (λ r. r.val < 32) }
{
    if descriptors::is_at(x, q, 73) {
        return Ok(Got { val: 31, at: q + 1 });
    }
    if descriptors::is_at(x, q, 76) {
        let a = q + 1;
        let z = descriptors::semicolon(x, a);
        return named(s, t, n, x, a, z);
    }
    Err(Fault(Refusal::Malformed, 0))
}

// The base under d brackets.
fn under(b: Got<usize>, d: usize) -> Got<usize>
    requires { (d < 8) × (b.val < 32) }
    ensures { (desc_of result.val ≡ nested d (base_of b.val)) × (result.at ≡ b.at) × (result.val < 256) }
{
    Got {
        val: 8 * b.val + d,
        at: b.at,
    }
}

// At most seven [ and a base: the code.
fn field(s: &[u8], t: &[u8], n: usize, x: &[u8], q: usize) -> Result<Got<usize>, Fault>
    requires { (n ≤ 16) × (16 * block_size ≤ length t.now) }
    ensures { (res_as desc_of result ≡ type_at (number_in (class_names (classes_in s.now t.now n))) x.now 0 max_dimensions q) × IfOk result (λ r. r.val < 256) }
{
    let mut at = q;
    for d in 0..7 {
        if !descriptors::is_at(x, at, 91) {
            return Ok(under(base(s, t, n, x, at)?, d));
        }
        at += 1;
    }
    Ok(under(base(s, t, n, x, at)?, 7))
}

// The code of a field's descriptor.
pub fn field_type(s: &[u8], t: &[u8], n: usize, x: &[u8]) -> usize
    requires { (n ≤ 16) × (16 * block_size ≤ length t.now) }
    ensures { (desc_of result ≡ desc_or (field_type_at (number_in (class_names (classes_in s.now t.now n))) x.now 0)) × (result < 256) }
{
    let Ok(d) = field(s, t, n, x, 0) else {
        return 248;
    };
    if d.at == x.len() {
        return d.val;
    }
    248
}

// What a Class entry names: the code of an array or a class.
pub fn class_type(s: &[u8], t: &[u8], n: usize, x: &[u8]) -> Result<Got<usize>, Fault>
    requires { (n ≤ 16) × (16 * block_size ≤ length t.now) }
    ensures { (res_as ref_of result ≡ class_type_at (number_in (class_names (classes_in s.now t.now n))) x.now 0) × IfOk result (λ r. r.val < 256) }
{
    if descriptors::is_at(x, 0, 91) {
        let d = field(s, t, n, x, 0)?;
        if d.at == x.len() {
            return Ok(d);
        }
        return Err(Fault(Refusal::Malformed, 0));
    }
    if names::class_name(x) {
        return Ok(Got {
            val: 8 * link::number(s, t, n, x),
            at: x.len(),
        });
    }
    Err(Fault(Refusal::Malformed, 0))
}

// Whether its class is one of the n of the bundle or built in.
pub fn is_known(n: usize, code: usize) -> bool
    requires { n ≤ 16 }
    ensures { result ≡ known_desc (first_class + n) (desc_of code) }
{
    let b = code / 8;
    if b == 31 {
        return true;
    }
    b < 11 + n
}

// Types one after the other: how many codes were kept, whether all are known, and the position past them.
#[derive(Clone, Copy)]
pub struct Listed {
    pub known: bool,
    pub count: usize,
    pub at: usize,
}

// One more code behind `count` of them from byte w on, unless sixteen are there.
fn keep(t: &mut [u8], w: usize, count: usize, code: usize) -> usize
    requires { (w + 16 ≤ length t.old) × (count ≤ 16) × (code < 256) }
    ensures { Kept w count code result t.old t.new }
{
    if count < 16 {
        t[w + count] = code as u8;
        return count + 1;
    }
    count
}

// The parameters up to the ) of the descriptor x, kept from byte w on.
fn params(s: &[u8], t: &mut [u8], n: usize, x: &[u8], w: usize) -> Result<Listed, Fault>
    requires { (n ≤ 16) × (parents_at ≤ w) × (w + 16 ≤ length t.old) }
    ensures { ParamsKept (first_class + n) (number_by s.now n t.old) x.now w result t.old t.new }
{
    let mut at = 1;
    let mut count = 0;
    let mut known = true;
    for _i in 0..x.len() {
        if descriptors::is_at(x, at, 41) {
            return Ok(Listed {
                known,
                count,
                at: at + 1,
            });
        }
        let d = field(s, &t[0..102912], n, x, at)?;
        count = keep(t, w, count, d.val);
        known = known && is_known(n, d.val);
        at = d.at;
    }
    Err(Fault(Refusal::Malformed, 0))
}

// V, which is 256, or the code of a result.
fn result(s: &[u8], t: &[u8], n: usize, x: &[u8], q: usize) -> Result<Got<usize>, Fault>
    requires { (n ≤ 16) × (16 * block_size ≤ length t.now) }
    ensures { (res_as result_of result ≡ results_at (number_in (class_names (classes_in s.now t.now n))) x.now 0 q) × IfOk result (λ r. r.val ≤ 256) }
{
    if descriptors::is_at(x, q, 86) {
        return Ok(Got {
            val: 256,
            at: q + 1,
        });
    }
    field(s, t, n, x, q)
}

// How many parameters there are, and the result v, in the entry from byte w on.
fn settle(t: &mut [u8], w: usize, count: usize, v: usize)
    requires { (w + 18 ≤ length t.old) × (count ≤ 16) × (v ≤ 256) }
    ensures { Settled w count v t.old t.new }
{
    if v == 256 {
        t[w] = count as u8;
        return;
    }
    t[w] = (32 + count) as u8;
    t[w + 17] = v as u8;
}

fn is_result_known(n: usize, v: usize) -> bool
    requires { n ≤ 16 }
    ensures { result ≡ known_all (first_class + n) (result_of v) }
{
    if v == 256 {
        return true;
    }
    is_known(n, v)
}

// Writes entry k of the methods' types from the descriptor x; whether all of its classes are known.
pub fn describe(s: &[u8], t: &mut [u8], n: usize, x: &[u8], k: usize) -> bool
    requires { (n ≤ 16) × (k < 1024) × (types_end ≤ length t.old) }
    ensures { Described s.now n x.now k result t.old t.new }
{
    let w = 168576 + 18 * k;
    if !descriptors::is_at(x, 0, 40) {
        settle(t, w, 0, 256);
        return true;
    }
    let Ok(p) = params(s, t, n, x, w + 1) else {
        settle(t, w, 0, 256);
        return true;
    };
    let Ok(r) = result(s, &t[0..102912], n, x, p.at) else {
        settle(t, w, 0, 256);
        return true;
    };
    if r.at == x.len() {
        settle(t, w, p.count, r.val);
        return p.known && is_result_known(n, r.val);
    }
    settle(t, w, 0, 256);
    true
}

// How many parameters entry k has, and the code of parameter i.
pub fn param_count(t: &[u8], k: usize) -> usize
    requires { k < 1024 }
    ensures { (result ≡ length (params_in t.now k)) × (result < 32) }
{
    kit::byte(t, 168576 + 18 * k) % 32
}

pub fn param_at(t: &[u8], k: usize, i: usize) -> usize
    requires { (k < 1024) × (i < length (params_in t.now k)) }
    ensures { (desc_of result ≡ get_or (params_in t.now k) i dint) × (result < 256) }
{
    kit::byte(t, 168576 + 18 * k + 1 + i)
}

// The code of entry k's result, 256 where it has none: `result_of` reads it so, and callers write it on as a word.
pub fn result_at(t: &[u8], k: usize) -> usize
    requires { k < 1024 }
    ensures { (result_of result ≡ results_in t.now k) × (result ≤ 256) }
{
    if kit::byte(t, 168576 + 18 * k) < 32 {
        return 256;
    }
    kit::byte(t, 168576 + 18 * k + 17)
}
