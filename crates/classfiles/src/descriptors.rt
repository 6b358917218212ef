// Descriptors and what a Class entry names, read for their form: whatever is malformed is 7 at p.
ghost use Rattle.std.specs.Prelude.{◌≡◌, ◌<◌, ◌≤◌, true, eqb, length, get_or};
ghost use Rattle.classfiles.specs.Limits.{max_dimensions};
ghost use Rattle.classfiles.specs.Descriptors.{in_name, semicolon};
ghost use Rattle.classfiles.specs.Shapes.{named_shape, base_shape, type_shape, params_shape, results_shape, field_shape, method_shape, class_shape};
ghost use Rattle.texts.specs.Answers.{res, res_as};
ghost use Rattle.classfiles.specs.Past.{past};

use texts::faults::{Fault, Got, Refusal};
use texts::names;

// How many parameters and results a method has.
#[derive(Clone, Copy)]
pub struct Arity {
    pub params: usize,
    pub results: usize,
}

fn in_name(t: &[u8], i: usize) -> bool
    ensures { result ≡ in_name t.now i }
{
    kit::byte(t, i) != 59
}

// The first ; from q on, or the length.
pub fn semicolon(t: &[u8], q: usize) -> usize
    ensures { result ≡ semicolon t.now q }
{
    for i in q..t.len() {
        if !in_name(t, i) {
            return i;
        }
    }
    q.max(t.len())
}

// The class name from q, up to the ; at z; the position past it.
fn named(t: &[u8], p: usize, q: usize, z: usize) -> Result<usize, Fault>
    requires { q ≤ z }
    ensures { past 0 result ≡ named_shape t.now p q z }
{
    if z < t.len() {
        if names::class_name(&t[q..z]) {
            return Ok(z + 1);
        }
    }
    Err(Fault(Refusal::Malformed, p))
}

// The byte at q is b, which is not 0: so it stands inside the text.
pub fn is_at(t: &[u8], q: usize, b: usize) -> bool
    requires { 0 < b }
    ensures { (result ≡ eqb (get_or t.now q 0) b) × (result ≡ true → q < length t.now) }
{
    kit::byte(t, q) == b
}

// I, or L name ;
fn base(t: &[u8], p: usize, q: usize) -> Result<usize, Fault>
    ensures { past 0 result ≡ base_shape t.now p q }
{
    if is_at(t, q, 73) {
        return Ok(q + 1);
    }
    if is_at(t, q, 76) {
        let a = q + 1;
        let z = semicolon(t, a);
        return named(t, p, a, z);
    }
    Err(Fault(Refusal::Malformed, p))
}

// At most seven [ and a base.
fn field(t: &[u8], p: usize, q: usize) -> Result<usize, Fault>
    ensures { past 0 result ≡ type_shape t.now p max_dimensions q }
{
    let mut at = q;
    for _i in 0..7usize {
        if !is_at(t, at, 91) {
            return base(t, p, at);
        }
        at += 1;
    }
    base(t, p, at)
}

// How many parameters stand before the ), from q on.
fn params(t: &[u8], p: usize, q: usize) -> Result<Got<usize>, Fault>
    ensures { res result ≡ params_shape t.now p (length t.now) 0 q }
{
    let mut at = q;
    for count in 0..t.len() {
        if is_at(t, at, 41) {
            return Ok(Got {
                val: count,
                at: at + 1,
            });
        }
        at = field(t, p, at)?;
    }
    Err(Fault(Refusal::Malformed, p))
}

// V, or one result.
fn results(t: &[u8], p: usize, q: usize) -> Result<Got<usize>, Fault>
    ensures { res result ≡ results_shape t.now p q }
{
    if is_at(t, q, 86) {
        return Ok(Got { val: 0, at: q + 1 });
    }
    let e = field(t, p, q)?;
    Ok(Got { val: 1, at: e })
}

// A field descriptor, and nothing behind it.
pub fn field_type(t: &[u8], p: usize) -> Result<usize, Fault>
    ensures { past 0 result ≡ field_shape t.now p }
{
    let e = field(t, p, 0)?;
    if e == t.len() {
        return Ok(e);
    }
    Err(Fault(Refusal::Malformed, p))
}

// What a Class entry names: an array's descriptor, or a class.
pub fn class_type(t: &[u8], p: usize) -> Result<usize, Fault>
    ensures { past 0 result ≡ class_shape t.now p }
{
    if is_at(t, 0, 91) {
        return field_type(t, p);
    }
    if names::class_name(t) {
        return Ok(t.len());
    }
    Err(Fault(Refusal::Malformed, p))
}

// ( parameters ) result, and nothing behind it.
pub fn method_type(t: &[u8], p: usize) -> Result<Got<Arity>, Fault>
    ensures { res_as (λ a. a) result ≡ method_shape t.now p }
{
    if !is_at(t, 0, 40) {
        return Err(Fault(Refusal::Malformed, p));
    }
    let n = params(t, p, 1)?;
    let m = results(t, p, n.at)?;
    if m.at == t.len() {
        return Ok(Got {
            val: Arity {
                params: n.val,
                results: m.val,
            },
            at: m.at,
        });
    }
    Err(Fault(Refusal::Malformed, p))
}
