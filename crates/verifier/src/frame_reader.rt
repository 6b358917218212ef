// The frame table read: each frame's types as words.
ghost use Rattle.std.specs.Prelude.{◌≡◌, false, ◌+◌, ◌^◌, ◌<◌, ◌≤◌};
ghost use Rattle.verifier.specs.FrameReading.{typed_as, type_named, type_classed, type_made, type_tagged, type_at, Readable};
ghost use Rattle.verifier.specs.FrameTypes.{Types};
ghost use Rattle.verifier.specs.Drawing.{drawing, one_by, append_by, chop_by, Drew};

use rules::site::Site;
use rules::types::Ty;
use rules::{codes, decode};
use shaping::marks;
use texts::faults::{Fault, Got, Refusal};
use texts::items;

// The type that pool entry i names.
fn named_type(s: &[u8], t: &[u8], x: Site, k: usize, i: usize, e: usize) -> Result<Got<Ty>, Fault>
    requires { Readable s.now t.now x }
    ensures { typed_as result ≡ type_named s.now t.now x k i e }
{
    let w = decode::named_word(t, x.class, i);
    if w % 8 == 2 {
        return Ok(Got {
            val: codes::reference((w / 8 % 256) as u8),
            at: e,
        });
    }
    Err(Fault(Refusal::FrameTable, k))
}

// After the tags 7 and 8.
fn class_type(s: &[u8], t: &[u8], x: Site, f: &[u8], k: usize, q: usize) -> Result<Got<Ty>, Fault>
    requires { Readable s.now t.now x }
    ensures { typed_as result ≡ type_classed s.now t.now x f.now k q }
{
    let i = items::num2(f, f.len(), Fault(Refusal::FrameTable, k), q)?;
    named_type(s, t, x, k, i.val, i.at)
}

fn new_type(s: &[u8], t: &[u8], x: Site, f: &[u8], k: usize, q: usize) -> Result<Got<Ty>, Fault>
    requires { Readable s.now t.now x }
    ensures { typed_as result ≡ type_made s.now t.now x f.now k q }
{
    let i = items::num2(f, f.len(), Fault(Refusal::FrameTable, k), q)?;
    if marks::is_new_at(s, t, x, i.val) {
        return Ok(Got {
            val: Ty::uninit((i.val % 65536) as u16),
            at: i.at,
        });
    }
    Err(Fault(Refusal::FrameTable, k))
}

// A type by its tag; what belongs to it stands from e on.
fn tagged_type(
    s: &[u8],
    t: &[u8],
    x: Site,
    f: &[u8],
    k: usize,
    tag: usize,
    e: usize,
) -> Result<Got<Ty>, Fault>
    requires { Readable s.now t.now x }
    ensures { typed_as result ≡ type_tagged s.now t.now x f.now k tag e }
{
    if tag == 0 {
        return Ok(Got {
            val: Ty::top(),
            at: e,
        });
    }
    if tag == 1 {
        return Ok(Got {
            val: Ty::int(),
            at: e,
        });
    }
    if tag == 5 {
        return Ok(Got {
            val: Ty::null(),
            at: e,
        });
    }
    if tag == 6 {
        if x.constructor {
            return Ok(Got {
                val: Ty::uninit_this(),
                at: e,
            });
        }
        return Err(Fault(Refusal::FrameTable, k));
    }
    if tag == 7 {
        return class_type(s, t, x, f, k, e);
    }
    if tag == 8 {
        return new_type(s, t, x, f, k, e);
    }
    Err(Fault(Refusal::FrameTable, k))
}

// The type at q of the table f.
pub fn type_at(s: &[u8], t: &[u8], x: Site, f: &[u8], k: usize, q: usize) -> Result<Got<Ty>, Fault>
    requires { Readable s.now t.now x }
    ensures { typed_as result ≡ type_at s.now t.now x f.now k q }
{
    if q < f.len() {
        return tagged_type(s, t, x, f, k, kit::byte(f, q), q + 1);
    }
    Err(Fault(Refusal::FrameTable, k))
}

// n types from q on, into the words from w on; the position past them.
pub fn types(
    s: &[u8],
    t: &mut [u8],
    x: Site,
    f: &[u8],
    k: usize,
    n: usize,
    w: usize,
    q: usize,
) -> Result<usize, Fault>
    requires { Readable s.now t.old x × (65184 ≤ w) × (w + n ≤ 65536) }
    ensures { Types s.now t.old x f.now k n w q result t.new }
{
    let mut at = q;
    for i in 0..n {
        let v = type_at(s, t, x, f, k, at)?;
        kit::put_word(t, w + i, v.val.word);
        at = v.at;
    }
    Ok(at)
}

// A frame as it is written: its delta, and how many locals and operands it has in the words at hand.
#[derive(Clone, Copy)]
pub struct Drawn {
    pub delta: usize,
    pub locals: usize,
    pub stack: usize,
}

pub fn sketched(delta: usize, locals: usize, stack: usize, at: usize) -> Got<Drawn>
    ensures { result ≡ drawing delta locals stack at }
{
    let val = Drawn {
        delta,
        locals,
        stack,
    };
    Got { val, at }
}

// One operand, at q, with n locals before it.
pub fn one_operand(
    s: &[u8],
    t: &mut [u8],
    x: Site,
    f: &[u8],
    k: usize,
    d: usize,
    n: usize,
    q: usize,
) -> Result<Got<Drawn>, Fault>
    requires { Readable s.now t.old x × (n ≤ x.locals) }
    ensures { Drew s.now t.old x k (one_by s.now t.old x f.now k d n q) result t.new }
{
    if x.stack < 1 {
        return Err(Fault(Refusal::FrameTable, k));
    }
    let v = type_at(s, t, x, f, k, q)?;
    kit::put_word(t, 65216, v.val.word);
    Ok(sketched(d, n, 1, v.at))
}

// m locals more, from q on.
pub fn append(
    s: &[u8],
    t: &mut [u8],
    x: Site,
    f: &[u8],
    k: usize,
    d: usize,
    m: usize,
    n: usize,
    q: usize,
) -> Result<Got<Drawn>, Fault>
    requires { Readable s.now t.old x × (n ≤ x.locals) × (m ≤ 3) }
    ensures { Drew s.now t.old x k (append_by s.now t.old x f.now k d m n q) result t.new }
{
    if x.locals < n + m {
        return Err(Fault(Refusal::FrameTable, k));
    }
    let at = types(s, t, x, f, k, m, 65184 + n, q)?;
    Ok(sketched(d, n + m, 0, at))
}

// The last m of n locals are dropped.
pub fn chop(
    s: &[u8],
    t: &[u8],
    x: Site,
    f: &[u8],
    k: usize,
    d: usize,
    m: usize,
    n: usize,
    e: usize,
) -> Result<Got<Drawn>, Fault>
    requires { Readable s.now t.now x × (n ≤ x.locals) }
    ensures { Drew s.now t.now x k (chop_by s.now t.now x f.now k d m n e) result t.now }
{
    if n < m {
        return Err(Fault(Refusal::FrameTable, k));
    }
    Ok(sketched(d, n - m, 0, e))
}
