// One frame of the table: its form read into the words at hand, then judged.
ghost use Rattle.std.specs.Prelude.{◌≡◌, true, ◌≤◌};
ghost use Rattle.verifier.specs.FrameReading.{Readable};
ghost use Rattle.verifier.specs.Drawing.{stack_in, full_by, Drew};
ghost use Rattle.verifier.specs.FrameForms.{stack_by, long_by, form_by};
ghost use Rattle.verifier.specs.Judging.{topless, Picked};
ghost use Rattle.verifier.specs.Framing.{Framing};

use crate::frame_reader;
use crate::frame_reader::Drawn;
use rules::site::Site;
use rules::types::Ty;
use shaping::marks;
use texts::faults::{Fault, Got, Refusal};
use texts::items;

// A full frame's operands: u2 count, types. Its n locals are at hand.
fn full_stack(
    s: &[u8],
    t: &mut [u8],
    x: Site,
    f: &[u8],
    k: usize,
    d: usize,
    n: usize,
    q: usize,
) -> Result<Got<Drawn>, Fault>
    requires { Readable s.now t.old x × (n ≤ x.locals) }
    ensures { Drew s.now t.old x k (stack_by s.now t.old x f.now k d n q) result t.new }
{
    let m = items::num2(f, f.len(), Fault(Refusal::FrameTable, k), q)?;
    if x.stack < m.val {
        return Err(Fault(Refusal::FrameTable, k));
    }
    let at = frame_reader::types(s, t, x, f, k, m.val, 65216, m.at)?;
    Ok(frame_reader::sketched(d, n, m.val, at))
}

// A full frame, behind its delta: u2 count and types of locals, then of operands.
fn full(
    s: &[u8],
    t: &mut [u8],
    x: Site,
    f: &[u8],
    k: usize,
    d: usize,
    q: usize,
) -> Result<Got<Drawn>, Fault>
    requires { Readable s.now t.old x }
    ensures { Drew s.now t.old x k (full_by s.now t.old x f.now k d q) result t.new }
{
    let n = items::num2(f, f.len(), Fault(Refusal::FrameTable, k), q)?;
    if x.locals < n.val {
        return Err(Fault(Refusal::FrameTable, k));
    }
    let at = frame_reader::types(s, t, x, f, k, n.val, 65184, n.at)?;
    full_stack(s, t, x, f, k, d, n.val, at)
}

// The forms with a u2 delta d, which stands before q.
fn long_form(
    s: &[u8],
    t: &mut [u8],
    x: Site,
    f: &[u8],
    k: usize,
    tag: usize,
    d: usize,
    n: usize,
    q: usize,
) -> Result<Got<Drawn>, Fault>
    requires { Readable s.now t.old x × (n ≤ x.locals) }
    ensures { Drew s.now t.old x k (long_by s.now t.old x f.now k tag d n q) result t.new }
{
    if tag == 247 {
        return frame_reader::one_operand(s, t, x, f, k, d, n, q);
    }
    if tag < 251 {
        return frame_reader::chop(s, t, x, f, k, d, 251 - tag, n, q);
    }
    if tag == 251 {
        return Ok(frame_reader::sketched(d, n, 0, q));
    }
    if tag < 255 {
        return frame_reader::append(s, t, x, f, k, d, tag - 251, n, q);
    }
    full(s, t, x, f, k, d, q)
}

// A frame by its tag, which stands before q; n locals are as the frame before left them.
fn form(
    s: &[u8],
    t: &mut [u8],
    x: Site,
    f: &[u8],
    k: usize,
    tag: usize,
    n: usize,
    q: usize,
) -> Result<Got<Drawn>, Fault>
    requires { Readable s.now t.old x × (n ≤ x.locals) }
    ensures { Drew s.now t.old x k (form_by s.now t.old x f.now k tag n q) result t.new }
{
    if tag < 64 {
        return Ok(frame_reader::sketched(tag, n, 0, q));
    }
    if tag < 128 {
        return frame_reader::one_operand(s, t, x, f, k, tag - 64, n, q);
    }
    if tag < 247 {
        return Err(Fault(Refusal::FrameTable, k));
    }
    let d = items::num2(f, f.len(), Fault(Refusal::FrameTable, k), q)?;
    long_form(s, t, x, f, k, tag, d.val, n, d.at)
}

// Whether none of the n operands at hand is top.
fn no_top(t: &[u8], n: usize) -> bool
    requires { n ≤ 32 }
    ensures { result ≡ topless (stack_in t.now n) }
{
    for i in 0..n {
        let v = Ty {
            word: kit::word(t, 65216 + i),
        };
        if v.is_top() {
            return false;
        }
    }
    true
}

// A frame that was read, r, where a delta of 0 leads to `from`: it has to stand at an instruction, with no top on the stack.
fn picked(s: &[u8], t: &[u8], x: Site, k: usize, from: usize, r: Drawn) -> Result<(), Fault>
    requires { Readable s.now t.now x × (from ≤ 65536) × (r.stack ≤ x.stack) }
    ensures { Picked s.now t.now x k from r result }
{
    if 4096 <= r.delta {
        return Err(Fault(Refusal::FrameTable, k));
    }
    if !marks::is_start(s, t, x, from + r.delta) {
        return Err(Fault(Refusal::FrameTable, k));
    }
    if no_top(t, r.stack) {
        return Ok(());
    }
    Err(Fault(Refusal::FrameTable, k))
}

// Frame k at q of the table f: n locals are at hand, as the frame before left them, and a delta of 0 leads to `from`.
pub fn frame(
    s: &[u8],
    t: &mut [u8],
    x: Site,
    f: &[u8],
    k: usize,
    from: usize,
    n: usize,
    q: usize,
) -> Result<Got<Drawn>, Fault>
    requires { Readable s.now t.old x × (n ≤ x.locals) × (from ≤ 65536) }
    ensures { Framing s.now t.old x f.now k from n q result t.new }
{
    if f.len() <= q {
        return Err(Fault(Refusal::FrameTable, k));
    }
    let r = form(s, t, x, f, k, kit::byte(f, q), n, q + 1)?;
    picked(s, t, x, k, from, r.val)?;
    Ok(r)
}
