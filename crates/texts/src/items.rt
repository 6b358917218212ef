// The numbers of a layout, each read where it stands, with the fault that a cut gives.
ghost use Rattle.std.specs.Prelude.{◌≡◌, true, ◌+◌, ◌<◌, ◌≤◌, leb};
ghost use Rattle.texts.specs.Reading.{u2_at, u4_at, num2_at, num4_at, skip_at, short_at, u2, u4};
ghost use Rattle.texts.specs.Answers.{res, res_by};

use crate::faults::{Fault, Got, Reason, Refusal};

// Whether k bytes at q end by e.
pub fn fits_in(e: usize, q: usize, k: usize) -> bool
    ensures { (result ≡ leb (q + k) e) × (result ≡ true → q + k ≤ e) }
{
    if e < q {
        return false;
    }
    k <= e - q
}

pub fn u2_at(s: &[u8], q: usize) -> usize
    ensures { (result ≡ u2_at s.now q) × (result < 65536) }
{
    if q < s.len() {
        return kit::byte(s, q) * 256 + kit::byte(s, q + 1);
    }
    0
}

pub fn u4_at(s: &[u8], q: usize) -> usize
    ensures { (result ≡ u4_at s.now q) × (result < 4294967296) }
{
    let high = u2_at(s, q) * 65536;
    if fits_in(s.len(), q, 3) {
        return high + u2_at(s, q + 2);
    }
    high
}

// Two bytes at q that end by e.
pub fn num2<E: Reason>(s: &[u8], e: usize, fault: E, q: usize) -> Result<Got<usize>, E>
    ensures { res_by (λ n. n) E.number E.place result ≡ num2_at s.now e (E.number fault) (E.place fault) q }
{
    if fits_in(e, q, 2) {
        return Ok(Got {
            val: u2_at(s, q),
            at: q + 2,
        });
    }
    Err(fault)
}

pub fn num4<E: Reason>(s: &[u8], e: usize, fault: E, q: usize) -> Result<Got<usize>, E>
    ensures { res_by (λ n. n) E.number E.place result ≡ num4_at s.now e (E.number fault) (E.place fault) q }
{
    if fits_in(e, q, 4) {
        return Ok(Got {
            val: u4_at(s, q),
            at: q + 4,
        });
    }
    Err(fault)
}

// k bytes at q that end by e; the value is where they start.
pub fn skip<E: Reason>(e: usize, fault: E, k: usize, q: usize) -> Result<Got<usize>, E>
    ensures { res_by (λ n. n) E.number E.place result ≡ skip_at e (E.number fault) (E.place fault) k q }
{
    if fits_in(e, q, k) {
        return Ok(Got { val: q, at: q + k });
    }
    Err(fault)
}

pub fn short<E: Reason>(
    s: &[u8],
    e: usize,
    fault: E,
    most: usize,
    q: usize,
) -> Result<Got<usize>, E>
    ensures { res_by (λ n. n) E.number E.place result ≡ short_at s.now e (E.number fault) (E.place fault) most q }
{
    let n = num2(s, e, fault, q)?;
    if most < n.val {
        return Err(E::past_limit(q));
    }
    Ok(n)
}

pub fn u2(s: &[u8], q: usize) -> Result<Got<usize>, Fault>
    ensures { res result ≡ u2 s.now q }
{
    num2(s, s.len(), Fault(Refusal::CutShort, q), q)
}

pub fn u4(s: &[u8], q: usize) -> Result<Got<usize>, Fault>
    ensures { res result ≡ u4 s.now q }
{
    num4(s, s.len(), Fault(Refusal::CutShort, q), q)
}
