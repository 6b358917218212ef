// Class files end to end, and what each leaves in its block of the lent scratch.
ghost use Rattle.std.specs.Prelude.{◌≡◌, IfOk, [], ◌+◌, ◌-◌, ◌*◌, ◌<◌, ◌≤◌, length, take};
ghost use Rattle.texts.specs.Reading.{many, u2_at};
ghost use Rattle.texts.specs.Answers.{res, res_as};
ghost use Rattle.classfiles.specs.Past.{past};
ghost use Rattle.classfiles.specs.Pool.{class_text};
ghost use Rattle.classfiles.specs.Table.{pool_in};
ghost use Rattle.classfiles.specs.Bundle.{magic_at, version_at, class_access_at, this_at, super_at, interfaces_at, class_file_at, class_files_at, bundle_at};
ghost use Rattle.classfiles.specs.Blocks.{block_size, put3, rows_in, class_in, classes_in, super_in, names_in, start_at, open_at, names_at};
ghost use Rattle.classfiles.specs.Members.{member_at};
ghost use Rattle.classfiles.specs.Opening.{Headed};
ghost use Rattle.classfiles.specs.Sections.{IsContent, IsRow, IsSection};

use crate::members::{Code, Found, Part};
use crate::{members, pool};
use texts::faults::{Fault, Got, Refusal};
use texts::items;

fn magic(s: &[u8], q: usize) -> Result<Got<usize>, Fault>
    ensures { res result ≡ magic_at s.now q }
{
    let v = items::u4(s, q)?;
    if v.val == 3405691582 {
        return Ok(v);
    }
    Err(Fault(Refusal::Version, q))
}

// Minor 0, major 51 or 52.
fn version(s: &[u8], q: usize) -> Result<Got<usize>, Fault>
    ensures { res result ≡ version_at s.now q }
{
    let minor = items::u2(s, q)?;
    if minor.val != 0 {
        return Err(Fault(Refusal::Version, q));
    }
    let v = items::u2(s, minor.at)?;
    if v.val == 51 {
        return Ok(v);
    }
    if v.val == 52 {
        return Ok(v);
    }
    Err(Fault(Refusal::Version, minor.at))
}

// ACC_SUPER, with or without ACC_PUBLIC.
fn class_access(s: &[u8], q: usize) -> Result<Got<usize>, Fault>
    ensures { res result ≡ class_access_at s.now q }
{
    let v = items::u2(s, q)?;
    if v.val == 32 {
        return Ok(v);
    }
    if v.val == 33 {
        return Ok(v);
    }
    Err(Fault(Refusal::Access, q))
}

// The position past it: the name stays where this_class names it.
fn this_class(s: &[u8], tags: &[u8], q: usize) -> Result<usize, Fault>
    ensures { past (class_text (pool_in s.now tags.now) (u2_at s.now q)) result ≡ this_at s.now (pool_in s.now tags.now) q }
{
    let i = items::u2(s, q)?;
    let c = pool::class_index(s, tags, q, i.val, i.at)?;
    Ok(c.at)
}

fn super_class(s: &[u8], tags: &[u8], q: usize) -> Result<usize, Fault>
    ensures { past (super_in s.now (pool_in s.now tags.now) q) result ≡ super_at s.now (pool_in s.now tags.now) q }
{
    let i = items::u2(s, q)?;
    if i.val == 0 {
        return Ok(i.at);
    }
    let c = pool::class_index(s, tags, q, i.val, i.at)?;
    Ok(c.at)
}

fn interfaces(s: &[u8], q: usize) -> Result<Got<usize>, Fault>
    ensures { res result ≡ interfaces_at s.now q }
{
    let n = items::u2(s, q)?;
    if n.val == 0 {
        return Ok(n);
    }
    Err(Fault(Refusal::Access, q))
}

// What stands before the pool.
fn start(s: &[u8], q: usize) -> Result<Got<usize>, Fault>
    ensures { res result ≡ start_at s.now q }
{
    let m = magic(s, q)?;
    version(s, m.at)
}

// From the pool's end q past the interfaces: this_class stands 2 further.
fn class_names(s: &[u8], tags: &[u8], q: usize) -> Result<usize, Fault>
    ensures { past (names_in s.now (pool_in s.now tags.now) (q + 2)) result ≡ names_at s.now (pool_in s.now tags.now) q }
{
    let a = class_access(s, q)?;
    let b = this_class(s, tags, a.at)?;
    let c = super_class(s, tags, b)?;
    let d = interfaces(s, c)?;
    Ok(d.at)
}

// Three words from w on.
fn put3(b: &mut [u8], w: usize, x: u32, y: u32, z: u32)
    requires { 4 * (w + 3) ≤ length b.old }
    ensures { b.new ≡ put3 b.old w x y z }
{
    kit::put_word(b, w, x);
    kit::put_word(b, w + 1, y);
    kit::put_word(b, w + 2, z);
}

// Magic, version and pool: the tags go to the block's front, the answer's value is their count.
fn opening(s: &[u8], q: usize, b: &mut [u8]) -> Result<Got<usize>, Fault>
    requires { (length s.now ≤ 65536) × (4096 ≤ length b.old) }
    ensures { (res_as (λ n. pool_in s.now (take (4 * n) b.new)) result ≡ open_at s.now q) × IfOk result (λ g. g.val ≤ 1024) }
{
    let m = start(s, q)?;
    pool::pool(s, m.at, b)
}

// What stands before the members, and the block's first words; the value is how many tags there are.
fn class_head(s: &[u8], q: usize, b: &mut [u8]) -> Result<Got<usize>, Fault>
    requires { (length s.now ≤ 65536) × (q ≤ length s.now) × (length b.old ≡ block_size) }
    ensures { Headed s.now q result b.new }
{
    let p = opening(s, q, b)?;
    let at = class_names(s, &b[..4 * p.val], p.at)?;
    put3(b, 1024, q as u32, p.val as u32, (p.at + 2) as u32);
    Ok(Got { val: p.val, at })
}

// How often a content stands, 2 for more than once, where, and how long it is.
fn put_content(b: &mut [u8], w: usize, f: Found<Part>)
    requires { 4 * (w + 3) ≤ length b.old }
    ensures { IsContent b.old b.new w f }
{
    match f {
        Found::None => put3(b, w, 0, 0, 0),
        Found::Once(p) => put3(b, w, 1, p.from, p.len),
        Found::Twice => put3(b, w, 2, 0, 0),
    }
}

// A member's row: where it starts and what Code there is.
fn put_row(b: &mut [u8], w: usize, q: u32, c: Found<Code>)
    requires { 4 * (w + 6) ≤ length b.old }
    ensures { IsRow b.old b.new w q c }
{
    match c {
        Found::None => {
            put3(b, w, q, 0, 0);
            put_content(b, w + 3, Found::None);
        }
        Found::Once(code) => {
            put3(b, w, q, 1, code.start);
            put_content(b, w + 3, code.frames);
        }
        Found::Twice => {
            put3(b, w, q, 2, 0);
            put_content(b, w + 3, Found::None);
        }
    }
}

// n members, a row each from word w on; k tags stand in front. The position past them.
fn rows(
    s: &[u8],
    b: &mut [u8],
    k: usize,
    method: bool,
    w: usize,
    n: usize,
    from: usize,
) -> Result<usize, Fault>
    requires { (length s.now ≤ 65536) × (from ≤ length s.now) × (k ≤ w) × (n ≤ 64) × (4 * (w + 6 * n) ≤ length b.old) }
    ensures { (past (rows_in s.now (pool_in s.now (take (4 * k) b.old)) b.new w n) result ≡ many (member_at s.now (pool_in s.now (take (4 * k) b.old)) method) n from) × (take (4 * w) b.new ≡ take (4 * w) b.old) }
{
    let mut q = from;
    for i in 0..n {
        let g = members::member(s, &b[..4 * k], method, q)?;
        put_row(b, w + 6 * i, q as u32, g.val);
        q = g.at;
    }
    Ok(q)
}

// u2 count; members[count]: the count goes to word c, the rows stand from word w on. The position past them.
fn section(
    s: &[u8],
    b: &mut [u8],
    k: usize,
    method: bool,
    c: usize,
    w: usize,
    most: usize,
    q: usize,
) -> Result<usize, Fault>
    requires { (length s.now ≤ 65536) × (k ≤ c) × (c < w) × (most ≤ 64) × (4 * (w + 6 * most) ≤ length b.old) }
    ensures { IsSection s.now k method c w most q result b.old b.new }
{
    let n = items::short(s, s.len(), Fault(Refusal::CutShort, q), most, q)?;
    kit::put_word(b, c, n.val as u32);
    rows(s, b, k, method, w, n.val, n.at)
}

// The class file at q, whose block is b; the position past it.
fn class_file(s: &[u8], q: usize, b: &mut [u8]) -> Result<usize, Fault>
    requires { (length s.now ≤ 65536) × (q ≤ length s.now) × (length b.old ≡ block_size) }
    ensures { past (class_in s.now b.new) result ≡ class_file_at s.now q }
{
    let h = class_head(s, q, b)?;
    let k = h.val;
    let f = section(s, b, k, false, 1027, 1032, 32, h.at)?;
    let m = section(s, b, k, true, 1028, 1224, 64, f)?;
    let a = members::attributes(s, &b[..4 * k], false, m)?;
    Ok(a.at)
}

// What may stand after the last class that is allowed: nothing.
fn after(s: &[u8], q: usize) -> Result<usize, Fault>
    ensures { past [] result ≡ class_files_at s.now 0 q }
{
    if q == s.len() {
        return Ok(q);
    }
    magic(s, q)?;
    Err(Fault(Refusal::Limit, q))
}

// Class files to the end, each in its block; the answer's value is how many there are.
fn class_files(s: &[u8], t: &mut [u8]) -> Result<Got<usize>, Fault>
    requires { (length s.now ≤ 65536) × (16 * block_size ≤ length t.old) }
    ensures { (res_as (λ n. classes_in s.now t.new n) result ≡ class_files_at s.now 16 0) × IfOk result (λ g. g.val ≤ 16) }
{
    let mut q = 0;
    for k in 0..16 {
        if q == s.len() {
            return Ok(Got { val: k, at: q });
        }
        let a = 6432 * k;
        q = class_file(s, q, &mut t[a..a + 6432])?;
    }
    let at = after(s, q)?;
    Ok(Got { val: 16, at })
}

// Phase A: the class files, each in its block of the lent scratch, or the first fault.
pub fn read_bundle(s: &[u8], t: &mut [u8]) -> Result<Got<usize>, Fault>
    requires { 16 * block_size ≤ length t.old }
    ensures { (res_as (λ n. classes_in s.now t.new n) result ≡ bundle_at s.now) × IfOk result (λ g. g.val ≤ 16) }
{
    if s.len() == 0 {
        return Err(Fault(Refusal::Size, 0));
    }
    if 65536 < s.len() {
        return Err(Fault(Refusal::Size, 0));
    }
    class_files(s, t)
}
