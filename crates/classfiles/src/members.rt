// Fields and methods, and what of their attributes is read.
ghost use Rattle.std.specs.Prelude.{◌≡◌, ◌<◌, ◌≤◌, cond, length};
ghost use Rattle.kit.specs.Lists.{eq_list};
ghost use Rattle.texts.specs.Reading.{sum_at, part};
ghost use Rattle.texts.specs.Answers.{res, res_as};
ghost use Rattle.texts.specs.Names.{StackMapTable, is_init, method_name, unqualified};
ghost use Rattle.classfiles.specs.Past.{past};
ghost use Rattle.classfiles.specs.Pool.{text};
ghost use Rattle.classfiles.specs.Table.{pool_in};
ghost use Rattle.classfiles.specs.Members.{once, none, another, inner_at, inners_at, body_at, attribute_at, attributes_at, name_at, descriptor_at, member_at};
ghost use Rattle.classfiles.specs.Attributes.{member_of, content_by, code_by, table_by, rest_by};
ghost use Rattle.classfiles.specs.Signatures.{access_by, too_many, result_ok, field_by, method_by};
ghost use Rattle.classfiles.specs.Contents.{kept, content_in, code_in};

use crate::descriptors::Arity;
use crate::{descriptors, pool};
use texts::faults::{Fault, Got, Refusal};
use texts::{items, names};

// How often something stands, and the one if it stands once.
#[derive(Clone, Copy)]
pub enum Found<T> {
    None,
    Once(T),
    Twice,
}

// A part of the bundle, in words, as a table keeps it.
#[derive(Clone, Copy)]
pub struct Part {
    pub from: u32,
    pub len: u32,
}

// A method's Code: where its content starts, and the StackMapTable in it.
#[derive(Clone, Copy)]
pub struct Code {
    pub start: u32,
    pub frames: Found<Part>,
}

// What stands in both stands more than once.
fn another<T: Copy>(x: Found<T>, y: Found<T>) -> Found<T>
    ensures { kept result ≡ another (kept x) (kept y) }
{
    match y {
        Found::None => x,
        Found::Once(_) => match x {
            Found::None => y,
            _ => Found::Twice,
        },
        Found::Twice => Found::Twice,
    }
}

// Whether entry i is this text.
fn titled(s: &[u8], tags: &[u8], i: usize, t: &[u8]) -> bool
    ensures { result ≡ eq_list (text (pool_in s.now tags.now) i) t.now }
{
    names::same_text(pool::text_of(s, tags, i), t)
}

// The content of the attribute that entry i names: only a StackMapTable is noted.
fn frames(s: &[u8], tags: &[u8], i: usize, a: usize, n: usize) -> Found<Part>
    requires { (a < 4294967296) × (n < 4294967296) }
    ensures { content_in s.now result ≡ cond (eq_list (text (pool_in s.now tags.now) i) StackMapTable) (once (part s.now a n)) none }
{
    if titled(s, tags, i, b"StackMapTable") {
        return Found::Once(Part {
            from: a as u32,
            len: n as u32,
        });
    }
    Found::None
}

// The length at a, and the content, of an attribute inside Code that entry i names.
fn content_at(
    s: &[u8],
    tags: &[u8],
    e: usize,
    p: usize,
    i: usize,
    a: usize,
) -> Result<Got<Found<Part>>, Fault>
    requires { e ≤ 65536 }
    ensures { res_as (content_in s.now) result ≡ content_by s.now (pool_in s.now tags.now) e p i a }
{
    let n = items::num4(s, e, Fault(Refusal::Malformed, p), a)?;
    let c = items::skip(e, Fault(Refusal::Malformed, p), n.val, n.at)?;
    Ok(Got {
        val: frames(s, tags, i, c.val, n.val),
        at: c.at,
    })
}

// One attribute inside a Code that ends at e and whose attribute stands at p.
fn inner(s: &[u8], tags: &[u8], e: usize, p: usize, q: usize) -> Result<Got<Found<Part>>, Fault>
    requires { e ≤ 65536 }
    ensures { res_as (content_in s.now) result ≡ inner_at s.now (pool_in s.now tags.now) e p q }
{
    let i = items::num2(s, e, Fault(Refusal::Malformed, p), q)?;
    if pool::is_utf8(s, tags, i.val) {
        return content_at(s, tags, e, p, i.val, i.at);
    }
    Err(Fault(Refusal::Constant, q))
}

fn inner_loop(
    s: &[u8],
    tags: &[u8],
    e: usize,
    p: usize,
    n: usize,
    from: usize,
) -> Result<Got<Found<Part>>, Fault>
    requires { e ≤ 65536 }
    ensures { res_as (content_in s.now) result ≡ sum_at (inner_at s.now (pool_in s.now tags.now) e p) another n none from }
{
    let mut q = from;
    let mut sum = Found::None;
    for _i in 0..n {
        let g = inner(s, tags, e, p, q)?;
        sum = another(sum, g.val);
        q = g.at;
    }
    Ok(Got { val: sum, at: q })
}

// The attributes inside a Code: what StackMapTable there is.
fn inners(s: &[u8], tags: &[u8], e: usize, p: usize, q: usize) -> Result<Got<Found<Part>>, Fault>
    requires { e ≤ 65536 }
    ensures { res_as (content_in s.now) result ≡ inners_at s.now (pool_in s.now tags.now) e p q }
{
    let n = items::num2(s, e, Fault(Refusal::Malformed, p), q)?;
    inner_loop(s, tags, e, p, n.val, n.at)
}

// The instructions' length, and the position past them.
fn code_part(s: &[u8], e: usize, p: usize, q: usize) -> Result<Got<usize>, Fault>
    ensures { res result ≡ code_by s.now e p q }
{
    let n = items::num4(s, e, Fault(Refusal::Malformed, p), q)?;
    if n.val == 0 {
        return Err(Fault(Refusal::Limit, q));
    }
    if 4096 < n.val {
        return Err(Fault(Refusal::Limit, q));
    }
    let b = items::skip(e, Fault(Refusal::Malformed, p), n.val, n.at)?;
    Ok(Got {
        val: n.val,
        at: b.at,
    })
}

// The exception table's length, and the position past it.
fn table_part(s: &[u8], e: usize, p: usize, q: usize) -> Result<Got<usize>, Fault>
    ensures { res result ≡ table_by s.now e p q }
{
    let n = items::short(s, e, Fault(Refusal::Malformed, p), 32, q)?;
    let b = items::skip(e, Fault(Refusal::Malformed, p), 8 * n.val, n.at)?;
    Ok(Got {
        val: n.val,
        at: b.at,
    })
}

// From the exception table at c on, of the Code whose content starts at q.
fn rest(
    s: &[u8],
    tags: &[u8],
    e: usize,
    p: usize,
    q: usize,
    c: usize,
) -> Result<Got<Found<Code>>, Fault>
    requires { (e ≤ 65536) × (q < 4294967296) }
    ensures { res_as (code_in s.now) result ≡ rest_by s.now e p (pool_in s.now tags.now) q c }
{
    let t = table_part(s, e, p, c)?;
    let f = inners(s, tags, e, p, t.at)?;
    if f.at != e {
        return Err(Fault(Refusal::Malformed, p));
    }
    Ok(Got {
        val: Found::Once(Code {
            start: q as u32,
            frames: f.val,
        }),
        at: f.at,
    })
}

// Code's content, from q to e.
fn body(s: &[u8], tags: &[u8], e: usize, p: usize, q: usize) -> Result<Got<Found<Code>>, Fault>
    requires { (e ≤ 65536) × (q < 4294967296) }
    ensures { res_as (code_in s.now) result ≡ body_at s.now (pool_in s.now tags.now) e p q }
{
    let stack = items::short(s, e, Fault(Refusal::Malformed, p), 32, q)?;
    let locals = items::short(s, e, Fault(Refusal::Malformed, p), 32, stack.at)?;
    let n = code_part(s, e, p, locals.at)?;
    rest(s, tags, e, p, q, n.at)
}

// An attribute of a member: of a method's, Code is read.
fn attribute(s: &[u8], tags: &[u8], method: bool, q: usize) -> Result<Got<Found<Code>>, Fault>
    requires { length s.now ≤ 65536 }
    ensures { res_as (code_in s.now) result ≡ attribute_at s.now (pool_in s.now tags.now) method q }
{
    let i = pool::utf8_index(s, tags, q)?;
    let n = items::u4(s, i.at)?;
    let c = items::skip(s.len(), Fault(Refusal::CutShort, n.at), n.val, n.at)?;
    if method {
        if titled(s, tags, i.val, b"Code") {
            return body(s, tags, c.at, q, c.val);
        }
    }
    Ok(Got {
        val: Found::None,
        at: c.at,
    })
}

// As inner_loop: one loop for both would take the reading as a closure and say in its contract what each reading means, which is no shorter.
fn attribute_loop(
    s: &[u8],
    tags: &[u8],
    method: bool,
    n: usize,
    from: usize,
) -> Result<Got<Found<Code>>, Fault>
    requires { length s.now ≤ 65536 }
    ensures { res_as (code_in s.now) result ≡ sum_at (attribute_at s.now (pool_in s.now tags.now) method) another n none from }
{
    let mut q = from;
    let mut sum = Found::None;
    for _i in 0..n {
        let g = attribute(s, tags, method, q)?;
        sum = another(sum, g.val);
        q = g.at;
    }
    Ok(Got { val: sum, at: q })
}

// A member's or a class's attributes: what Code there is.
pub fn attributes(s: &[u8], tags: &[u8], method: bool, q: usize) -> Result<Got<Found<Code>>, Fault>
    requires { length s.now ≤ 65536 }
    ensures { res_as (code_in s.now) result ≡ attributes_at s.now (pool_in s.now tags.now) method q }
{
    let n = items::u2(s, q)?;
    attribute_loop(s, tags, method, n.val, n.at)
}

// 0x0001, of a method 0x0009 too.
fn access(s: &[u8], method: bool, q: usize) -> Result<Got<usize>, Fault>
    ensures { res result ≡ access_by s.now method q }
{
    let v = items::u2(s, q)?;
    if v.val == 1 {
        return Ok(v);
    }
    if method {
        if v.val == 9 {
            return Ok(v);
        }
    }
    Err(Fault(Refusal::Access, q))
}

fn name_ok(s: &[u8], tags: &[u8], method: bool, i: usize) -> bool
    ensures { result ≡ cond method (method_name (text (pool_in s.now tags.now) i)) (unqualified (text (pool_in s.now tags.now) i)) }
{
    let t = pool::text_of(s, tags, i);
    if method {
        return names::method_name(t);
    }
    names::unqualified(t)
}

// The name's index; a static `<init>` is blamed on its access, at p.
fn name(
    s: &[u8],
    tags: &[u8],
    method: bool,
    access: usize,
    p: usize,
    q: usize,
) -> Result<Got<usize>, Fault>
    ensures { res_as (λ i. text (pool_in s.now tags.now) i) result ≡ name_at s.now (pool_in s.now tags.now) method access p q }
{
    let i = pool::utf8_index(s, tags, q)?;
    if !name_ok(s, tags, method, i.val) {
        return Err(Fault(Refusal::Malformed, q));
    }
    if names::is_init(pool::text_of(s, tags, i.val)) {
        if access == 9 {
            return Err(Fault(Refusal::Access, p));
        }
    }
    Ok(i)
}

// More than 16 parameters, with the receiver.
fn too_many(access: usize, n: usize) -> bool
    ensures { result ≡ too_many access n }
{
    if access == 9 {
        return 16 < n;
    }
    15 < n
}

// `<init>`, if that is what entry k is, has no result.
fn result_ok(s: &[u8], tags: &[u8], k: usize, n: usize) -> bool
    ensures { result ≡ result_ok (text (pool_in s.now tags.now) k) n }
{
    if names::is_init(pool::text_of(s, tags, k)) {
        return n == 0;
    }
    true
}

// Entry i as a field's descriptor; its index stood at q and ended at e.
fn field_descriptor(
    s: &[u8],
    tags: &[u8],
    i: usize,
    q: usize,
    e: usize,
) -> Result<Got<usize>, Fault>
    ensures { res_as (λ j. text (pool_in s.now tags.now) j) result ≡ field_by (text (pool_in s.now tags.now) i) q e }
{
    descriptors::field_type(pool::text_of(s, tags, i), q)?;
    Ok(Got { val: i, at: e })
}

// The same of a method, whose name is entry k.
fn method_descriptor(
    s: &[u8],
    tags: &[u8],
    access: usize,
    k: usize,
    i: usize,
    q: usize,
    e: usize,
) -> Result<Got<usize>, Fault>
    ensures { res_as (λ j. text (pool_in s.now tags.now) j) result ≡ method_by access (text (pool_in s.now tags.now) k) (text (pool_in s.now tags.now) i) q e }
{
    let m = descriptors::method_type(pool::text_of(s, tags, i), q)?;
    if too_many(access, m.val.params) {
        return Err(Fault(Refusal::Limit, q));
    }
    if result_ok(s, tags, k, m.val.results) {
        return Ok(Got { val: i, at: e });
    }
    Err(Fault(Refusal::Malformed, q))
}

// The descriptor's index.
fn descriptor(
    s: &[u8],
    tags: &[u8],
    method: bool,
    access: usize,
    k: usize,
    q: usize,
) -> Result<Got<usize>, Fault>
    ensures { res_as (λ j. text (pool_in s.now tags.now) j) result ≡ descriptor_at s.now (pool_in s.now tags.now) method access (text (pool_in s.now tags.now) k) q }
{
    let i = pool::utf8_index(s, tags, q)?;
    if method {
        return method_descriptor(s, tags, access, k, i.val, q, i.at);
    }
    field_descriptor(s, tags, i.val, q, i.at)
}

// A field or a method; its access, name and descriptor are read again from where they stand.
pub fn member(s: &[u8], tags: &[u8], method: bool, q: usize) -> Result<Got<Found<Code>>, Fault>
    requires { length s.now ≤ 65536 }
    ensures { res_as (λ c. member_of s.now (pool_in s.now tags.now) q (code_in s.now c)) result ≡ member_at s.now (pool_in s.now tags.now) method q }
{
    let a = access(s, method, q)?;
    let k = name(s, tags, method, a.val, q, a.at)?;
    let d = descriptor(s, tags, method, a.val, k.val, k.at)?;
    attributes(s, tags, method, d.at)
}
