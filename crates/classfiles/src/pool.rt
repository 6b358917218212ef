// The constant pool: where each entry's tag stands goes into the lent table, a word an entry, number 0 a zero; or the first fault.
ghost use Rattle.std.specs.Prelude.{◌≡◌, IfOk, IfSome, List, ℕ, ◌+◌, ◌-◌, ◌*◌, ◌^◌, ◌<◌, ◌≤◌, length, take};
ghost use Rattle.kit.specs.Words.{words};
ghost use Rattle.texts.specs.Reading.{pre, many, part};
ghost use Rattle.texts.specs.Answers.{res, res_as};
ghost use Rattle.classfiles.specs.Past.{past};
ghost use Rattle.classfiles.specs.Pool.{utf8, text_ok, utf8_at, entry_size, entry_at, constant_at, is_utf8, is_class, is_name_and_type, text, class_text, is_array_name, utf8_index_at, class_index_at, pair_fault, name_fault, entry_fault, checked_at, tags_at, pool_at};
ghost use Rattle.texts.specs.Faults.{refused};
ghost use Rattle.classfiles.specs.Table.{text_byte, sized, constant_of, pool_in, entry_in, IsText};

use crate::descriptors;
use texts::faults::{Fault, Got, Refusal};
use texts::items;

#[derive(Clone, Copy)]
pub enum Entry<'a> {
    Absent,
    Utf8(&'a [u8]),
    Integer(u32),
    Class(usize),
    Field(usize, usize),
    Method(usize, usize),
    NameAndType(usize, usize),
}

// A part of the bundle, for what keeps positions.
#[derive(Clone, Copy)]
pub struct Span {
    pub start: usize,
    pub end: usize,
}

fn text_byte(s: &[u8], i: usize) -> bool
    ensures { result ≡ text_byte s.now i }
{
    let b = kit::byte(s, i);
    if b == 0 {
        return false;
    }
    b < 128
}

fn text_ok(s: &[u8], q: usize, n: usize) -> bool
    requires { q + n ≤ length s.now }
    ensures { result ≡ text_ok s.now q n }
{
    for i in 0..n {
        if !text_byte(s, q + i) {
            return false;
        }
    }
    true
}

// A Utf8; the value is where its tag stands.
fn utf8(s: &[u8], q: usize) -> Result<Got<usize>, Fault>
    requires { q < length s.now }
    ensures { res result ≡ utf8_at s.now q }
{
    let n = items::num2(s, s.len(), Fault(Refusal::CutShort, q), q + 1)?;
    let b = items::skip(s.len(), Fault(Refusal::CutShort, q), n.val, n.at)?;
    if 255 < n.val {
        return Err(Fault(Refusal::Limit, q));
    }
    if text_ok(s, b.val, n.val) {
        return Ok(Got { val: q, at: b.at });
    }
    Err(Fault(Refusal::Constant, q))
}

// The bytes that an entry with this tag takes, if it is no Utf8.
fn entry_size(tag: usize) -> Option<usize>
    ensures { (sized result ≡ entry_size tag) × IfSome result (λ n. 0 < n) }
{
    match tag {
        7 => Some(3),
        3 | 9 | 10 | 12 => Some(5),
        _ => None,
    }
}

// The value is where its tag stands.
fn entry_at(s: &[u8], q: usize) -> Result<Got<usize>, Fault>
    ensures { res result ≡ entry_at s.now q }
{
    if s.len() <= q {
        return Err(Fault(Refusal::CutShort, q));
    }
    let tag = kit::byte(s, q);
    if tag == 1 {
        return utf8(s, q);
    }
    if let Some(size) = entry_size(tag) {
        return items::skip(s.len(), Fault(Refusal::CutShort, q), size, q);
    }
    Err(Fault(Refusal::Constant, q))
}

// The entries 1 .. n - 1; the position past them.
fn entries(s: &[u8], from: usize, n: usize, t: &mut [u8]) -> Result<usize, Fault>
    requires { (length s.now ≤ 65536) × (from ≤ length s.now) × (1 ≤ n) × (4 * n ≤ length t.old) }
    ensures { past (take n (words t.new)) result ≡ pre (take 1 (words t.old)) (many (entry_at s.now) (n - 1) from) }
{
    let mut q = from;
    for k in 1..n {
        let g = entry_at(s, q)?;
        kit::put_word(t, k, q as u32);
        q = g.at;
    }
    Ok(q)
}

// n bytes from `from` on, cut where the bundle ends.
pub fn cut(s: &[u8], from: usize, n: usize) -> &[u8]
    ensures { result.now ≡ part s.now from n }
{
    if s.len() < from {
        return &s[0..0];
    }
    let rest = &s[from..];
    if rest.len() < n {
        return rest;
    }
    &rest[..n]
}

// Where those bytes stand: a method's site is kept as positions.
pub fn cut_span(s: &[u8], from: usize, n: usize) -> Span
    ensures { IsText s.now result (part s.now from n) }
{
    if s.len() < from {
        return Span { start: 0, end: 0 };
    }
    if s.len() - from < n {
        return Span {
            start: from,
            end: s.len(),
        };
    }
    Span {
        start: from,
        end: from + n,
    }
}

// The entry whose tag stands at `tag`.
fn decode(s: &[u8], tag: u32) -> Entry<'_>
    ensures { constant_of result ≡ constant_at s.now tag }
{
    let q = tag as usize;
    let kind = kit::byte(s, q);
    let a = items::u2_at(s, q + 1);
    if kind == 1 {
        return Entry::Utf8(cut(s, q + 3, a));
    }
    if kind == 3 {
        return Entry::Integer(items::u4_at(s, q + 1) as u32);
    }
    if kind == 7 {
        return Entry::Class(a);
    }
    let b = items::u2_at(s, q + 3);
    if kind == 9 {
        return Entry::Field(a, b);
    }
    if kind == 10 {
        return Entry::Method(a, b);
    }
    if kind == 12 {
        return Entry::NameAndType(a, b);
    }
    Entry::Absent
}

// Entry i of the pool whose tags stand there.
pub fn entry_of<'a>(s: &'a [u8], tags: &[u8], i: usize) -> Entry<'a>
    ensures { constant_of result ≡ entry_in s.now tags.now i }
{
    if i == 0 {
        return Entry::Absent;
    }
    if i < tags.len() / 4 {
        return decode(s, kit::word(tags, i));
    }
    Entry::Absent
}

// Where the tag of entry i stands, past every byte where there is no such entry: a byte there is 0, so that callers test the tag alone.
fn place(tags: &[u8], i: usize) -> usize
    ensures { (s : List ℕ) → length s < 2 ^ 64 → constant_at s result ≡ entry_in s tags.now i }
{
    if i == 0 {
        return 18446744073709551615;
    }
    if i < tags.len() / 4 {
        return kit::word(tags, i) as usize;
    }
    18446744073709551615
}

pub fn is_utf8(s: &[u8], tags: &[u8], i: usize) -> bool
    ensures { result ≡ is_utf8 (entry_in s.now tags.now i) }
{
    kit::byte(s, place(tags, i)) == 1
}

pub fn is_class(s: &[u8], tags: &[u8], i: usize) -> bool
    ensures { result ≡ is_class (entry_in s.now tags.now i) }
{
    kit::byte(s, place(tags, i)) == 7
}

pub fn is_name_and_type(s: &[u8], tags: &[u8], i: usize) -> bool
    ensures { result ≡ is_name_and_type (entry_in s.now tags.now i) }
{
    kit::byte(s, place(tags, i)) == 12
}

// The text that entry i is, empty where it is none.
pub fn text_of<'a>(s: &'a [u8], tags: &[u8], i: usize) -> &'a [u8]
    ensures { result.now ≡ text (pool_in s.now tags.now) i }
{
    let q = place(tags, i);
    if kit::byte(s, q) == 1 {
        return cut(s, q + 3, items::u2_at(s, q + 1));
    }
    &s[0..0]
}

// The text that the Class i names, empty where it is no Class.
pub fn class_text_of<'a>(s: &'a [u8], tags: &[u8], i: usize) -> &'a [u8]
    ensures { result.now ≡ class_text (pool_in s.now tags.now) i }
{
    let q = place(tags, i);
    if kit::byte(s, q) == 7 {
        return text_of(s, tags, items::u2_at(s, q + 1));
    }
    &s[0..0]
}

// A number that has to name a Utf8.
pub fn utf8_index(s: &[u8], tags: &[u8], q: usize) -> Result<Got<usize>, Fault>
    ensures { res result ≡ utf8_index_at s.now (pool_in s.now tags.now) q }
{
    let i = items::u2(s, q)?;
    if is_utf8(s, tags, i.val) {
        return Ok(i);
    }
    Err(Fault(Refusal::Constant, q))
}

// Whether the text that entry i is starts an array's descriptor.
fn is_array_name(s: &[u8], tags: &[u8], i: usize) -> bool
    ensures { result ≡ is_array_name (text (pool_in s.now tags.now) i) }
{
    kit::byte(text_of(s, tags, i), 0) == 91
}

// this_class or super_class, whose number i stands at q and ends at e: a Class, and no array.
pub fn class_index(s: &[u8], tags: &[u8], q: usize, i: usize, e: usize) -> Result<Got<usize>, Fault>
    ensures { res result ≡ class_index_at s.now (pool_in s.now tags.now) q i e }
{
    let p = place(tags, i);
    if kit::byte(s, p) != 7 {
        return Err(Fault(Refusal::Constant, q));
    }
    if is_array_name(s, tags, items::u2_at(s, p + 1)) {
        return Err(Fault(Refusal::Malformed, q));
    }
    Ok(Got { val: i, at: e })
}

// The entries 1 .. n - 1 behind a zero for number 0.
fn all_tags(s: &[u8], from: usize, n: usize, t: &mut [u8]) -> Result<usize, Fault>
    requires { (length s.now ≤ 65536) × (from ≤ length s.now) × (1 ≤ n) × (4 * n ≤ length t.old) }
    ensures { past (take n (words t.new)) result ≡ tags_at s.now n from }
{
    kit::put_word(t, 0, 0);
    entries(s, from, n, t)
}

// What is wrong with a Class that names entry i.
fn name_fault(s: &[u8], tags: &[u8], i: usize) -> Option<Refusal>
    ensures { refused result ≡ name_fault (pool_in s.now tags.now) i }
{
    let q = place(tags, i);
    if kit::byte(s, q) != 1 {
        return Some(Refusal::Constant);
    }
    match descriptors::class_type(cut(s, q + 3, items::u2_at(s, q + 1)), 0) {
        Ok(_) => None,
        Err(fault) => Some(fault.0),
    }
}

// What is wrong with an entry that names two, of which each is of its kind or not.
fn pair_fault(first: bool, second: bool) -> Option<Refusal>
    ensures { refused result ≡ pair_fault first second }
{
    if first && second {
        return None;
    }
    Some(Refusal::Constant)
}

// What is wrong with entry i; its tag alone is asked, so that no text is looked up for it.
fn entry_fault(s: &[u8], tags: &[u8], i: usize) -> Option<Refusal>
    ensures { refused result ≡ entry_fault (pool_in s.now tags.now) i }
{
    let q = place(tags, i);
    let kind = kit::byte(s, q);
    if kind == 7 {
        return name_fault(s, tags, items::u2_at(s, q + 1));
    }
    if kind == 9 || kind == 10 {
        let class = is_class(s, tags, items::u2_at(s, q + 1));
        return pair_fault(class, is_name_and_type(s, tags, items::u2_at(s, q + 3)));
    }
    if kind == 12 {
        let name = is_utf8(s, tags, items::u2_at(s, q + 1));
        return pair_fault(name, is_utf8(s, tags, items::u2_at(s, q + 3)));
    }
    None
}

// The pool that is read and ends at `at`: its indices and the names of its classes.
fn checked(s: &[u8], tags: &[u8], at: usize) -> Result<usize, Fault>
    ensures { past (pool_in s.now tags.now) result ≡ checked_at (words tags.now) (pool_in s.now tags.now) at }
{
    let n = tags.len() / 4;
    for k in 0..n {
        if let Some(refusal) = entry_fault(s, tags, k) {
            return Err(Fault(refusal, kit::word(tags, k) as usize));
        }
    }
    Ok(at)
}

// The pool at q; t gets its table, as many words as its count, which is the answer's value.
pub fn pool(s: &[u8], q: usize, t: &mut [u8]) -> Result<Got<usize>, Fault>
    requires { (length s.now ≤ 65536) × (4096 ≤ length t.old) }
    ensures { (res_as (λ n. pool_in s.now (take (4 * n) t.new)) result ≡ pool_at s.now q) × IfOk result (λ g. g.val ≤ 1024) }
{
    let n = items::u2(s, q)?;
    if n.val == 0 {
        return Err(Fault(Refusal::Constant, q));
    }
    if 1024 < n.val {
        return Err(Fault(Refusal::Limit, q));
    }
    let z = all_tags(s, n.at, n.val, t)?;
    let at = checked(s, &t[..4 * n.val], z)?;
    Ok(Got { val: n.val, at })
}
