// Linking: classes by name, supers as numbers, chains. The classes are those of the n blocks in t.
ghost use Rattle.std.specs.Prelude.{ℕ, unwrap_or, IfSome, ◌≡◌, ◌+◌, ◌-◌, ◌*◌, ◌<◌, ◌≤◌, map, length, take};
ghost use Rattle.kit.specs.Words.{word};
ghost use Rattle.texts.specs.Reading.{u2_at};
ghost use Rattle.classfiles.specs.Pool.{class_text};
ghost use Rattle.classfiles.specs.Blocks.{block_size, start_word, pool_word, this_word, pool_of, class_in, classes_in};
ghost use Rattle.reader.specs.BuiltIns.{first_class};
ghost use Rattle.reader.specs.Program.{number_in, class_names, class, program_of};
ghost use Rattle.kit.specs.Scan.{first_not};
ghost use Rattle.reader.specs.Chains.{super_as, unique_at, known_at, built_in_parent, reach_in, rooted_at};
ghost use Rattle.reader.specs.Linked.{parents_at, parents_end, Parents, ClassesLinked};
ghost use Rattle.reader.specs.Numbers.{built_in_names, bundle_names, other_name};

use crate::{blocks, scan};
use classfiles::pool;
use texts::faults::Refusal;
use texts::{items, names};

// The name of the class whose block is b.
fn name_in<'a>(s: &'a [u8], b: &[u8]) -> &'a [u8]
    ensures { result.now ≡ (class_in s.now b.now).name }
{
    let p = kit::word(b, 1026) as usize;
    pool::class_text_of(s, blocks::tags(b), items::u2_at(s, p))
}

// Whether class c has another name than x.
fn other_name(s: &[u8], t: &[u8], c: usize, x: &[u8]) -> bool
    requires { (c < 16) × (16 * block_size ≤ length t.now) }
    ensures { result ≡ other_name s.now t.now x.now c }
{
    !names::same_text(name_in(s, blocks::block(t, c)), x)
}

// The bundle's first class of name x, n where there is none.
fn find(s: &[u8], t: &[u8], n: usize, x: &[u8]) -> usize
    requires { (n ≤ 16) × (16 * block_size ≤ length t.now) }
    ensures { (result ≡ number_in (bundle_names (classes_in s.now t.now n)) x.now) × (result ≤ n) }
{
    scan::first_not(n, |i| other_name(s, t, i, x))
}

// The names of the built-in classes, by their numbers.
const BUILT_INS: [&[u8]; 11] = [
    b"java/lang/Object",
    b"java/lang/Throwable",
    b"java/lang/Exception",
    b"java/lang/RuntimeException",
    b"java/lang/ArithmeticException",
    b"java/lang/ArrayStoreException",
    b"java/lang/ClassCastException",
    b"java/lang/IndexOutOfBoundsException",
    b"java/lang/ArrayIndexOutOfBoundsException",
    b"java/lang/NegativeArraySizeException",
    b"java/lang/NullPointerException",
];

// The number of the first of ns that is x, or how many there are.
fn number_of(ns: &[&[u8]], x: &[u8]) -> usize
    ensures { result ≡ number_in (map (λ t. t.now) ns.now) x.now }
{
    for (i, name) in ns.iter().enumerate() {
        if names::same_text(name, x) {
            return i;
        }
    }
    ns.len()
}

// The built-in class of name x, 11 where there is none.
fn built_in(x: &[u8]) -> usize
    ensures { result ≡ number_in built_in_names x.now }
{
    number_of(&BUILT_INS, x)
}

// The class of name x, 11 + n where there is none. No Option: that is `number_in`'s answer, and the base of a type whose class is not known.
pub fn number(s: &[u8], t: &[u8], n: usize, x: &[u8]) -> usize
    requires { (n ≤ 16) × (16 * block_size ≤ length t.now) }
    ensures { (result ≡ number_in (class_names (classes_in s.now t.now n)) x.now) × (result ≤ first_class + n) }
{
    let k = built_in(x);
    if k < 11 {
        return k;
    }
    11 + find(s, t, n, x)
}

// Whether no built-in and no earlier class has class c's name.
fn is_unique(s: &[u8], t: &[u8], n: usize, c: usize) -> bool
    requires { (n ≤ 16) × (c < 16) × (16 * block_size ≤ length t.now) }
    ensures { result ≡ unique_at s.now t.now n c }
{
    number(s, t, n, name_in(s, blocks::block(t, c))) == 11 + c
}

fn super_index(s: &[u8], b: &[u8]) -> usize
    ensures { result ≡ u2_at s.now (word b.now this_word + 2) }
{
    let p = kit::word(b, 1026) as usize;
    items::u2_at(s, p + 2)
}

// The number of class c's super, if super_class is not 0.
fn super_number(s: &[u8], t: &[u8], n: usize, c: usize) -> Option<usize>
    requires { (n ≤ 16) × (c < 16) × (16 * block_size ≤ length t.now) }
    ensures { ((none : ℕ) → unwrap_or result none ≡ super_as s.now t.now n none c) × IfSome result (λ k. k ≤ 27) }
{
    let b = blocks::block(t, c);
    let i = super_index(s, b);
    if i == 0 {
        return None;
    }
    let x = pool::class_text_of(s, blocks::tags(b), i);
    Some(number(s, t, n, x))
}

fn is_known(s: &[u8], t: &[u8], n: usize, c: usize) -> bool
    requires { (n ≤ 16) × (c < 16) × (16 * block_size ≤ length t.now) }
    ensures { result ≡ known_at s.now t.now n c }
{
    match super_number(s, t, n, c) {
        Some(k) => k < 11 + n,
        None => false,
    }
}

// The lowest class whose name an earlier one has, or n.
fn first_double(s: &[u8], t: &[u8], n: usize) -> usize
    requires { (n ≤ 16) × (16 * block_size ≤ length t.now) }
    ensures { result ≡ first_not (unique_at s.now t.now n) n 0 }
{
    scan::first_not(n, |i| is_unique(s, t, n, i))
}

// The lowest class whose super is zero or unknown, or n.
fn first_unknown(s: &[u8], t: &[u8], n: usize) -> usize
    requires { (n ≤ 16) × (16 * block_size ≤ length t.now) }
    ensures { result ≡ first_not (known_at s.now t.now n) n 0 }
{
    scan::first_not(n, |i| is_known(s, t, n, i))
}

fn built_in_parent(c: usize) -> usize
    ensures { (result ≡ built_in_parent c) × (result < 8) }
{
    if c < 2 {
        return 0;
    }
    if c == 2 {
        return 1;
    }
    if c == 3 {
        return 2;
    }
    if c == 8 {
        return 7;
    }
    3
}

// The parent of class number c.
fn parent(s: &[u8], t: &[u8], n: usize, c: usize) -> usize
    requires { (n ≤ 16) × (c < first_class + n) × (16 * block_size ≤ length t.now) }
    ensures { (result ≡ (class (program_of (classes_in s.now t.now n)) c).parent) × (result ≤ 27) }
{
    if c < 11 {
        return built_in_parent(c);
    }
    super_number(s, t, n, c - 11).unwrap_or(0)
}

// Whether number `from` reaches Object by at most n parents, of which u has a word a class.
fn reaches(u: &[u8], from: usize, n: usize) -> bool
    ensures { result ≡ reach_in u.now n from }
{
    let mut c = from;
    for _i in 0..n {
        if c == 0 {
            return true;
        }
        c = kit::word(u, c) as usize;
    }
    c == 0
}

fn is_rooted(u: &[u8], n: usize, c: usize) -> bool
    requires { (n ≤ 16) × (c < 16) }
    ensures { result ≡ rooted_at u.now n c }
{
    reaches(u, 11 + c, 11 + n)
}

// The lowest class whose chain misses Object, or n.
fn first_cut(u: &[u8], n: usize) -> usize
    requires { n ≤ 16 }
    ensures { result ≡ first_not (rooted_at u.now n) n 0 }
{
    scan::first_not(n, |i| is_rooted(u, n, i))
}

// The parent's number of each class, the built-in ones first, a word each behind the blocks.
fn parents(s: &[u8], t: &mut [u8], n: usize)
    requires { (n ≤ 16) × (parents_end ≤ length t.old) }
    ensures { (take parents_at t.new ≡ take parents_at t.old) × Parents s.now n t.new }
{
    for c in 0..11 + n {
        let p = parent(s, &t[0..102912], n, c);
        kit::put_word(t, 25728 + c, p as u32);
    }
}

// What is wrong, in which class, and its place in the bundle.
#[derive(Clone, Copy, Debug, PartialEq, Eq)]
pub struct Refused {
    pub refusal: Refusal,
    pub class: usize,
    pub place: usize,
}

// Class c is refused at its first byte.
fn refuse(t: &[u8], refusal: Refusal, c: usize) -> Refused
    requires { c < 16 }
    ensures { (result.refusal ≡ refusal) × (result.class ≡ c) × (result.place ≡ word t.now (1608 * c + start_word)) }
{
    Refused {
        refusal,
        class: c,
        place: kit::word(t, 1608 * c + 1024) as usize,
    }
}

// Names, supers and chains; the parents' numbers are left behind the blocks.
pub fn classes(s: &[u8], t: &mut [u8], n: usize) -> Result<(), Refused>
    requires { (n ≤ 16) × (parents_end ≤ length t.old) }
    ensures { ClassesLinked s.now n result t.old t.new }
{
    let i = first_double(s, &t[0..102912], n);
    if i < n {
        return Err(refuse(t, Refusal::Twice, i));
    }
    let j = first_unknown(s, &t[0..102912], n);
    if j < n {
        return Err(refuse(t, Refusal::Missing, j));
    }
    parents(s, t, n);
    let k = first_cut(&t[102912..102912 + 4 * (11 + n)], n);
    if k < n {
        return Err(refuse(t, Refusal::Missing, k));
    }
    Ok(())
}
