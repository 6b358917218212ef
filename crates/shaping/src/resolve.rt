// What code names, found once: a word for each pool entry of each class.
ghost use Rattle.std.specs.Prelude.{◌≡◌, IfSome, true, false, ◌+◌, ◌*◌, ◌^◌, ◌<◌, ◌≤◌, length, take, drop};
ghost use Rattle.kit.specs.Words.{word};
ghost use Rattle.texts.specs.Reading.{u2_at};
ghost use Rattle.classfiles.specs.Pool.{class_at, entry};
ghost use Rattle.reader.specs.Program.{signature, method, program_of, is_constructor};
ghost use Rattle.classfiles.specs.Blocks.{pool_of};
ghost use Rattle.reader.specs.Linked.{parents_end, files_in, Parents};
ghost use Rattle.reader.specs.MemberRows.{block_at};
ghost use Rattle.reader.specs.Prints.{Printed};
ghost use Rattle.reader.specs.Lookup.{hit_of};
ghost use Rattle.reader.specs.Access.{Limited};
ghost use Rattle.reader.specs.Whole.{Tables};
ghost use Rattle.rules.specs.Resolve.{class_entry, with_signature, method_found, field_in, method_in};
ghost use Rattle.rules.specs.ResolvedWords.{word_of};
ghost use Rattle.rules.specs.Handlers.{class_in};
ghost use Rattle.shaping.specs.Located.{Prepared};
ghost use Rattle.shaping.specs.Resolving.{type_as, member_in, referred, type_word, field_word, method_word, Named, Classed, Fills, Around, Blanked, Filled};

use classfiles::pool::Entry;
use reader::lookup::Hit;
use reader::{access, lookup, overriding, types as codes};
use rules::decode;
use texts::{items, names};

// The type that the Class of name i in class c's pool names: its code, where it is known.
fn class_code(s: &[u8], t: &[u8], n: usize, c: usize, i: usize) -> Option<usize>
    requires { (n ≤ 16) × (c < n) × (parents_end ≤ length t.now) }
    ensures { (type_as result ≡ class_entry (program_of (files_in s.now n t.now)) (pool_of s.now (block_at t.now c)) (class_at i)) × IfSome result (λ k. k < 256) }
{
    let x = access::text_in(s, t, c, i);
    let Ok(d) = codes::class_type(s, &t[0..102912], n, x) else {
        return None;
    };
    if d.val == 248 {
        return None;
    }
    if codes::is_known(n, d.val) {
        return Some(d.val);
    }
    None
}

fn field_bits(code: usize, named: usize, owner: usize, slot: usize) -> u32
    requires { (code < 256) × (named < 32) × (owner < 32) × (slot < 1024) }
    ensures { result ≡ field_word code named owner slot }
{
    (3 + 8 * code + 2048 * named + 65536 * owner + 2097152 * slot) as u32
}

// The field of name x and descriptor y, from class `named` upward.
fn field_word(s: &[u8], t: &[u8], n: usize, named: usize, x: &[u8], y: &[u8]) -> u32
    requires { (n ≤ 16) × (named < 32) × (parents_end ≤ length t.now) × Parents s.now n t.now × Limited n t.now × Printed s.now n t.now }
    ensures { Named s.now (program_of (files_in s.now n t.now)) (field_in (program_of (files_in s.now n t.now)) (signature x.now y.now) named) result }
{
    let Some(r) = lookup::seek(s, t, n, named, false, x, y) else {
        return 0;
    };
    let code = access::field_code(s, t, n, r.class - 11, r.index);
    let up = lookup::above(s, t, n, r.class);
    let size = access::layout_size(s, t, n, up);
    field_bits(code, named, r.class, size + r.index)
}

fn method_bits(named: usize, owner: usize, index: usize, fixed: bool, init: bool) -> u32
    requires { (named < 32) × (owner < 32) × (index < 64) }
    ensures { result ≡ method_word named owner index fixed init }
{
    (4 + 8 * named
        + 256 * owner
        + 8192 * index
        + 524288 * usize::from(fixed)
        + 1048576 * usize::from(init)) as u32
}

// A method, if one was found, a constructor or not.
fn hit_word(s: &[u8], t: &[u8], n: usize, named: usize, r: Option<Hit>, init: bool) -> u32
    requires { (n ≤ 16) × (named < 32) × (parents_end ≤ length t.now) × IfSome r (λ h. (h.class < 32) × (h.index < 64) × (is_constructor (method (program_of (files_in s.now n t.now)) h.class h.index) ≡ init)) }
    ensures { Named s.now (program_of (files_in s.now n t.now)) (method_found named (hit_of r)) result }
{
    let Some(h) = r else {
        return 0;
    };
    let fixed = overriding::is_static(s, t, n, h.class, h.index);
    method_bits(named, h.class, h.index, fixed, init)
}

// The method of name x and descriptor y, from class `named` upward; `<init>` in the class itself.
fn method_word(s: &[u8], t: &[u8], n: usize, named: usize, x: &[u8], y: &[u8]) -> u32
    requires { (n ≤ 16) × (named < 32) × (parents_end ≤ length t.now) × Parents s.now n t.now × Limited n t.now × Printed s.now n t.now }
    ensures { Named s.now (program_of (files_in s.now n t.now)) (method_in (program_of (files_in s.now n t.now)) (signature x.now y.now) named) result }
{
    if names::is_init(x) {
        let r = lookup::own(s, t, n, named, true, x, y);
        return hit_word(s, t, n, named, r, true);
    }
    let r = lookup::seek(s, t, n, named, true, x, y);
    hit_word(s, t, n, named, r, false)
}

// The member whose name and descriptor entry j of class c's pool gives.
fn member_word(s: &[u8], t: &[u8], n: usize, c: usize, named: usize, j: usize, method: bool) -> u32
    requires { (n ≤ 16) × (c < n) × (named < 32) × (parents_end ≤ length t.now) × Parents s.now n t.now × Limited n t.now × Printed s.now n t.now }
    ensures { Named s.now (program_of (files_in s.now n t.now)) (with_signature (pool_of s.now (block_at t.now c)) (entry (pool_of s.now (block_at t.now c)) j) (member_in (program_of (files_in s.now n t.now)) method named)) result }
{
    let Entry::NameAndType(name, descriptor) = access::entry_in(s, t, c, j) else {
        return 0;
    };
    let x = access::text_in(s, t, c, name);
    let y = access::text_in(s, t, c, descriptor);
    if method {
        return method_word(s, t, n, named, x, y);
    }
    field_word(s, t, n, named, x, y)
}

// The class that entry j of class c's pool names, by its word; 31 where there is none. No Option: a word can give 31 too, so that the test below 31 stays.
fn class_named(t: &[u8], c: usize, j: usize) -> usize
    ensures { (result ≡ class_in 31 (word_of t.now c j)) × (result < 32) }
{
    let w = decode::named_word(t, c, j);
    if w % 64 == 2 {
        return (w / 64 % 32) as usize;
    }
    31
}

// A field or method whose tag stands at q: a class, then a name and a descriptor.
fn reference(s: &[u8], t: &[u8], n: usize, c: usize, q: usize, method: bool) -> u32
    requires { (n ≤ 16) × (c < n) × (q < 2 ^ 32) × (parents_end ≤ length t.now) × Parents s.now n t.now × Limited n t.now × Printed s.now n t.now × Classed s.now n t.now }
    ensures { Named s.now (program_of (files_in s.now n t.now)) (referred (program_of (files_in s.now n t.now)) (pool_of s.now (block_at t.now c)) method (u2_at s.now (q + 1)) (u2_at s.now (q + 3))) result }
{
    let named = class_named(t, c, items::u2_at(s, q + 1));
    if named < 31 {
        return member_word(s, t, n, c, named, items::u2_at(s, q + 3), method);
    }
    0
}

// The second pass at entry i of class c's pool: members.
fn referred_word(s: &[u8], t: &[u8], n: usize, c: usize, i: usize) -> u32
    requires { (n ≤ 16) × (c < n) × (0 < i) × (i < 1024) × (i < word t.now (1608 * c + 1025)) × (parents_end ≤ length t.now) × Parents s.now n t.now × Limited n t.now × Printed s.now n t.now × Classed s.now n t.now }
    ensures { Fills s.now (program_of (files_in s.now n t.now)) (pool_of s.now (block_at t.now c)) true (entry (pool_of s.now (block_at t.now c)) i) result }
{
    let q = access::tag_in(t, c, i);
    let tag = kit::byte(s, q);
    if tag == 9 {
        return reference(s, t, n, c, q, false);
    }
    if tag == 10 {
        return reference(s, t, n, c, q, true);
    }
    0
}

fn type_bits(d: Option<usize>) -> u32
    requires { IfSome d (λ k. k < 256) }
    ensures { result ≡ type_word d }
{
    match d {
        Some(k) => (2 + 8 * k) as u32,
        None => 0,
    }
}

// The first pass at entry i of class c's pool: numbers and types.
fn own_word(s: &[u8], t: &[u8], n: usize, c: usize, i: usize) -> u32
    requires { (length s.now ≤ 65536) × (n ≤ 16) × (c < n) × (0 < i) × (i < 1024) × (i < word t.now (1608 * c + 1025)) × (parents_end ≤ length t.now) }
    ensures { Fills s.now (program_of (files_in s.now n t.now)) (pool_of s.now (block_at t.now c)) false (entry (pool_of s.now (block_at t.now c)) i) result }
{
    let q = access::tag_in(t, c, i);
    let tag = kit::byte(s, q);
    if tag == 3 {
        return (1 + 8 * q) as u32;
    }
    if tag == 7 {
        return type_bits(class_code(s, t, n, c, items::u2_at(s, q + 1)));
    }
    0
}

fn entry_word(s: &[u8], t: &[u8], n: usize, c: usize, i: usize, members: bool) -> u32
    requires { (length s.now ≤ 65536) × (n ≤ 16) × (c < n) × (0 < i) × (i < 1024) × (i < word t.now (1608 * c + 1025)) × (parents_end ≤ length t.now) × Parents s.now n t.now × Limited n t.now × Printed s.now n t.now × (members ≡ true → Classed s.now n t.now) }
    ensures { Fills s.now (program_of (files_in s.now n t.now)) (pool_of s.now (block_at t.now c)) members (entry (pool_of s.now (block_at t.now c)) i) result }
{
    if members {
        return referred_word(s, t, n, c, i);
    }
    own_word(s, t, n, c, i)
}

// A word that is not 0 is written.
fn fill(s: &[u8], t: &mut [u8], n: usize, c: usize, i: usize, members: bool)
    requires { (length s.now ≤ 65536) × (n ≤ 16) × (c < n) × (0 < i) × (i < 1024) × (i < word t.old (1608 * c + 1025)) × (168576 ≤ length t.old) × Parents s.now n t.old × Limited n t.old × Printed s.now n t.old × Filled s.now n members (1024 * c + i) t.old }
    ensures { Around t.old t.new × Filled s.now n members (1024 * c + (i + 1)) t.new }
{
    let w = entry_word(s, t, n, c, i, members);
    if w == 0 {
        return;
    }
    kit::put_word(t, 25760 + 1024 * c + i, w);
}

// A pass over the entries of class c.
fn class_entries(s: &[u8], t: &mut [u8], n: usize, c: usize, members: bool)
    requires { (length s.now ≤ 65536) × (n ≤ 16) × (c < n) × (168576 ≤ length t.old) × Parents s.now n t.old × Limited n t.old × Printed s.now n t.old × Filled s.now n members (1024 * c) t.old }
    ensures { Around t.old t.new × Filled s.now n members (1024 * (c + 1)) t.new }
{
    let e = kit::word(t, 1608 * c + 1025) as usize;
    for i in 1..e {
        fill(s, t, n, c, i, members);
    }
}

fn entries(s: &[u8], t: &mut [u8], n: usize, members: bool)
    requires { (length s.now ≤ 65536) × (n ≤ 16) × (168576 ≤ length t.old) × Parents s.now n t.old × Limited n t.old × Printed s.now n t.old × Filled s.now n members 0 t.old }
    ensures { Around t.old t.new × Filled s.now n members (1024 * n) t.new }
{
    for c in 0..n {
        class_entries(s, t, n, c, members);
    }
}

fn clear_words(t: &mut [u8], n: usize)
    requires { (n ≤ 16) × (168576 ≤ length t.old) }
    ensures { Around t.old t.new × Blanked n t.new }
{
    kit::clear(&mut t[103040..103040 + 4096 * n]);
}

// After phases A and B: all that later phases ask of the scratch stands in it. Members come last, when their classes have words.
pub fn prepare(s: &[u8], t: &mut [u8], n: usize)
    requires { (168576 ≤ length t.old) × Tables s.now n t.old × Printed s.now n t.old }
    ensures { (take 103040 t.new ≡ take 103040 t.old) × (drop 168576 t.new ≡ drop 168576 t.old) × Prepared s.now n t.new }
{
    clear_words(t, n);
    entries(s, t, n, false);
    entries(s, t, n, true);
}
