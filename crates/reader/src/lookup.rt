// Members from a class upward. The classes are those of the n blocks in t, by their numbers.
ghost use Rattle.std.specs.Prelude.{◌≡◌, ◌*◌, ◌≤◌, length};
ghost use Rattle.reader.specs.Program.{signature, class, program_of, lookup};
ghost use Rattle.classfiles.specs.Blocks.{block_size};
ghost use Rattle.reader.specs.Linked.{files_in, Parents};
ghost use Rattle.reader.specs.Prints.{print_of, Printed};
ghost use Rattle.reader.specs.Lookup.{sigs_of, hit_of, own_spot, built_in_spot};

use crate::{prints, signature};
use texts::names;

// Where a member is: the class that has it, and its number there.
#[derive(Clone, Copy, Debug, PartialEq, Eq)]
pub struct Hit {
    pub class: usize,
    pub index: usize,
}

// A built-in class has one method, `<init>()V`, and no field.
fn built_in_own(c: usize, method: bool, x: &[u8], y: &[u8]) -> Option<Hit>
    ensures { hit_of result ≡ built_in_spot method (signature x.now y.now) c }
{
    if method && names::same_text(b"<init>", x) && names::same_text(b"()V", y) {
        return Some(Hit { class: c, index: 0 });
    }
    None
}

// The member of name x and descriptor y, whose print is p, that class c itself has.
fn own_by(
    s: &[u8],
    t: &[u8],
    n: usize,
    c: usize,
    method: bool,
    x: &[u8],
    y: &[u8],
    p: u32,
) -> Option<Hit>
    requires { (n ≤ 16) × (16 * block_size ≤ length t.now) × Printed s.now n t.now × (p ≡ print_of (signature x.now y.now)) }
    ensures { hit_of result ≡ own_spot (program_of (files_in s.now n t.now)) (sigs_of method) (signature x.now y.now) c }
{
    if c < 11 {
        return built_in_own(c, method, x, y);
    }
    if c < 11 + n {
        let i = signature::first_same(s, t, c - 11, method, x, y, p);
        if i < signature::member_count(t, c - 11, method) {
            return Some(Hit { class: c, index: i });
        }
    }
    None
}

// The same, where its print is not at hand.
pub fn own(s: &[u8], t: &[u8], n: usize, c: usize, method: bool, x: &[u8], y: &[u8]) -> Option<Hit>
    requires { (n ≤ 16) × (16 * block_size ≤ length t.now) × Printed s.now n t.now }
    ensures { hit_of result ≡ own_spot (program_of (files_in s.now n t.now)) (sigs_of method) (signature x.now y.now) c }
{
    let p = prints::print(x, y);
    own_by(s, t, n, c, method, x, y, p)
}

// The parent of class c, 0 for a number that no class has.
pub fn above(s: &[u8], t: &[u8], n: usize, c: usize) -> usize
    requires { (n ≤ 16) × Parents s.now n t.now }
    ensures { result ≡ (class (program_of (files_in s.now n t.now)) c).parent }
{
    if c < 11 + n {
        return kit::word(t, 25728 + c) as usize;
    }
    0
}

// The first of name x and descriptor y, whose print is p, from class `from` upward.
pub fn seek_by(
    s: &[u8],
    t: &[u8],
    n: usize,
    from: usize,
    method: bool,
    x: &[u8],
    y: &[u8],
    p: u32,
) -> Option<Hit>
    requires { (n ≤ 16) × (16 * block_size ≤ length t.now) × Parents s.now n t.now × Printed s.now n t.now × (p ≡ print_of (signature x.now y.now)) }
    ensures { hit_of result ≡ lookup (program_of (files_in s.now n t.now)) (sigs_of method) (signature x.now y.now) from }
{
    let mut c = from;
    for _i in 0..11 + n {
        if let Some(h) = own_by(s, t, n, c, method, x, y, p) {
            return Some(h);
        }
        if c == 0 {
            return None;
        }
        c = above(s, t, n, c);
    }
    None
}

// The same, where its print is not at hand.
pub fn seek(
    s: &[u8],
    t: &[u8],
    n: usize,
    from: usize,
    method: bool,
    x: &[u8],
    y: &[u8],
) -> Option<Hit>
    requires { (n ≤ 16) × (16 * block_size ≤ length t.now) × Parents s.now n t.now × Printed s.now n t.now }
    ensures { hit_of result ≡ lookup (program_of (files_in s.now n t.now)) (sigs_of method) (signature x.now y.now) from }
{
    let p = prints::print(x, y);
    seek_by(s, t, n, from, method, x, y, p)
}
