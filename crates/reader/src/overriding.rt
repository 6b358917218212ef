// A method and the one that it overrides, if there is one. The classes are those of the n blocks in t.
ghost use Rattle.std.specs.Prelude.{◌≡◌, true, ◌+◌, ◌*◌, ◌^◌, ◌<◌, ◌≤◌, length};
ghost use Rattle.reader.specs.BuiltIns.{first_class};
ghost use Rattle.reader.specs.Program.{class, method, program_of, method_sigs, lookup};
ghost use Rattle.reader.specs.Link.{agrees};
ghost use Rattle.classfiles.specs.Blocks.{block_size};
ghost use Rattle.reader.specs.Linked.{files_in, Parents};
ghost use Rattle.reader.specs.Prints.{Printed};
ghost use Rattle.reader.specs.MemberRows.{block_at, row_count};
ghost use Rattle.reader.specs.Lookup.{hit_of};

use crate::lookup::Hit;
use crate::{lookup, prints, signature};
use texts::items;

// Whether method m of class number c is static; no method is none.
pub fn is_static(s: &[u8], t: &[u8], n: usize, c: usize, m: usize) -> bool
    requires { (n ≤ 16) × (16 * block_size ≤ length t.now) }
    ensures { result ≡ (method (program_of (files_in s.now n t.now)) c m).static }
{
    if c < 11 {
        return false;
    }
    if 11 + n <= c {
        return false;
    }
    if m < signature::member_count(t, c - 11, true) {
        let q = signature::member_start(t, c - 11, true, m);
        return items::u2_at(s, q) == 9;
    }
    false
}

// The method of the same name and descriptor that is nearest above method j of class c.
fn found_above(s: &[u8], t: &[u8], n: usize, c: usize, j: usize) -> Option<Hit>
    requires { (n ≤ 16) × (c < n) × (16 * block_size ≤ length t.now) × (j < row_count (block_at t.now c) true) × (j < 2 ^ 32) × Parents s.now n t.now × Printed s.now n t.now }
    ensures { hit_of result ≡ lookup (program_of (files_in s.now n t.now)) method_sigs (method (program_of (files_in s.now n t.now)) (first_class + c) j).sig (class (program_of (files_in s.now n t.now)) (first_class + c)).parent }
{
    let x = signature::member_name(s, t, c, true, j);
    let y = signature::member_descriptor(s, t, c, true, j);
    let q = prints::print_at(t, c, true, j);
    let up = lookup::above(s, t, n, 11 + c);
    lookup::seek_by(s, t, n, up, true, x, y, q)
}

// Whether method j of class c is static exactly if the one above is.
pub fn agrees(s: &[u8], t: &[u8], n: usize, c: usize, j: usize) -> bool
    requires { (n ≤ 16) × (c < n) × (16 * block_size ≤ length t.now) × (j < row_count (block_at t.now c) true) × (j < 2 ^ 32) × Parents s.now n t.now × Printed s.now n t.now }
    ensures { result ≡ agrees (program_of (files_in s.now n t.now)) (method (program_of (files_in s.now n t.now)) (first_class + c) j).static (lookup (program_of (files_in s.now n t.now)) method_sigs (method (program_of (files_in s.now n t.now)) (first_class + c) j).sig (class (program_of (files_in s.now n t.now)) (first_class + c)).parent) }
{
    match found_above(s, t, n, c, j) {
        Some(h) => is_static(s, t, n, 11 + c, j) == is_static(s, t, n, h.class, h.index),
        None => true,
    }
}
