// What later phases ask of the blocks: pool entries, fields' types and methods' rows, by a class's place in the bundle; an object's size.
ghost use Rattle.std.specs.Prelude.{◌≡◌, false, ◌*◌, ◌+◌, ◌^◌, ◌<◌, ◌≤◌, length, get_or};
ghost use Rattle.kit.specs.Words.{word};
ghost use Rattle.classfiles.specs.Pool.{entry, text};
ghost use Rattle.classfiles.specs.Table.{constant_of};
ghost use Rattle.reader.specs.BuiltIns.{first_class};
ghost use Rattle.reader.specs.Program.{no_field, class, program_of, own_types, layout};
ghost use Rattle.classfiles.specs.Blocks.{block_size, method_rows, pool_of};
ghost use Rattle.reader.specs.Linked.{parents_end, files_in, Parents};
ghost use Rattle.reader.specs.MemberRows.{block_at, row_count};
ghost use Rattle.reader.specs.TypeCodes.{desc_of};
ghost use Rattle.reader.specs.Access.{Limited};

use crate::{blocks, lookup, signature, types};
use classfiles::pool;
use classfiles::pool::Entry;

// Entry i of class c's pool.
pub fn entry_in<'a>(s: &'a [u8], t: &[u8], c: usize, i: usize) -> Entry<'a>
    requires { (c < 16) × (16 * block_size ≤ length t.now) }
    ensures { constant_of result ≡ entry (pool_of s.now (block_at t.now c)) i }
{
    pool::entry_of(s, blocks::tags(blocks::block(t, c)), i)
}

// The text that it is.
pub fn text_in<'a>(s: &'a [u8], t: &[u8], c: usize, i: usize) -> &'a [u8]
    requires { (c < 16) × (16 * block_size ≤ length t.now) }
    ensures { result.now ≡ text (pool_of s.now (block_at t.now c)) i }
{
    pool::text_of(s, blocks::tags(blocks::block(t, c)), i)
}

// Where the tag of that entry stands in the bundle.
pub fn tag_in(t: &[u8], c: usize, i: usize) -> usize
    requires { (c < 16) × (i < 1024) }
    ensures { (result ≡ word (block_at t.now c) i) × (result < 2 ^ 32) }
{
    kit::word(t, 1608 * c + i) as usize
}

// The code of the type of field j of class c.
pub fn field_code(s: &[u8], t: &[u8], n: usize, c: usize, j: usize) -> usize
    requires { (n ≤ 16) × (c < n) × (parents_end ≤ length t.now) × (j < row_count (block_at t.now c) false) × (j < 2 ^ 32) }
    ensures { (desc_of result ≡ (get_or (class (program_of (files_in s.now n t.now)) (first_class + c)).fields j no_field).type) × (result < 256) }
{
    let x = signature::member_descriptor(s, t, c, false, j);
    types::field_type(s, &t[0..102912], n, x)
}

// How many fields class number c has itself.
fn own_fields(s: &[u8], t: &[u8], n: usize, c: usize) -> usize
    requires { (n ≤ 16) × (16 * block_size ≤ length t.now) × Limited n t.now }
    ensures { (result ≡ length (own_types (class (program_of (files_in s.now n t.now)) c))) × (result ≤ 32) }
{
    if c < 11 {
        return 0;
    }
    if c < 11 + n {
        return signature::member_count(t, c - 11, false);
    }
    0
}

// How many fields an object of class number `from` has, its supers' with them.
pub fn layout_size(s: &[u8], t: &[u8], n: usize, from: usize) -> usize
    requires { (n ≤ 16) × (16 * block_size ≤ length t.now) × Parents s.now n t.now × Limited n t.now }
    ensures { (result ≡ length (layout (program_of (files_in s.now n t.now)) from)) × (result ≤ 864) }
{
    let mut c = from;
    let mut total = 0;
    for _i in 0..11 + n {
        if c == 0 {
            return total;
        }
        total += own_fields(s, t, n, c);
        c = lookup::above(s, t, n, c);
    }
    total
}

// Word k of the row of method m of class c.
pub fn method_word(t: &[u8], c: usize, m: usize, k: usize) -> usize
    requires { (c < 16) × (m < 64) × (k < 6) }
    ensures { (result ≡ word (block_at t.now c) (method_rows + 6 * m + k)) × (result < 2 ^ 32) }
{
    kit::word(t, 1608 * c + (1224 + 6 * m + k)) as usize
}
