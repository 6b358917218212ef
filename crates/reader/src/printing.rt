// The prints of all members, written once before linking's pass over them.
ghost use Rattle.std.specs.Prelude.{◌≡◌, ◌*◌, ◌^◌, ◌<◌, ◌≤◌, length};
ghost use Rattle.classfiles.specs.Blocks.{block_size};
ghost use Rattle.reader.specs.MemberRows.{block_at, row_count, row_sig};
ghost use Rattle.reader.specs.Prints.{print_of, prints_end, FewRows, RowsTo, AllPrinted};

use crate::{prints, signature};

fn member_print(s: &[u8], t: &[u8], c: usize, method: bool, j: usize) -> u32
    requires { (c < 16) × (16 * block_size ≤ length t.now) × (j < 2 ^ 32) }
    ensures { result ≡ print_of (row_sig s.now (block_at t.now c) method j) }
{
    let x = signature::member_name(s, t, c, method, j);
    let y = signature::member_descriptor(s, t, c, method, j);
    prints::print(x, y)
}

// The fields or the methods of class c.
fn print_rows(s: &[u8], t: &mut [u8], c: usize, method: bool)
    requires { (c < 16) × (prints_end ≤ length t.old) × (row_count (block_at t.old c) method ≤ 64) }
    ensures { RowsTo s.now c method (row_count (block_at t.old c) method) t.old t.new }
{
    let n = signature::member_count(t, c, method);
    let w = prints::first_word(c, method);
    for j in 0..n {
        let p = member_print(s, t, c, method, j);
        kit::put_word(t, w + j, p);
    }
}

// The members of all n classes.
pub fn print_all(s: &[u8], t: &mut [u8], n: usize)
    requires { (n ≤ 16) × (prints_end ≤ length t.old) × FewRows n t.old }
    ensures { AllPrinted s.now n t.old t.new }
{
    for c in 0..n {
        print_rows(s, t, c, false);
        print_rows(s, t, c, true);
    }
}
