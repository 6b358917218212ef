// Members by name and descriptor: the rows of one class's block.
ghost use Rattle.std.specs.Prelude.{◌≡◌, ◌+◌, ◌*◌, ◌^◌, ◌<◌, ◌≤◌, length};
ghost use Rattle.kit.specs.Scan.{first_not};
ghost use Rattle.kit.specs.Words.{word};
ghost use Rattle.texts.specs.Reading.{u2_at};
ghost use Rattle.classfiles.specs.Pool.{text};
ghost use Rattle.reader.specs.Program.{signature, index_of};
ghost use Rattle.classfiles.specs.Blocks.{block_size, pool_of};
ghost use Rattle.reader.specs.MemberRows.{block_at, rows_word, row_start, row_count, row_sig, row_sigs, other_sig, first_at};
ghost use Rattle.reader.specs.Prints.{print_of, prints_word, PrintedAt, RowPrints};

use crate::{blocks, prints, scan};
use classfiles::pool;
use texts::{items, names};

// The text that the number at p names.
pub fn text_at<'a>(s: &'a [u8], b: &[u8], p: usize) -> &'a [u8]
    ensures { result.now ≡ text (pool_of s.now b.now) (u2_at s.now p) }
{
    pool::text_of(s, blocks::tags(b), items::u2_at(s, p))
}

// Where the rows of methods or of fields start.
fn rows_word(method: bool) -> usize
    ensures { (result ≡ rows_word method) × (result ≤ 1224) }
{
    if method {
        return 1224;
    }
    1032
}

// How many rows of methods or of fields there are.
pub fn row_count(b: &[u8], method: bool) -> usize
    ensures { (result ≡ row_count b.now method) × (result < 2 ^ 32) }
{
    if method {
        return kit::word(b, 1028) as usize;
    }
    kit::word(b, 1027) as usize
}

// Where the member of row j starts in the bundle.
pub fn row_start(b: &[u8], method: bool, j: usize) -> usize
    requires { j < 2 ^ 32 }
    ensures { (result ≡ row_start b.now method j) × (result < 2 ^ 32) }
{
    let w = rows_word(method);
    kit::word(b, w + 6 * j) as usize
}

// Whether the member of row j has another name than x or another descriptor than y.
fn other_row(s: &[u8], b: &[u8], method: bool, j: usize, x: &[u8], y: &[u8]) -> bool
    requires { j < 2 ^ 32 }
    ensures { result ≡ other_sig s.now b.now method (signature x.now y.now) j }
{
    let q = row_start(b, method, j);
    if !names::same_text(text_at(s, b, q + 2), x) {
        return true;
    }
    !names::same_text(text_at(s, b, q + 4), y)
}

// The same, of a row whose print stands in w, where p is the print of x and y.
fn other_print(
    s: &[u8],
    b: &[u8],
    w: &[u8],
    method: bool,
    j: usize,
    x: &[u8],
    y: &[u8],
    p: u32,
) -> bool
    requires { (j < 2 ^ 32) × (word w.now j ≡ print_of (row_sig s.now b.now method j)) × (p ≡ print_of (signature x.now y.now)) }
    ensures { result ≡ other_sig s.now b.now method (signature x.now y.now) j }
{
    if kit::word(w, j) == p {
        return other_row(s, b, method, j, x, y);
    }
    true
}

// The first of the first n rows that has name x and descriptor y, or n; the prints of those rows are in w.
fn first_row(
    s: &[u8],
    b: &[u8],
    w: &[u8],
    n: usize,
    method: bool,
    x: &[u8],
    y: &[u8],
    p: u32,
) -> usize
    requires { (n < 2 ^ 32) × RowPrints s.now b.now method n w.now × (p ≡ print_of (signature x.now y.now)) }
    ensures { result ≡ first_not (other_sig s.now b.now method (signature x.now y.now)) n 0 }
{
    scan::first_not(n, |i| other_print(s, b, w, method, i, x, y, p))
}

// The same in block c: nothing is read there where no print is p.
fn first_of(
    s: &[u8],
    t: &[u8],
    c: usize,
    method: bool,
    n: usize,
    x: &[u8],
    y: &[u8],
    p: u32,
) -> usize
    requires { (c < 16) × PrintedAt s.now t.now c method × (n ≤ row_count (block_at t.now c) method) × (p ≡ print_of (signature x.now y.now)) }
    ensures { result ≡ first_not (other_sig s.now (block_at t.now c) method (signature x.now y.now)) n 0 }
{
    let w = prints::first_prints(t, c, method, n);
    if prints::has(w, p) {
        return first_row(s, blocks::block(t, c), w, n, method, x, y, p);
    }
    n
}

// How many members block c has.
pub fn member_count(t: &[u8], c: usize, method: bool) -> usize
    requires { (c < 16) × (16 * block_size ≤ length t.now) }
    ensures { (result ≡ row_count (block_at t.now c) method) × (result < 2 ^ 32) }
{
    row_count(blocks::block(t, c), method)
}

// The first member of block c of name x and descriptor y, whose print is p, or as many as there are.
pub fn first_same(s: &[u8], t: &[u8], c: usize, method: bool, x: &[u8], y: &[u8], p: u32) -> usize
    requires { (c < 16) × PrintedAt s.now t.now c method × (p ≡ print_of (signature x.now y.now)) }
    ensures { result ≡ index_of (signature x.now y.now) (row_sigs s.now (block_at t.now c) method) }
{
    let n = member_count(t, c, method);
    first_of(s, t, c, method, n, x, y, p)
}

// Where member j of block c starts in the bundle.
pub fn member_start(t: &[u8], c: usize, method: bool, j: usize) -> usize
    requires { (c < 16) × (16 * block_size ≤ length t.now) × (j < 2 ^ 32) }
    ensures { (result ≡ row_start (block_at t.now c) method j) × (result < 2 ^ 32) }
{
    row_start(blocks::block(t, c), method, j)
}

pub fn member_name<'a>(s: &'a [u8], t: &[u8], c: usize, method: bool, j: usize) -> &'a [u8]
    requires { (c < 16) × (16 * block_size ≤ length t.now) × (j < 2 ^ 32) }
    ensures { result.now ≡ (row_sig s.now (block_at t.now c) method j).name }
{
    let b = blocks::block(t, c);
    text_at(s, b, row_start(b, method, j) + 2)
}

pub fn member_descriptor<'a>(s: &'a [u8], t: &[u8], c: usize, method: bool, j: usize) -> &'a [u8]
    requires { (c < 16) × (16 * block_size ≤ length t.now) × (j < 2 ^ 32) }
    ensures { result.now ≡ (row_sig s.now (block_at t.now c) method j).descriptor }
{
    let b = blocks::block(t, c);
    text_at(s, b, row_start(b, method, j) + 4)
}

// Whether no earlier member of block c has member j's name and descriptor, by texts where a print is the same.
fn is_first_text(s: &[u8], t: &[u8], c: usize, method: bool, j: usize, p: u32) -> bool
    requires { (c < 16) × PrintedAt s.now t.now c method × (j < row_count (block_at t.now c) method) × (p ≡ word t.now (prints_word c method + j)) }
    ensures { result ≡ first_at s.now (block_at t.now c) method j }
{
    let x = member_name(s, t, c, method, j);
    let y = member_descriptor(s, t, c, method, j);
    first_of(s, t, c, method, j, x, y, p) == j
}

pub fn is_first(s: &[u8], t: &[u8], c: usize, method: bool, j: usize) -> bool
    requires { (c < 16) × PrintedAt s.now t.now c method × (j < row_count (block_at t.now c) method) }
    ensures { result ≡ first_at s.now (block_at t.now c) method j }
{
    let p = prints::print_at(t, c, method, j);
    if prints::has(prints::first_prints(t, c, method, j), p) {
        return is_first_text(s, t, c, method, j, p);
    }
    true
}
