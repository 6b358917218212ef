// Where the parts of a method stand in the bundle.
ghost use Rattle.std.specs.Prelude.{◌≡◌, true, ◌*◌, ◌<◌, ◌≤◌, length};
ghost use Rattle.classfiles.specs.Blocks.{block_size};
ghost use Rattle.reader.specs.MemberRows.{block_at, row_count};
ghost use Rattle.rules.specs.Sites.{KnowsInit};
ghost use Rattle.shaping.specs.Located.{Prepared, PartsOf, Located};

use classfiles::pool::cut_span;
use reader::{access, overriding, signature};
use rules::site::Site;
use texts::{items, names};

// Of a method with one Code; all zero otherwise. No Option: a site has those zeros too.
#[derive(Clone, Copy)]
pub struct Parts {
    pub stack: usize,
    pub locals: usize,
    pub start: usize,
    pub end: usize,
    pub table: usize,
    pub entries: usize,
    pub tables: usize,
    pub frames: usize,
    pub last: usize,
}

fn parts_of(s: &[u8], t: &[u8], c: usize, m: usize) -> Parts
    requires { (c < 16) × (m < 64) }
    ensures { PartsOf s.now (block_at t.now c) m result }
{
    let codes = access::method_word(t, c, m, 1);
    if !(codes == 1) {
        return Parts {
            stack: 0,
            locals: 0,
            start: 0,
            end: 0,
            table: 0,
            entries: 0,
            tables: 0,
            frames: 0,
            last: 0,
        };
    }
    let q = access::method_word(t, c, m, 2);
    let size = items::u4_at(s, q + 4);
    let code = cut_span(s, q + 8, size);
    let table = q + 8 + size;
    let tables = access::method_word(t, c, m, 3);
    let a = access::method_word(t, c, m, 4);
    let k = access::method_word(t, c, m, 5);
    let frames = cut_span(s, a, k);
    Parts {
        stack: items::u2_at(s, q),
        locals: items::u2_at(s, q + 2),
        start: code.start,
        end: code.end,
        table: table + 2,
        entries: items::u2_at(s, table),
        tables,
        frames: frames.start,
        last: frames.end,
    }
}

// Method m of class c, of the n classes; whether it is a constructor as told.
fn site_as(s: &[u8], t: &[u8], n: usize, c: usize, m: usize, constructor: bool) -> Site
    requires { Prepared s.now n t.now × (c < n) × (m < row_count (block_at t.now c) true) × (16 * block_size ≤ length t.now) }
    ensures { Located s.now n c m result t.now × (result.constructor ≡ constructor) }
{
    let fixed = overriding::is_static(s, t, n, 11 + c, m);
    let codes = access::method_word(t, c, m, 1);
    let b = parts_of(s, t, c, m);
    Site {
        classes: n,
        class: c,
        method: m,
        codes,
        stack: b.stack,
        locals: b.locals,
        start: b.start,
        end: b.end,
        table: b.table,
        entries: b.entries,
        tables: b.tables,
        frames: b.frames,
        last: b.last,
        constructor,
        fixed,
    }
}

// Its name is not read: only phase D asks whether a method is a constructor.
pub fn code_site(s: &[u8], t: &[u8], n: usize, c: usize, m: usize) -> Site
    requires { Prepared s.now n t.now × (c < n) × (m < row_count (block_at t.now c) true) × (16 * block_size ≤ length t.now) }
    ensures { Located s.now n c m result t.now }
{
    site_as(s, t, n, c, m, false)
}

// With its name read.
pub fn site(s: &[u8], t: &[u8], n: usize, c: usize, m: usize) -> Site
    requires { Prepared s.now n t.now × (c < n) × (m < row_count (block_at t.now c) true) × (16 * block_size ≤ length t.now) }
    ensures { Located s.now n c m result t.now × KnowsInit s.now t.now result }
{
    let constructor = names::is_init(signature::member_name(s, t, c, true, m));
    site_as(s, t, n, c, m, constructor)
}
