// Into a method of the bundle.
ghost use Rattle.std.specs.Prelude.{◌≡◌, ◌+◌, ◌*◌, ◌/◌, ◌<◌, ◌≤◌, length};
ghost use Rattle.kit.specs.Words.{word};
ghost use Rattle.texts.specs.Reading.{u2_at};
ghost use Rattle.classfiles.specs.Blocks.{method_rows};
ghost use Rattle.reader.specs.MemberRows.{block_at};
ghost use Rattle.verifier.specs.Besides.{Besides};
ghost use Rattle.plain.specs.Calls.{Saved};
ghost use Rattle.plain.specs.CallSteps.{Lent};
ghost use Rattle.running.specs.Standing.{records};
ghost use Rattle.running.specs.Entering.{Entered, Enterable, Into};

use plain::calls::{Going, Running};
use plain::frames::{self, Frame};
use plain::window::Halt;
use reader::access;
use rules::site::Site;
use texts::items;

// A call's method, the object that it constructs or 0, how many of the caller's operands are left, and how many arguments are above them.
#[derive(Clone, Copy)]
pub struct Way {
    pub class: u32,
    pub method: u32,
    pub own: u32,
    pub left: usize,
    pub count: usize,
}

// The record of the call at depth d.
fn save(t: &mut [u8], d: usize, k: Frame)
    requires { (d < 64) × (records + 384 ≤ length t.old / 4) }
    ensures { Saved t.old t.new records d k × Besides records 384 t.old t.new }
{
    let a = 46752 + 6 * d;
    kit::put_word(t, a, k.class);
    kit::put_word(t, a + 1, k.method);
    kit::put_word(t, a + 2, k.offset);
    kit::put_word(t, a + 3, k.own);
    kit::put_word(t, a + 4, k.operands);
    kit::put_word(t, a + 5, k.locals);
}

// From the call k at depth d, whose operands that are left stand in it, into another with the n operands above them.
fn enter(
    t: &mut [u8],
    s: &mut [u32],
    g: &mut [u8],
    d: usize,
    k: Frame,
    n: usize,
    into: Frame,
) -> Going
    requires { Lent t.old s.old g.old records × (k.operands + n ≤ 32) × (n ≤ into.locals) × (into.locals ≤ 32) × (into.offset ≡ 0) × (into.operands ≡ 0) }
    ensures { Entered t.old s.old g.old t.new s.new g.new d k n into result }
{
    if 63 <= d {
        return Err(Halt::DepthFull);
    }
    save(t, d, k);
    frames::next_window(s, g, d, k.operands as usize, n, into.locals as usize);
    Ok(Running {
        depth: d + 1,
        call: into,
    })
}

// max_locals of method j of class c, which has one Code.
fn locals_of(b: &[u8], t: &[u8], c: usize, j: usize) -> usize
    requires { (c < 16) × (j < 64) }
    ensures { (result ≡ u2_at b.now (word (block_at t.now c) (method_rows + 6 * j + 2) + 2)) × (result < 65536) }
{
    let q = access::method_word(t, c, j, 2);
    items::u2_at(b, q + 2)
}

// From the call k at depth d, of the x.classes classes.
pub fn go_into(
    b: &[u8],
    t: &mut [u8],
    s: &mut [u32],
    g: &mut [u8],
    x: Site,
    d: usize,
    k: Frame,
    y: Way,
) -> Going
    requires { Enterable b.now x.classes t.old s.old g.old d k y }
    ensures { Into b.now x.classes t.old s.old g.old t.new s.new g.new d k y result }
{
    let m = locals_of(b, &t[0..187008], y.class as usize - 11, y.method as usize);
    let from = Frame {
        class: k.class,
        method: k.method,
        offset: k.offset,
        own: k.own,
        operands: y.left as u32,
        locals: k.locals,
    };
    let into = Frame {
        class: y.class,
        method: y.method,
        offset: 0,
        own: y.own,
        operands: 0,
        locals: m as u32,
    };
    enter(t, s, g, d, from, y.count, into)
}
