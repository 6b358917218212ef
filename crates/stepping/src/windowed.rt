// The instructions that stay in their call, over its window of the lent slots and tags.
ghost use Rattle.std.specs.Prelude.{◌≡◌, ◌+◌, ◌<◌, ◌≤◌};
ghost use Rattle.rules.specs.InstructionWords.{plain_of, branch_of, local_of, stack_of};
ghost use Rattle.rules.specs.Instruction.{new};
ghost use Rattle.stepping.specs.Turning.{Stays};
ghost use Rattle.stepping.specs.Moves.{Does, executed};
ghost use Rattle.plain.specs.Windows.{operands_of};
ghost use Rattle.stepping.specs.Windowed.{Before, place_of, turn_on};

use crate::moves;
use plain::frames::Frame;
use plain::window::{Halt, Place, Turn};
use plain::{groups, memory};
use reader::access;
use rules::instruction::{Branch, Local, Plain, Stack};
use rules::site::Site;
use rules::types::Kin;
use running::ends::{Move, Moved};

// Before an instruction of z bytes.
fn place(x: Site, k: Frame, used: u32, z: usize) -> Place
    requires { k.offset + z < 65536 }
    ensures { result ≡ place_of x k used z }
{
    Place {
        operands: k.operands as usize,
        most: x.stack,
        locals: k.locals as usize,
        after: k.offset + z as u32,
        used,
    }
}

// The call k where a turn of its window goes on.
fn onto(d: usize, k: Frame, r: Turn) -> Result<Move, Halt>
    requires { operands_of r ≤ 32 }
    ensures { result ≡ turn_on d k r }
{
    match r {
        Ok(r) => Ok(Ok(Moved {
            depth: d,
            call: Frame {
                class: k.class,
                method: k.method,
                offset: r.at,
                own: k.own,
                operands: r.operands as u32,
                locals: k.locals,
            },
            used: r.used,
        })),
        Err(h) => Err(h),
    }
}

pub fn simple(
    b: &[u8],
    t: &[u8],
    cells: &mut [u32],
    s: &mut [u32],
    g: &mut [u8],
    x: Site,
    d: usize,
    k: Frame,
    used: u32,
    z: usize,
    i: Plain,
) -> Move
    requires { Before b.now t.now s.old g.old cells.old x d k z }
    ensures { Does b.now x.classes t.now s.old g.old cells.old d k used t.now s.new g.new cells.new result (executed b.now x.classes t.now s.old g.old cells.old used d k z (plain_of i)) }
{
    let kin = Kin {
        at: 25728,
        count: 11 + x.classes,
    };
    let c = place(x, k, used, z);
    let a = 64 * d;
    let r = groups::plain(
        &t[0..187008],
        kin,
        cells,
        &mut s[a..a + 64],
        &mut g[a..a + 64],
        c,
        i,
    );
    moves::after(b, t, cells, s, g, x.classes, d, k, used, onto(d, k, r))
}

pub fn jump(
    b: &[u8],
    t: &[u8],
    cells: &mut [u32],
    s: &mut [u32],
    g: &mut [u8],
    x: Site,
    d: usize,
    k: Frame,
    used: u32,
    z: usize,
    i: Branch,
) -> Move
    requires { Before b.now t.now s.old g.old cells.old x d k z × Stays (branch_of i) }
    ensures { Does b.now x.classes t.now s.old g.old cells.old d k used t.now s.new g.new cells.new result (executed b.now x.classes t.now s.old g.old cells.old used d k z (branch_of i)) }
{
    let kin = Kin {
        at: 25728,
        count: 11 + x.classes,
    };
    let c = place(x, k, used, z);
    let a = 64 * d;
    let r = groups::branch(
        &t[0..187008],
        kin,
        cells,
        &s[a..a + 64],
        &g[a..a + 64],
        c,
        i,
    );
    moves::after(b, t, cells, s, g, x.classes, d, k, used, onto(d, k, r))
}

pub fn on_local(
    b: &[u8],
    t: &[u8],
    cells: &mut [u32],
    s: &mut [u32],
    g: &mut [u8],
    x: Site,
    d: usize,
    k: Frame,
    used: u32,
    z: usize,
    i: Local,
) -> Move
    requires { Before b.now t.now s.old g.old cells.old x d k z }
    ensures { Does b.now x.classes t.now s.old g.old cells.old d k used t.now s.new g.new cells.new result (executed b.now x.classes t.now s.old g.old cells.old used d k z (local_of i)) }
{
    let c = place(x, k, used, z);
    let a = 64 * d;
    let r = groups::on_local(&mut s[a..a + 64], &mut g[a..a + 64], c, i);
    moves::after(b, t, cells, s, g, x.classes, d, k, used, onto(d, k, r))
}

pub fn on_stack(
    b: &[u8],
    t: &[u8],
    cells: &mut [u32],
    s: &mut [u32],
    g: &mut [u8],
    x: Site,
    d: usize,
    k: Frame,
    used: u32,
    z: usize,
    i: Stack,
) -> Move
    requires { Before b.now t.now s.old g.old cells.old x d k z }
    ensures { Does b.now x.classes t.now s.old g.old cells.old d k used t.now s.new g.new cells.new result (executed b.now x.classes t.now s.old g.old cells.old used d k z (stack_of i)) }
{
    let kin = Kin {
        at: 25728,
        count: 11 + x.classes,
    };
    let c = place(x, k, used, z);
    let a = 64 * d;
    let r = groups::on_stack(
        &t[0..187008],
        kin,
        cells,
        &mut s[a..a + 64],
        &mut g[a..a + 64],
        c,
        i,
    );
    moves::after(b, t, cells, s, g, x.classes, d, k, used, onto(d, k, r))
}

pub fn make(
    b: &[u8],
    t: &[u8],
    cells: &mut [u32],
    s: &mut [u32],
    g: &mut [u8],
    x: Site,
    d: usize,
    k: Frame,
    used: u32,
    z: usize,
    i: u16,
) -> Move
    requires { Before b.now t.now s.old g.old cells.old x d k z }
    ensures { Does b.now x.classes t.now s.old g.old cells.old d k used t.now s.new g.new cells.new result (executed b.now x.classes t.now s.old g.old cells.old used d k z (new i)) }
{
    let size = access::layout_size(b, &t[0..187008], x.classes, i as usize);
    let c = place(x, k, used, z);
    let a = 64 * d;
    let r = memory::new_object(
        cells,
        &mut s[a..a + 64],
        &mut g[a..a + 64],
        c,
        i,
        size as u32,
    );
    moves::after(b, t, cells, s, g, x.classes, d, k, used, onto(d, k, r))
}
