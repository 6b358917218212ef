// Into a method and back.
ghost use Rattle.std.specs.Prelude.{◌≡◌, ◌+◌, ◌-◌, ◌*◌, ◌/◌, ◌^◌, ◌<◌, ◌≤◌, [], ◌∷◌, length};
ghost use Rattle.plain.specs.ValueLaws.{value_of};
ghost use Rattle.plain.specs.Calls.{frame_at};
ghost use Rattle.plain.specs.CallSteps.{Lent, Gives, resumed_at};

use crate::frames::{self, Frame};
use crate::values::Value;
use crate::window::Halt;

// A call and its depth.
#[derive(Clone, Copy)]
pub struct Running {
    pub depth: usize,
    pub call: Frame,
}

// On in a call at its depth, or not.
pub type Going = Result<Running, Halt>;

// The call that waits at depth e, behind its call instruction of that size, with operands more.
fn resumed(t: &[u8], a: usize, e: usize, size: u32, more: u32) -> Frame
    requires { (e < 64) × (a + 384 ≤ length t.now / 4) × ((frame_at t.now a e).offset + size < 2 ^ 32) × ((frame_at t.now a e).operands + more < 2 ^ 32) }
    ensures { result ≡ resumed_at t.now a e size more }
{
    let k = frames::saved(t, a, e);
    Frame {
        class: k.class,
        method: k.method,
        offset: k.offset + size,
        own: k.own,
        operands: k.operands + more,
        locals: k.locals,
    }
}

// Back from depth d without a result, to the call that waits behind an instruction of that size.
pub fn back(t: &[u8], s: &[u32], g: &[u8], a: usize, d: usize, size: u32) -> Running
    requires { Lent t.now s.now g.now a × (0 < d) × (d ≤ 64) × ((frame_at t.now a (d - 1)).offset + size < 2 ^ 32) × ((frame_at t.now a (d - 1)).operands ≤ 32) }
    ensures { Gives t.now s.now g.now s.now g.now a d size [] result }
{
    let e = d - 1;
    Running {
        depth: e,
        call: resumed(t, a, e, size, 0),
    }
}

// With a result, for which the call has room.
pub fn back_with(
    t: &[u8],
    s: &mut [u32],
    g: &mut [u8],
    a: usize,
    d: usize,
    size: u32,
    v: Value,
) -> Running
    requires { Lent t.now s.old g.old a × (0 < d) × (d ≤ 64) × ((frame_at t.now a (d - 1)).offset + size < 2 ^ 32) × ((frame_at t.now a (d - 1)).operands < 32) × ((frame_at t.now a (d - 1)).locals ≤ 32) }
    ensures { Gives t.now s.old g.old s.new g.new a d size (value_of v.tag v.cell ∷ []) result }
{
    let e = d - 1;
    let k = resumed(t, a, e, size, 1);
    let i = 64 * e + 31 + k.operands as usize;
    s[i] = v.cell;
    g[i] = v.tag;
    Running { depth: e, call: k }
}
