// The instructions that return: back to the call that waits, or out of the run.
ghost use Rattle.std.specs.Prelude.{◌≡◌, [], ◌∷◌};
ghost use Rattle.plain.specs.ValueLaws.{value_of};
ghost use Rattle.running.specs.Standing.{Standing};
ghost use Rattle.running.specs.Leaving.{Leaves, leave_by, return_by, Giving};

use crate::popping::{self};
use plain::calls::{self, Running};
use plain::frames::Frame;
use plain::objects::{self};
use plain::values::Value;
use rules::site::Site;

// Back in the call that waited; or out of the run, with what it returns.
#[derive(Clone, Copy)]
pub enum Left {
    Back(Running),
    Out(Option<Value>),
}

// From the call k at depth d; nothing where it is stuck, here and below.
fn give_none(
    b: &[u8],
    t: &[u8],
    s: &[u32],
    g: &[u8],
    cells: &[u32],
    x: Site,
    d: usize,
    k: Frame,
) -> Option<Left>
    requires { Standing b.now x.classes t.now s.now g.now d k }
    ensures { Leaves b.now x.classes t.now s.now g.now cells.now s.now g.now d k result (leave_by b.now x.classes t.now []) }
{
    if !objects::is_self_ready(cells, k.own) {
        return None;
    }
    if d == 0 {
        return Some(Left::Out(None));
    }
    Some(Left::Back(calls::back(t, s, g, 46752, d, 3)))
}

pub fn give(
    b: &[u8],
    t: &[u8],
    s: &mut [u32],
    g: &mut [u8],
    cells: &[u32],
    x: Site,
    d: usize,
    k: Frame,
    v: Value,
) -> Option<Left>
    requires { Giving b.now x.classes t.now s.old g.old d k v }
    ensures { Leaves b.now x.classes t.now s.old g.old cells.now s.new g.new d k result (leave_by b.now x.classes t.now (value_of v.tag v.cell ∷ [])) }
{
    if !objects::is_self_ready(cells, k.own) {
        return None;
    }
    if d == 0 {
        return Some(Left::Out(Some(v)));
    }
    Some(Left::Back(calls::back_with(t, s, g, 46752, d, 3, v)))
}

// The instruction return.
pub fn leave(
    b: &[u8],
    t: &[u8],
    s: &[u32],
    g: &[u8],
    cells: &[u32],
    x: Site,
    d: usize,
    k: Frame,
) -> Option<Left>
    requires { Standing b.now x.classes t.now s.now g.now d k }
    ensures { Leaves b.now x.classes t.now s.now g.now cells.now s.now g.now d k result (return_by b.now x.classes t.now s.now g.now d k) }
{
    let e = 64 * (k.class as usize - 11) + k.method as usize;
    let v = popping::result_count(&t[0..187008], e);
    if v != 0 {
        return None;
    }
    give_none(b, t, s, g, cells, x, d, k)
}
