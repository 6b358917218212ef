// A thrown object, taken by the call that catches it or by none.
ghost use Rattle.std.specs.Prelude.{◌≡◌, ◌<◌, ◌≤◌, length};
ghost use Rattle.classfiles.specs.Limits.{max_heap};
ghost use Rattle.shaping.specs.Phases.{program_now};
ghost use Rattle.plain.specs.declared.window.Halt.TheVariants.{Fault};
ghost use Rattle.running.specs.Standing.{Standing};
ghost use Rattle.running.specs.Throws.{Shaped};
ghost use Rattle.running.specs.Throwing.{Catching, has_slot, Takes, Faults, Throws};

use crate::ends::{End, Ended, Move, Moved};
use crate::landing;
use plain::calls::Running;
use plain::frames::Frame;
use plain::heap;
use plain::values::Value;
use plain::window::Halt;

// Whether the call that catches has a slot for an operand.
fn has_slot(b: &[u8], t: &[u8], n: usize, r: Option<Running>) -> bool
    requires { Shaped b.now n t.now × Catching n t.now r }
    ensures { result ≡ has_slot (program_now b.now n t.now) r }
{
    let Some(r) = r else {
        return true;
    };
    let x = landing::site_of(b, t, n, r.call);
    1 <= x.stack
}

// The reference q as the only operand of the call that catches.
fn take(s: &mut [u32], g: &mut [u8], r: Running, q: u32, used: u32) -> Moved
    requires { (r.depth < 64) × (length s.old ≡ 4096) × (length g.old ≡ 4096) }
    ensures { Takes s.old g.old s.new g.new r q used result }
{
    let i = 64 * r.depth + 32;
    s[i] = q;
    g[i] = Value::REF;
    Moved {
        depth: r.depth,
        call: Frame {
            class: r.call.class,
            method: r.call.method,
            offset: r.call.offset,
            own: r.call.own,
            operands: 1,
            locals: r.call.locals,
        },
        used,
    }
}

// A fault of class c in call k at depth d: its object is made where it lands, if there is room.
pub fn fault(
    b: &[u8],
    t: &[u8],
    cells: &mut [u32],
    s: &mut [u32],
    g: &mut [u8],
    n: usize,
    d: usize,
    k: Frame,
    used: u32,
    c: u32,
) -> Move
    requires { Standing b.now n t.now s.old g.old d k × (length cells.old ≤ max_heap) }
    ensures { Faults b.now n t.now cells.old s.old g.old cells.new s.new g.new d k used (Fault c) result }
{
    let r = landing::land(b, t, n, d, k, c);
    if !has_slot(b, t, n, r) {
        return Err(Ended {
            end: End::Stuck,
            used,
        });
    }
    if !heap::has_room(cells, used, 0) {
        return Err(Ended {
            end: End::HeapFull,
            used,
        });
    }
    let more = heap::allocate(cells, used, c, 0, 0, 1);
    match r {
        Some(r) => Ok(take(s, g, r, used + 1, more)),
        None => Err(Ended {
            end: End::Uncaught(c),
            used: more,
        }),
    }
}

// What a halt comes to: a fault is thrown, and all else ends the run.
pub fn halted(
    b: &[u8],
    t: &[u8],
    cells: &mut [u32],
    s: &mut [u32],
    g: &mut [u8],
    n: usize,
    d: usize,
    k: Frame,
    used: u32,
    h: Halt,
) -> Move
    requires { Standing b.now n t.now s.old g.old d k × (length cells.old ≤ max_heap) }
    ensures { Faults b.now n t.now cells.old s.old g.old cells.new s.new g.new d k used h result }
{
    match h {
        Halt::Fault(c) => fault(b, t, cells, s, g, n, d, k, used, c),
        Halt::HeapFull => Err(Ended {
            end: End::HeapFull,
            used,
        }),
        Halt::DepthFull => Err(Ended {
            end: End::DepthFull,
            used,
        }),
        Halt::Stuck => Err(Ended {
            end: End::Stuck,
            used,
        }),
    }
}

// The object q of class c, thrown in call k at depth d.
pub fn throw_object(
    b: &[u8],
    t: &[u8],
    s: &mut [u32],
    g: &mut [u8],
    n: usize,
    d: usize,
    k: Frame,
    used: u32,
    q: u32,
    c: u32,
) -> Move
    requires { Standing b.now n t.now s.old g.old d k }
    ensures { Throws b.now n t.now s.old g.old s.new g.new d k used q c result }
{
    let r = landing::land(b, t, n, d, k, c);
    if !has_slot(b, t, n, r) {
        return Err(Ended {
            end: End::Stuck,
            used,
        });
    }
    match r {
        Some(r) => Ok(take(s, g, r, q, used)),
        None => Err(Ended {
            end: End::Uncaught(c),
            used,
        }),
    }
}
