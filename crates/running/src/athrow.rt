// athrow: the top operand as an object to throw, and where it lands.
ghost use Rattle.std.specs.Prelude.{◌≡◌, ◌<◌, ◌≤◌, length};
ghost use Rattle.classfiles.specs.Limits.{max_heap};
ghost use Rattle.running.specs.Standing.{Standing};
ghost use Rattle.running.specs.Athrow.{Checks, Athrows};

use crate::ends::Move;
use crate::throwing;
use plain::frames::Frame;
use plain::values::{RunType, Value};
use plain::window::Halt;
use plain::{heap, values};
use rules::types::Kin;

// An object to throw, and its class.
#[derive(Clone, Copy)]
pub struct Thrown {
    pub object: u32,
    pub class: u32,
}

// The top operand of call k at depth d, of a program with n classes in the bundle; a fault where it is null.
fn to_throw(
    t: &[u8],
    cells: &[u32],
    s: &[u32],
    g: &[u8],
    n: usize,
    d: usize,
    k: Frame,
) -> Result<Thrown, Halt>
    requires { (187008 ≤ length t.now) × (n ≤ 16) × (d < 64) × (length s.now ≡ 4096) × (length g.now ≡ 4096) × (k.operands ≤ 32) }
    ensures { Checks n t.now cells.now s.now g.now d k result }
{
    if k.operands < 1 {
        return Err(Halt::Stuck);
    }
    let i = 64 * d + 31 + k.operands as usize;
    let v = Value {
        tag: g[i],
        cell: s[i],
    };
    let kin = Kin {
        at: 25728,
        count: 11 + n,
    };
    let asked = RunType { base: 1, depth: 0 };
    if !values::refers_to(&t[0..187008], kin, cells, v, asked) {
        return Err(Halt::Stuck);
    }
    let q = v.to_cell();
    if q == 0 {
        return Err(Halt::Fault(10));
    }
    Ok(Thrown {
        object: q,
        class: heap::base_at(cells, q - 1),
    })
}

// athrow in call k at depth d.
pub fn athrow(
    b: &[u8],
    t: &[u8],
    cells: &mut [u32],
    s: &mut [u32],
    g: &mut [u8],
    n: usize,
    d: usize,
    k: Frame,
    used: u32,
) -> Move
    requires { Standing b.now n t.now s.old g.old d k × (length cells.old ≤ max_heap) }
    ensures { Athrows b.now n t.now cells.old s.old g.old cells.new s.new g.new d k used result }
{
    match to_throw(t, cells, s, g, n, d, k) {
        Ok(v) => throwing::throw_object(b, t, s, g, n, d, k, used, v.object, v.class),
        Err(h) => throwing::halted(b, t, cells, s, g, n, d, k, used, h),
    }
}
