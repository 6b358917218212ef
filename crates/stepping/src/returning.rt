// The instructions that return a value.
ghost use Rattle.running.specs.Standing.{Standing};
ghost use Rattle.running.specs.Leaving.{Leaves, return_value_by};

use plain::frames::Frame;
use plain::values;
use reader::types;
use rules::codes;
use rules::site::Site;
use rules::types::Kin;
use running::leaving::Left;
use running::{leaving, popping};

// The instruction ireturn, or areturn; nothing where it is stuck.
pub fn leave_with(
    b: &[u8],
    t: &[u8],
    s: &mut [u32],
    g: &mut [u8],
    cells: &[u32],
    x: Site,
    d: usize,
    k: Frame,
    ints: bool,
) -> Option<Left>
    requires { Standing b.now x.classes t.now s.old g.old d k }
    ensures { Leaves b.now x.classes t.now s.old g.old cells.now s.new g.new d k result (return_value_by b.now x.classes t.now s.old g.old d k ints) }
{
    let e = 64 * (k.class as usize - 11) + k.method as usize;
    let c = types::result_at(&t[0..187008], e);
    if c == 256 {
        return None;
    }
    let asked = values::described(codes::described(c as u8));
    if ints != asked.is_int() {
        return None;
    }
    if k.operands == 0 {
        return None;
    }
    let v = popping::operand(s, g, d, k.operands as usize - 1);
    let kin = Kin {
        at: 25728,
        count: 11 + x.classes,
    };
    if !values::value_fits(&t[0..187008], kin, cells, v, asked) {
        return None;
    }
    leaving::give(b, t, s, g, cells, x, d, k, v)
}
