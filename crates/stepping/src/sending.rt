// The instructions that call.
ghost use Rattle.std.specs.Prelude.{◌≤◌, length};
ghost use Rattle.classfiles.specs.Limits.{max_heap};
ghost use Rattle.rules.specs.InstructionWords.{call_of};
ghost use Rattle.running.specs.Sending.{CallReady};
ghost use Rattle.stepping.specs.Moves.{Does, executed};

use crate::moves;
use plain::frames::Frame;
use rules::instruction::Call;
use rules::site::Site;
use running::calling;
use running::ends::Move;

// Into the method, or why not.
pub fn call(
    b: &[u8],
    t: &mut [u8],
    cells: &mut [u32],
    s: &mut [u32],
    g: &mut [u8],
    x: Site,
    d: usize,
    k: Frame,
    used: u32,
    i: Call,
) -> Move
    requires { CallReady b.now t.old s.old g.old x d k i × (length cells.old ≤ max_heap) }
    ensures { Does b.now x.classes t.old s.old g.old cells.old d k used t.new s.new g.new cells.new result (executed b.now x.classes t.old s.old g.old cells.old used d k 3 (call_of i)) }
{
    let r = calling::call(b, t, s, g, cells, x, d, k, i);
    moves::after(
        b,
        t,
        cells,
        s,
        g,
        x.classes,
        d,
        k,
        used,
        moves::onto(r, used),
    )
}
