// The instructions that leave their call.
ghost use Rattle.rules.specs.InstructionWords.{leave_of};
ghost use Rattle.stepping.specs.Moves.{Does, executed};
ghost use Rattle.stepping.specs.Windowed.{Before};

use crate::{moves, returning};
use plain::frames::Frame;
use plain::window::Halt;
use rules::instruction::Leave;
use rules::site::Site;
use running::ends::Move;
use running::{athrow, leaving};

// What gives a value is left with in one place, which so becomes part of the run's loop.
pub fn leave(
    b: &[u8],
    t: &[u8],
    cells: &mut [u32],
    s: &mut [u32],
    g: &mut [u8],
    x: Site,
    d: usize,
    k: Frame,
    used: u32,
    z: usize,
    i: Leave,
) -> Move
    requires { Before b.now t.now s.old g.old cells.old x d k z }
    ensures { Does b.now x.classes t.now s.old g.old cells.old d k used t.now s.new g.new cells.new result (executed b.now x.classes t.now s.old g.old cells.old used d k z (leave_of i)) }
{
    let ints = match i {
        Leave::Athrow => return athrow::athrow(b, t, cells, s, g, x.classes, d, k, used),
        Leave::Return => {
            let r = leaving::leave(b, t, s, g, cells, x, d, k);
            return moves::given(r.ok_or(Halt::Stuck), used);
        }
        Leave::Areturn => false,
        Leave::Ireturn => true,
    };
    let r = returning::leave_with(b, t, s, g, cells, x, d, k, ints);
    moves::given(r.ok_or(Halt::Stuck), used)
}
