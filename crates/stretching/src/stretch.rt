// Steps until one does not stay in the window, or until the budget is spent.
ghost use Rattle.stretching.specs.Stretch.{Fit, Stretched};

use crate::quick;
use crate::quick::Ground;

// Where a stretch has come to, and how many steps are left.
#[derive(Clone, Copy)]
pub struct Spot {
    pub at: u32,
    pub operands: usize,
    pub used: u32,
    pub left: u32,
}

pub fn stretch(
    b: &[u8],
    t: &[u8],
    code: &[u8],
    cells: &mut [u32],
    w: &mut [u32],
    g: &mut [u8],
    y: Ground,
    from: Spot,
) -> Spot
    requires { Fit code.now cells.old w.old g.old y from.operands }
    ensures { Stretched b.now t.now code.now y from w.old g.old cells.old w.new g.new cells.new result }
{
    let end = code.len() as u32;
    let mut at = from.at;
    let mut operands = from.operands;
    let mut used = from.used;
    for spent in 0..from.left {
        if end <= at {
            return Spot {
                at,
                operands,
                used,
                left: from.left - spent,
            };
        }
        let Ok(r) = quick::turn(b, t, code, cells, w, g, y, at, operands, used) else {
            return Spot {
                at,
                operands,
                used,
                left: from.left - spent,
            };
        };
        at = r.at;
        operands = r.operands;
        used = r.used;
    }
    Spot {
        at,
        operands,
        used,
        left: 0,
    }
}
