// The running call, as far as its instructions stay in its window.
ghost use Rattle.stretching.specs.Forwarding.{Ahead, Forward};

use crate::quick::Ground;
use crate::stretch;
use crate::stretch::Spot;
use plain::frames::Frame;
use rules::site::Site;

// Of the call k at depth d, whose method stands at x, at most `left` steps.
pub fn forward(
    b: &[u8],
    t: &[u8],
    cells: &mut [u32],
    s: &mut [u32],
    g: &mut [u8],
    x: Site,
    d: usize,
    k: Frame,
    used: u32,
    left: u32,
) -> Spot
    requires { Ahead b.now t.now s.old g.old cells.old x d k }
    ensures { Forward b.now t.now s.old g.old cells.old s.new g.new cells.new x d k used left result }
{
    let y = Ground {
        most: x.stack,
        locals: k.locals as usize,
        class: x.class,
        count: 11 + x.classes,
    };
    let from = Spot {
        at: k.offset,
        operands: k.operands as usize,
        used,
        left,
    };
    let f = x.start;
    let e = x.end;
    let a = 64 * d;
    stretch::stretch(
        b,
        &t[0..187008],
        &b[f..e],
        cells,
        &mut s[a..a + 64],
        &mut g[a..a + 64],
        y,
        from,
    )
}
