// Frames in lent words: look-up, and a state that goes to a frame.
ghost use Rattle.std.specs.Prelude.{is_some, IfSome, ◌≡◌, false, [], ◌∷◌, ◌+◌, ◌≤◌, ◌/◌, length};
ghost use Rattle.kit.specs.Claims.{ruled, verdict};
ghost use Rattle.texts.specs.Faults.{number};
ghost use Rattle.rules.specs.States.{state};
ghost use Rattle.rules.specs.Walk.{frame_at, into_frame};
ghost use Rattle.rules.specs.TypeWords.{type_of};
ghost use Rattle.rules.specs.Ancestry.{lineage};
ghost use Rattle.rules.specs.Slots.{held, locals_of, veil, hidden_key, Placed, Outside};
ghost use Rattle.rules.specs.FrameRows.{row_held, frames_of, Laid, Among, standing, Sound};
ghost use Rattle.rules.specs.Loads.{Copied, Loaded};

use crate::slots::{self, Held};
use crate::types::{Kin, Ty};
use texts::faults::Refusal;

// Where a method's frames stand: the first row, how many there are, and the method's locals.
#[derive(Clone, Copy)]
pub struct Rows {
    pub at: usize,
    pub count: usize,
    pub locals: usize,
}

// The state in the row at x.
fn row(t: &[u8], n: usize, x: usize) -> Held
    requires { (n ≤ 32) × (x + 68 ≤ length t.now / 4) }
    ensures { (result ≡ row_held t.now n x) × Sound t.now result }
{
    let d = kit::word(t, x + 65) % 33;
    let g = kit::word(t, x + 66) == 1;
    Held {
        at: x,
        locals: n,
        depth: d as usize,
        flag: g,
    }
}

// The frame at the offset o, by halves: rows stand by rising offsets. They are words of the lent scratch, so no slice of rows is there for
// `binary_search_by_key`.
pub fn find(t: &[u8], f: Rows, o: usize) -> Option<Held>
    requires { Laid t.now f }
    ensures is { standing t.now result ≡ frame_at (frames_of t.now f) o }
    ensures lies { IfSome result (λ h. Sound t.now h × Among f h) }
{
    let mut low = 0;
    let mut high = f.count;
    while low < high {
        let mid = low + (high - low) / 2;
        let w = kit::word(t, f.at + 68 * mid + 64) as usize;
        if w == o {
            return Some(row(t, f.locals, f.at + 68 * mid));
        }
        if w < o {
            low = mid + 1;
        } else {
            high = mid;
        }
    }
    None
}

// n words from a on are copied to those from b on.
fn copy(t: &mut [u8], a: usize, b: usize, n: usize)
    requires { (a + n ≤ b) × (b + n ≤ length t.old / 4) }
    ensures { Copied a b n t.old t.new }
{
    for i in 0..n {
        let w = kit::word(t, a + i);
        kit::put_word(t, b + i, w);
    }
}

// The frame's state comes to stand at x.
pub fn load(t: &mut [u8], g: Held, x: usize) -> Held
    requires { Sound t.old g × (g.at + 68 ≤ x) × (x + 72 ≤ length t.old / 4) }
    ensures { (held t.new result ≡ held t.old g) × Loaded x g result × Outside x t.old t.new }
{
    copy(t, g.at, x, g.locals);
    copy(t, g.at + 32, x + 32, g.depth);
    Held { at: x, ..g }
}

// A state goes to the frame at o, which must be there and which it must fit.
pub fn into_frame(t: &[u8], kin: Kin, f: Rows, h: Held, o: usize) -> Result<(), Refusal>
    requires { Laid t.now f × Placed t.now h }
    ensures { ruled number result ≡ verdict (into_frame (lineage t.now kin.at kin.count) (held t.now h) (frame_at (frames_of t.now f) o)) }
{
    match find(t, f, o) {
        Some(g) => slots::fit_states(t, kin, h, g),
        None => Err(Refusal::Flow),
    }
}

// What a handler at o gets goes to its frame: the locals with copies of the hidden object as top, and w alone on the stack.
pub fn into_handler(
    t: &[u8],
    kin: Kin,
    f: Rows,
    h: Held,
    o: usize,
    hidden: Option<Ty>,
    w: Ty,
) -> Result<(), Refusal>
    requires { Laid t.now f × Placed t.now h }
    ensures { ruled number result ≡ verdict (into_frame (lineage t.now kin.at kin.count) (state false (veil (is_some hidden) (hidden_key hidden) (locals_of t.now h)) (type_of w.word ∷ [])) (frame_at (frames_of t.now f) o)) }
{
    match find(t, f, o) {
        Some(g) => slots::fit_caught(t, kin, h, g, hidden, w),
        None => Err(Refusal::Flow),
    }
}
