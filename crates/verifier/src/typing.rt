// Phase D over all methods of the bundle, class after class.
ghost use Rattle.std.specs.Prelude.{◌≡◌, true, ◌<◌};
ghost use Rattle.reader.specs.MemberRows.{block_at, row_count};
ghost use Rattle.kit.specs.Claims.{pass};
ghost use Rattle.rules.specs.Sites.{front};
ghost use Rattle.shaping.specs.Phases.{Readied, shape_by, typing_by, Judged, judged_at, of_class, of_all, Done};

use crate::{frame_table, walk};
use reader::signature;
use shaping::phases;
use shaping::phases::Refused;
use texts::faults::Fault;

// Phase D of method m of class c, which has passed phase C: frames, then the walk.
fn type_method(s: &[u8], t: &mut [u8], n: usize, c: usize, m: usize) -> Result<(), Fault>
    requires { Readied s.now n t.old × (c < n) × (m < row_count (block_at (front t.old) c) true) × (judged_at shape_by s.now n t.old c m ≡ pass) }
    ensures { Judged (judged_at typing_by s.now n t.old c m) result t.old t.new }
{
    let x = phases::typable(s, t, n, c, m);
    let f = frame_table::frames(s, t, x)?;
    walk::walk_method(s, t, x, f.val)
}

// Phase D of class c.
fn type_class(s: &[u8], t: &mut [u8], n: usize, c: usize) -> Result<(), Refused>
    requires { Readied s.now n t.old × (c < n) × (of_all shape_by s.now n t.old ≡ pass) }
    ensures { Done (of_class typing_by s.now n t.old c) result t.old t.new }
{
    let k = signature::member_count(&t[0..187008], c, true);
    for m in 0..k {
        if let Err(Fault(refusal, place)) = type_method(s, t, n, c, m) {
            return Err(Refused {
                refusal,
                class: c,
                method: m,
                place,
            });
        }
    }
    Ok(())
}

// Phase D, where phase C has passed.
pub fn type_all(s: &[u8], t: &mut [u8], n: usize) -> Result<(), Refused>
    requires { Readied s.now n t.old × (of_all shape_by s.now n t.old ≡ pass) }
    ensures { Done (of_all typing_by s.now n t.old) result t.old t.new }
{
    for c in 0..n {
        type_class(s, t, n, c)?;
    }
    Ok(())
}
