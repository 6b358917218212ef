// Phases A to C in order.
ghost use Rattle.std.specs.Prelude.{◌≤◌, length};
ghost use Rattle.shaping.specs.Verified.{IsShaped};

use crate::{phases, resolve};
use reader::outlet::Answer;
use reader::whole;

// How many classes there are, where phases A to C pass; otherwise the refusal.
pub fn read_shaped(s: &[u8], t: &mut [u8]) -> Result<usize, Answer>
    requires { 262144 ≤ length t.old }
    ensures { IsShaped s.now result t.new }
{
    let n = whole::read(s, t)?;
    resolve::prepare(s, t, n);
    phases::shape_all(s, t, n)?;
    Ok(n)
}
