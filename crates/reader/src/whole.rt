// Phases A and B whole: the bundle's program in the lent scratch, or the first refusal.
ghost use Rattle.std.specs.Prelude.{◌≡◌, ◌≤◌, length};
ghost use Rattle.reader.specs.Access.{Limited};
ghost use Rattle.reader.specs.Prints.{prints_end};
ghost use Rattle.classfiles.specs.Limits.{unnamed};
ghost use Rattle.reader.specs.Whole.{LinkedWhole, IsReading};

use crate::link::Refused;
use crate::{link, linking, printing};
use classfiles::bundle;
use texts::faults::Fault;

// Phase B: names, supers, chains, then members, with a print for each.
fn linked(s: &[u8], t: &mut [u8], n: usize) -> Result<(), Refused>
    requires { (n ≤ 16) × (prints_end ≤ length t.old) × Limited n t.old }
    ensures { LinkedWhole s.now n result t.old t.new }
{
    link::classes(s, t, n)?;
    printing::print_all(s, t, n);
    linking::members(s, t, n)
}

// Phase A names no class.
impl From<Fault> for Refused {
    ghost from_gives = { λ f e. e ≡ record { refusal = f.0; class = unnamed; place = f.1 } };

    fn from(f: Fault) -> Refused {
        let Fault(refusal, place) = f;
        Refused {
            refusal,
            class: 65535,
            place,
        }
    }
}

// How many classes there are; class 65535 where phase A refuses.
pub fn read(s: &[u8], t: &mut [u8]) -> Result<usize, Refused>
    requires { prints_end ≤ length t.old }
    ensures { IsReading s.now result t.new }
{
    let g = bundle::read_bundle(s, t)?;
    linked(s, t, g.val)?;
    Ok(g.val)
}
