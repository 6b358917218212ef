// Phases C and D over all methods of the bundle, class after class.
ghost use Rattle.std.specs.Prelude.{◌≡◌, true, ◌<◌, ◌^◌};
ghost use Rattle.texts.specs.Faults.{number};
ghost use Rattle.reader.specs.Outlet.{answer};
ghost use Rattle.reader.specs.MemberRows.{block_at, row_count};
ghost use Rattle.rules.specs.Sites.{front};
ghost use Rattle.kit.specs.Claims.{pass};
ghost use Rattle.shaping.specs.Passing.{Typable};
ghost use Rattle.shaping.specs.Phases.{Readied, shape_by, Judged, judged_at, of_class, of_all, Done};

use crate::{locate, marks, shape};
use reader::outlet::Answer;
use reader::signature;
use rules::site::Site;
use texts::faults::{Fault, Refusal};

// What is refused, in which class and method, and its place there.
#[derive(Clone, Copy, Debug, PartialEq, Eq)]
pub struct Refused {
    pub refusal: Refusal,
    pub class: usize,
    pub method: usize,
    pub place: usize,
}

impl From<Refused> for Answer {
    ghost from_gives = { λ e a. (a ≡ answer (number e.refusal) e.class e.method e.place) × (a.number < 2 ^ 32) };

    fn from(e: Refused) -> Answer {
        Answer {
            number: e.refusal.number() as usize,
            class: e.class,
            method: e.method,
            place: e.place,
        }
    }
}

// Phase C of method m of class c.
fn shape_method(s: &[u8], t: &mut [u8], n: usize, c: usize, m: usize) -> Result<(), Fault>
    requires { Readied s.now n t.old × (c < n) × (m < row_count (block_at (front t.old) c) true) }
    ensures { Judged (judged_at shape_by s.now n t.old c m) result t.old t.new }
{
    let x = locate::code_site(s, &t[0..187008], n, c, m);
    shape::shape_of(s, t, x)
}

// Phase C of class c.
fn shape_class(s: &[u8], t: &mut [u8], n: usize, c: usize) -> Result<(), Refused>
    requires { Readied s.now n t.old × (c < n) }
    ensures { Done (of_class shape_by s.now n t.old c) result t.old t.new }
{
    let k = signature::member_count(&t[0..187008], c, true);
    for m in 0..k {
        if let Err(Fault(refusal, place)) = shape_method(s, t, n, c, m) {
            return Err(Refused {
                refusal,
                class: c,
                method: m,
                place,
            });
        }
    }
    Ok(())
}

// Phase C.
pub fn shape_all(s: &[u8], t: &mut [u8], n: usize) -> Result<(), Refused>
    requires { Readied s.now n t.old }
    ensures { Done (of_all shape_by s.now n t.old) result t.old t.new }
{
    for c in 0..n {
        shape_class(s, t, n, c)?;
    }
    Ok(())
}

// The site of method m of class c after phase C, with its marks in the scratch.
pub fn typable(s: &[u8], t: &mut [u8], n: usize, c: usize, m: usize) -> Site
    requires { Readied s.now n t.old × (c < n) × (m < row_count (block_at (front t.old) c) true) × (judged_at shape_by s.now n t.old c m ≡ pass) }
    ensures { Typable s.now n c m result t.old t.new }
{
    let x = locate::site(s, &t[0..187008], n, c, m);
    marks::restore(s, t, x);
    x
}
