// Where a thrown object lands: the innermost call whose table catches it.
ghost use Rattle.std.specs.Prelude.{◌≡◌, ◌-◌, ◌<◌};
ghost use Rattle.rules.specs.Sites.{front};
ghost use Rattle.shaping.specs.Located.{Located};
ghost use Rattle.shaping.specs.Phases.{program_now};
ghost use Rattle.plain.specs.Landing.{at_handler};
ghost use Rattle.running.specs.Throws.{OfBundle, Shaped, Catches, Lands, Waiters};

use plain::calls::Running;
use plain::catching::Table;
use plain::frames::Frame;
use plain::{catching, frames};
use rules::site::Site;
use rules::types::Kin;
use shaping::locate;

// Where the method of call k stands in the bundle.
pub fn site_of(b: &[u8], t: &[u8], n: usize, k: Frame) -> Site
    requires { Shaped b.now n t.now × OfBundle n t.now k }
    ensures { Located b.now n (k.class - 11) k.method result (front t.now) }
{
    locate::code_site(
        b,
        &t[0..187008],
        n,
        (k.class - 11) as usize,
        k.method as usize,
    )
}

// The target that call k has for an object of class c.
fn caught_in(b: &[u8], t: &[u8], n: usize, k: Frame, c: u32) -> Option<u32>
    requires { Shaped b.now n t.now × OfBundle n t.now k }
    ensures { Catches (program_now b.now n t.now) c k result }
{
    let x = site_of(b, t, n, k);
    let kin = Kin {
        at: 25728,
        count: 11 + x.classes,
    };
    let table = Table {
        at: x.table,
        entries: x.entries,
        class: x.class,
        classes: (11 + x.classes) as u32,
    };
    catching::catcher(b, &t[0..187008], kin, table, k.offset as usize, c)
}

// Call k at a handler, its operands gone.
fn at_handler(k: Frame, target: u32) -> Frame
    ensures { result ≡ at_handler k target }
{
    Frame {
        class: k.class,
        method: k.method,
        offset: target,
        own: k.own,
        operands: 0,
        locals: k.locals,
    }
}

// The call that catches an object of class c, thrown in call k at depth d, at its handler.
pub fn land(b: &[u8], t: &[u8], n: usize, d: usize, k: Frame, c: u32) -> Option<Running>
    requires { Shaped b.now n t.now × OfBundle n t.now k × (d < 64) × Waiters n t.now d }
    ensures { Lands (program_now b.now n t.now) t.now d k c result }
{
    if let Some(target) = caught_in(b, t, n, k, c) {
        return Some(Running {
            depth: d,
            call: at_handler(k, target),
        });
    }
    for i in 0..d {
        let e = d - i - 1;
        let f = frames::saved(t, 46752, e);
        if let Some(target) = caught_in(b, t, n, f, c) {
            return Some(Running {
                depth: e,
                call: at_handler(f, target),
            });
        }
    }
    None
}
