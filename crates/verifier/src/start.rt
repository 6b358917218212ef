// A method's start: receiver and parameters in its locals, no operands.
ghost use Rattle.std.specs.Prelude.{◌≡◌, ◌<◌, ◌≤◌, ◌/◌, length, get_or};
ghost use Rattle.reader.specs.TypeCodes.{params_in};
ghost use Rattle.rules.specs.Types.{top, tys_of};
ghost use Rattle.rules.specs.TypeWords.{type_of};
ghost use Rattle.verifier.specs.Starts.{receiver_of, start_tys, Filled, Started};

use reader::types;
use rules::codes::described;
use rules::site::Site;
use rules::slots::Held;
use rules::types::Ty;

fn receiver(x: Site) -> Ty
    requires { x.class < 16 }
    ensures { type_of result.word ≡ receiver_of x }
{
    if x.constructor {
        return Ty::uninit_this();
    }
    Ty::class((11 + x.class) as u16)
}

// Parameter i of entry k of the methods' types; top past the last one.
fn param_type(t: &[u8], k: usize, i: usize) -> Ty
    requires { k < 1024 }
    ensures { type_of result.word ≡ get_or (tys_of (params_in t.now k)) i top }
{
    if i < types::param_count(t, k) {
        return described(types::param_at(t, k, i) as u8);
    }
    Ty::top()
}

// Local j at the start.
fn local_type(t: &[u8], x: Site, j: usize) -> Ty
    requires { (x.class < 16) × (x.method < 64) }
    ensures { type_of result.word ≡ get_or (start_tys t.now x) j top }
{
    let k = 64 * x.class + x.method;
    if x.fixed {
        return param_type(t, k, j);
    }
    if j == 0 {
        return receiver(x);
    }
    param_type(t, k, j - 1)
}

fn fill(t: &mut [u8], x: Site, n: usize)
    requires { (x.class < 16) × (x.method < 64) × (n ≤ 32) × (65288 ≤ length t.old / 4) }
    ensures { Filled t.old t.new x n }
{
    for j in 0..n {
        let w = local_type(t, x, j);
        kit::put_word(t, 65184 + j, w.word);
    }
}

// The start of the method at x comes to stand as the state at hand.
pub fn start(t: &mut [u8], x: Site) -> Held
    requires { (x.class < 16) × (x.method < 64) × (x.locals ≤ 32) × (65288 ≤ length t.old / 4) }
    ensures { Started t.old t.new x result }
{
    fill(t, x, x.locals);
    Held {
        at: 65184,
        locals: x.locals,
        depth: 0,
        flag: x.constructor,
    }
}
