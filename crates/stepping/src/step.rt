// One instruction of the running call.
ghost use Rattle.std.specs.Prelude.{◌-◌, ◌≤◌, length};
ghost use Rattle.classfiles.specs.Limits.{max_heap};
ghost use Rattle.rules.specs.InstructionWords.{instr_of};
ghost use Rattle.rules.specs.Sites.{front};
ghost use Rattle.shaping.specs.Located.{Located};
ghost use Rattle.running.specs.Standing.{Standing};
ghost use Rattle.running.specs.Dispatching.{Dispatch};
ghost use Rattle.stepping.specs.Stepping.{Stepped};
ghost use Rattle.stepping.specs.Moves.{Does, executed};
ghost use Rattle.stepping.specs.Windowed.{Before};
ghost use Rattle.stepping.specs.Callable.{Callable};
ghost use Rattle.stepping.specs.Fetching.{Ready};

use crate::{leave, sending, windowed};
use plain::frames::Frame;
use rules::decode;
use rules::instruction::Instr;
use rules::opcodes::size_at;
use rules::site::Site;
use running::ends::{End, Ended, Move};

// The instruction i of z bytes.
fn one(
    b: &[u8],
    t: &mut [u8],
    cells: &mut [u32],
    s: &mut [u32],
    g: &mut [u8],
    x: Site,
    d: usize,
    k: Frame,
    used: u32,
    z: usize,
    i: Instr,
) -> Move
    requires { Before b.now t.old s.old g.old cells.old x d k z × Ready b.now t.old s.old g.old x d k z i }
    ensures { Does b.now x.classes t.old s.old g.old cells.old d k used t.new s.new g.new cells.new result (executed b.now x.classes t.old s.old g.old cells.old used d k z (instr_of i)) }
{
    match i {
        Instr::Simple(j) => windowed::simple(b, t, cells, s, g, x, d, k, used, z, j),
        Instr::Jump(j) => windowed::jump(b, t, cells, s, g, x, d, k, used, z, j),
        Instr::OnLocal(j) => windowed::on_local(b, t, cells, s, g, x, d, k, used, z, j),
        Instr::OnStack(j) => windowed::on_stack(b, t, cells, s, g, x, d, k, used, z, j),
        Instr::Leaving(j) => leave::leave(b, t, cells, s, g, x, d, k, used, z, j),
        Instr::New(j) => windowed::make(b, t, cells, s, g, x, d, k, used, z, j),
        Instr::Calling(j) => sending::call(b, t, cells, s, g, x, d, k, used, j),
        Instr::Illegal => Err(Ended {
            end: End::Stuck,
            used,
        }),
        Instr::Unresolved => Err(Ended {
            end: End::Stuck,
            used,
        }),
    }
}

// The instruction that call k at depth d stands at, of the method at x.
pub fn step_at(
    b: &[u8],
    t: &mut [u8],
    cells: &mut [u32],
    s: &mut [u32],
    g: &mut [u8],
    n: usize,
    x: Site,
    d: usize,
    k: Frame,
    used: u32,
) -> Move
    requires { Standing b.now n t.old s.old g.old d k × Dispatch b.now n t.old × (length cells.old ≤ max_heap) × Callable b.now n t.old × Located b.now n (k.class - 11) k.method x (front t.old) }
    ensures { Stepped b.now n t.old s.old g.old cells.old d k used t.new s.new g.new cells.new result }
{
    let from = x.start;
    let to = x.end;
    let code = &b[from..to];
    let o = k.offset as usize;
    if code.len() <= o {
        return Err(Ended {
            end: End::Stuck,
            used,
        });
    }
    let i = decode::fetch(b, t, x.class, code, o);
    let z = size_at(code, o);
    one(b, t, cells, s, g, x, d, k, used, z, i)
}
