// How what a part of a step answers goes on.
ghost use Rattle.std.specs.Prelude.{◌≡◌};
ghost use Rattle.stepping.specs.Moves.{After, Lands, Given, Stops, going_on, cell_of};

use plain::calls::Going;
use plain::frames::Frame;
use plain::values::Value;
use plain::window::Halt;
use running::ends::{End, Ended, Move, Moved};
use running::leaving::Left;
use running::throwing;

// On, where the heap is used as far as before, or the halt.
pub fn onto(r: Going, used: u32) -> Result<Move, Halt>
    ensures { result ≡ going_on used r }
{
    match r {
        Ok(r) => Ok(Ok(Moved {
            depth: r.depth,
            call: r.call,
            used,
        })),
        Err(h) => Err(h),
    }
}

// What is returned, as a cell.
fn cell(v: Option<Value>) -> u32
    ensures { result ≡ cell_of v }
{
    match v {
        Some(v) => v.to_cell(),
        None => 0,
    }
}

// Heap full, depth full, or stuck.
pub fn stop(h: Halt, used: u32) -> Move
    ensures { Stops h used result }
{
    match h {
        Halt::HeapFull => Err(Ended {
            end: End::HeapFull,
            used,
        }),
        Halt::DepthFull => Err(Ended {
            end: End::DepthFull,
            used,
        }),
        Halt::Fault(_) => Err(Ended {
            end: End::Stuck,
            used,
        }),
        Halt::Stuck => Err(Ended {
            end: End::Stuck,
            used,
        }),
    }
}

pub fn given(r: Result<Left, Halt>, used: u32) -> Move
    ensures { Given used r result }
{
    match r {
        Ok(left) => match left {
            Left::Back(r) => Ok(Moved {
                depth: r.depth,
                call: r.call,
                used,
            }),
            Left::Out(v) => Err(Ended {
                end: End::Returned(cell(v)),
                used,
            }),
        },
        Err(h) => stop(h, used),
    }
}

// As said, or what the halt comes to.
pub fn after(
    b: &[u8],
    t: &[u8],
    cells: &mut [u32],
    s: &mut [u32],
    g: &mut [u8],
    n: usize,
    d: usize,
    k: Frame,
    used: u32,
    r: Result<Move, Halt>,
) -> Move
    requires { Lands b.now n t.now s.old g.old cells.old d k r }
    ensures { After b.now n t.now s.old g.old cells.old s.new g.new cells.new d k used r result }
{
    match r {
        Ok(m) => m,
        Err(h) => throwing::halted(b, t, cells, s, g, n, d, k, used, h),
    }
}
