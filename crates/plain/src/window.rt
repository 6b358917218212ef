// The running call's window: 64 slots with their tags, locals from 0 on, operands from 32 on.
ghost use Rattle.std.specs.Prelude.{◌≡◌, ◌-◌, ◌≤◌};
ghost use Rattle.plain.specs.ValueLaws.{value_of};
ghost use Rattle.plain.specs.Windows.{Sized, Goes, going, pushing, storing};

use crate::values::Value;

// Where the running call stands: its operands' number, max_stack, how many locals it has, the next instruction's offset, and the heap's
// cells in use.
#[derive(Clone, Copy)]
pub struct Place {
    pub operands: usize,
    pub most: usize,
    pub locals: usize,
    pub after: u32,
    pub used: u32,
}

impl Place {
    // With k operands fewer.
    pub fn lowered(self, k: usize) -> Place
        requires { k ≤ self.operands }
        ensures { result ≡ record { operands = self.operands - k; most = self.most; locals = self.locals; after = self.after; used = self.used } }
    {
        Place {
            operands: self.operands - k,
            most: self.most,
            locals: self.locals,
            after: self.after,
            used: self.used,
        }
    }
}

// Where a step goes on: the next instruction's offset, how many operands there are, and the heap's cells in use.
#[derive(Clone, Copy, Debug, PartialEq, Eq)]
pub struct Onward {
    pub at: u32,
    pub operands: usize,
    pub used: u32,
}

// Why one does not go on: a fault of a built-in class, no room in the heap or for another call, or nothing says how.
#[derive(Clone, Copy, Debug, PartialEq, Eq)]
pub enum Halt {
    Fault(u32),
    HeapFull,
    DepthFull,
    Stuck,
}

pub type Turn = Result<Onward, Halt>;

// On at an offset with the operands that are there; above max_stack it is stuck.
pub fn go(w: &[u32], g: &[u8], c: Place, at: u32) -> Turn
    requires { Sized c w.now g.now }
    ensures { Goes c w.now g.now w.now g.now result (going at w.now g.now c.operands) }
{
    if c.most < c.operands {
        return Err(Halt::Stuck);
    }
    Ok(Onward {
        at,
        operands: c.operands,
        used: c.used,
    })
}

// To the next instruction with v on the operands.
pub fn push(w: &mut [u32], g: &mut [u8], c: Place, v: Value) -> Turn
    requires { Sized c w.old g.old }
    ensures { Goes c w.old g.old w.new g.new result (pushing (value_of v.tag v.cell) w.old g.old c.operands) }
{
    if c.most <= c.operands {
        return Err(Halt::Stuck);
    }
    let i = 32 + c.operands;
    w[i] = v.cell;
    g[i] = v.tag;
    Ok(Onward {
        at: c.after,
        operands: c.operands + 1,
        used: c.used,
    })
}

// To the next instruction with the local j set; one that is not there takes nothing.
pub fn put_local(w: &mut [u32], g: &mut [u8], c: Place, j: usize, v: Value) -> Turn
    requires { Sized c w.old g.old }
    ensures { Goes c w.old g.old w.new g.new result (storing (value_of v.tag v.cell) j w.old g.old c.operands) }
{
    if c.most < c.operands {
        return Err(Halt::Stuck);
    }
    let r = Ok(Onward {
        at: c.after,
        operands: c.operands,
        used: c.used,
    });
    if c.locals <= j {
        return r;
    }
    w[j] = v.cell;
    g[j] = v.tag;
    r
}
