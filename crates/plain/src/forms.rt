// The instructions that touch the running call's window alone.
ghost use Rattle.std.specs.Prelude.{◌≡◌, ◌+◌, ◌<◌, ◌≤◌, length};
ghost use Rattle.rules.specs.Instruction.{nop, aconstnull, pop, dup, dupx1, swap, ineg, iconst, iload, aload, istore, astore, goto, iinc, ibin, idiv, ifint, ificmp};
ghost use Rattle.plain.specs.Windows.{Sized, Goes};
ghost use Rattle.plain.specs.WindowForms.{doing, on_top, two_ints, in_local, turned_words, turned_tags};

use crate::integers;
use crate::values::Value;
use crate::window::{self, Halt, Onward, Place, Turn};
use rules::instruction::{Asking, Dividing, Operation};

// Whether an operand of that kind is on top.
pub fn on_top(g: &[u8], c: Place, kind: u8) -> bool
    requires { (length g.now ≡ 64) × (c.operands ≤ 32) }
    ensures { result ≡ on_top g.now c.operands kind }
{
    if c.operands < 1 {
        return false;
    }
    let i = 31 + c.operands;
    g[i] == kind
}

pub fn two_ints(g: &[u8], c: Place) -> bool
    requires { (length g.now ≡ 64) × (c.operands ≤ 32) }
    ensures { result ≡ two_ints g.now c.operands }
{
    if c.operands < 2 {
        return false;
    }
    let i = 31 + c.operands;
    if g[i] != Value::NUM {
        return false;
    }
    let j = 30 + c.operands;
    g[j] == Value::NUM
}

// Whether the local is there and of that kind.
fn in_local(g: &[u8], c: Place, j: usize, kind: u8) -> bool
    requires { (length g.now ≡ 64) × (c.locals ≤ 32) }
    ensures { result ≡ in_local g.now c.locals j kind }
{
    if c.locals <= j {
        return false;
    }
    g[j] == kind
}

// The two operands on top change places.
fn turn(w: &mut [u32], g: &mut [u8], c: Place)
    requires { (length w.old ≡ 64) × (length g.old ≡ 64) × (2 ≤ c.operands) × (c.operands ≤ 32) }
    ensures { (w.new ≡ turned_words c w.old g.old) × (g.new ≡ turned_tags c w.old g.old) }
{
    let i = 30 + c.operands;
    let j = 31 + c.operands;
    let b = w[i];
    let l = g[i];
    w[i] = w[j];
    w[j] = b;
    g[i] = g[j];
    g[j] = l;
}

pub fn nop(w: &[u32], g: &[u8], c: Place) -> Turn
    requires { Sized c w.now g.now }
    ensures { Goes c w.now g.now w.now g.now result (doing w.now g.now c.operands nop) }
{
    window::go(w, g, c, c.after)
}

pub fn jump(w: &[u32], g: &[u8], c: Place, t: u16) -> Turn
    requires { Sized c w.now g.now }
    ensures { Goes c w.now g.now w.now g.now result (doing w.now g.now c.operands (goto t)) }
{
    window::go(w, g, c, t as u32)
}

pub fn constant(w: &mut [u32], g: &mut [u8], c: Place, v: u32) -> Turn
    requires { Sized c w.old g.old }
    ensures { Goes c w.old g.old w.new g.new result (doing w.old g.old c.operands (iconst v)) }
{
    window::push(w, g, c, Value::num(v))
}

pub fn null(w: &mut [u32], g: &mut [u8], c: Place) -> Turn
    requires { Sized c w.old g.old }
    ensures { Goes c w.old g.old w.new g.new result (doing w.old g.old c.operands aconstnull) }
{
    window::push(w, g, c, Value::reference(0))
}

pub fn pop(w: &[u32], g: &[u8], c: Place) -> Turn
    requires { Sized c w.now g.now }
    ensures { Goes c w.now g.now w.now g.now result (doing w.now g.now c.operands pop) }
{
    if c.operands < 1 {
        return Err(Halt::Stuck);
    }
    let d = c.lowered(1);
    window::go(w, g, d, d.after)
}

pub fn dup(w: &mut [u32], g: &mut [u8], c: Place) -> Turn
    requires { Sized c w.old g.old }
    ensures { Goes c w.old g.old w.new g.new result (doing w.old g.old c.operands dup) }
{
    if c.operands < 1 {
        return Err(Halt::Stuck);
    }
    let i = 31 + c.operands;
    let v = Value {
        tag: g[i],
        cell: w[i],
    };
    window::push(w, g, c, v)
}

pub fn ineg(w: &mut [u32], g: &mut [u8], c: Place) -> Turn
    requires { Sized c w.old g.old }
    ensures { Goes c w.old g.old w.new g.new result (doing w.old g.old c.operands ineg) }
{
    if !on_top(g, c, Value::NUM) {
        return Err(Halt::Stuck);
    }
    let i = 31 + c.operands;
    let v = Value::num(integers::ineg(w[i]));
    window::push(w, g, c.lowered(1), v)
}

pub fn ibin<O: Operation>(w: &mut [u32], g: &mut [u8], c: Place, f: O) -> Turn
    requires { Sized c w.old g.old }
    ensures { Goes c w.old g.old w.new g.new result (doing w.old g.old c.operands (ibin (O.means f))) }
{
    if !two_ints(g, c) {
        return Err(Halt::Stuck);
    }
    let i = 30 + c.operands;
    let j = 31 + c.operands;
    let v = Value::num(integers::binary(f, w[i], w[j]));
    window::push(w, g, c.lowered(2), v)
}

pub fn idiv<D: Dividing>(w: &mut [u32], g: &mut [u8], c: Place, f: D) -> Turn
    requires { Sized c w.old g.old }
    ensures { Goes c w.old g.old w.new g.new result (doing w.old g.old c.operands (idiv (D.means f))) }
{
    if !two_ints(g, c) {
        return Err(Halt::Stuck);
    }
    let i = 30 + c.operands;
    let j = 31 + c.operands;
    let b = w[j];
    if b == 0 {
        return Err(Halt::Fault(4));
    }
    let v = Value::num(integers::divide(f, w[i], b));
    window::push(w, g, c.lowered(2), v)
}

pub fn if_int<T: Asking>(w: &[u32], g: &[u8], c: Place, f: T, t: u16) -> Turn
    requires { Sized c w.now g.now }
    ensures { Goes c w.now g.now w.now g.now result (doing w.now g.now c.operands (ifint (T.means f) t)) }
{
    if !on_top(g, c, Value::NUM) {
        return Err(Halt::Stuck);
    }
    let i = 31 + c.operands;
    let d = c.lowered(1);
    if integers::test(f, w[i], 0) {
        return window::go(w, g, d, t as u32);
    }
    window::go(w, g, d, d.after)
}

pub fn if_two<T: Asking>(w: &[u32], g: &[u8], c: Place, f: T, t: u16) -> Turn
    requires { Sized c w.now g.now }
    ensures { Goes c w.now g.now w.now g.now result (doing w.now g.now c.operands (ificmp (T.means f) t)) }
{
    if !two_ints(g, c) {
        return Err(Halt::Stuck);
    }
    let i = 30 + c.operands;
    let j = 31 + c.operands;
    let d = c.lowered(2);
    if integers::test(f, w[i], w[j]) {
        return window::go(w, g, d, t as u32);
    }
    window::go(w, g, d, d.after)
}

pub fn load_int(w: &mut [u32], g: &mut [u8], c: Place, j: u16) -> Turn
    requires { Sized c w.old g.old }
    ensures { Goes c w.old g.old w.new g.new result (doing w.old g.old c.operands (iload j)) }
{
    let i = j as usize;
    if !in_local(g, c, i, Value::NUM) {
        return Err(Halt::Stuck);
    }
    let v = Value::num(w[i]);
    window::push(w, g, c, v)
}

pub fn load_ref(w: &mut [u32], g: &mut [u8], c: Place, j: u16) -> Turn
    requires { Sized c w.old g.old }
    ensures { Goes c w.old g.old w.new g.new result (doing w.old g.old c.operands (aload j)) }
{
    let i = j as usize;
    if !in_local(g, c, i, Value::REF) {
        return Err(Halt::Stuck);
    }
    let v = Value::reference(w[i]);
    window::push(w, g, c, v)
}

pub fn store_int(w: &mut [u32], g: &mut [u8], c: Place, j: u16) -> Turn
    requires { Sized c w.old g.old }
    ensures { Goes c w.old g.old w.new g.new result (doing w.old g.old c.operands (istore j)) }
{
    if !on_top(g, c, Value::NUM) {
        return Err(Halt::Stuck);
    }
    let i = 31 + c.operands;
    let v = Value::num(w[i]);
    window::put_local(w, g, c.lowered(1), j as usize, v)
}

pub fn store_ref(w: &mut [u32], g: &mut [u8], c: Place, j: u16) -> Turn
    requires { Sized c w.old g.old }
    ensures { Goes c w.old g.old w.new g.new result (doing w.old g.old c.operands (astore j)) }
{
    if !on_top(g, c, Value::REF) {
        return Err(Halt::Stuck);
    }
    let i = 31 + c.operands;
    let v = Value::reference(w[i]);
    window::put_local(w, g, c.lowered(1), j as usize, v)
}

pub fn increment(w: &mut [u32], g: &mut [u8], c: Place, j: u16, k: u32) -> Turn
    requires { Sized c w.old g.old }
    ensures { Goes c w.old g.old w.new g.new result (doing w.old g.old c.operands (iinc j k)) }
{
    let i = j as usize;
    if !in_local(g, c, i, Value::NUM) {
        return Err(Halt::Stuck);
    }
    let v = Value::num(integers::iadd(w[i], k));
    window::put_local(w, g, c, i, v)
}

pub fn swap(w: &mut [u32], g: &mut [u8], c: Place) -> Turn
    requires { Sized c w.old g.old }
    ensures { Goes c w.old g.old w.new g.new result (doing w.old g.old c.operands swap) }
{
    if c.operands < 2 {
        return Err(Halt::Stuck);
    }
    if c.most < c.operands {
        return Err(Halt::Stuck);
    }
    turn(w, g, c);
    Ok(Onward {
        at: c.after,
        operands: c.operands,
        used: c.used,
    })
}

// The top operand goes under the next one too.
pub fn dup_under(w: &mut [u32], g: &mut [u8], c: Place) -> Turn
    requires { Sized c w.old g.old }
    ensures { Goes c w.old g.old w.new g.new result (doing w.old g.old c.operands dupx1) }
{
    if c.operands < 2 {
        return Err(Halt::Stuck);
    }
    if c.most <= c.operands {
        return Err(Halt::Stuck);
    }
    let j = 31 + c.operands;
    let a = w[j];
    let k = g[j];
    turn(w, g, c);
    let i = 32 + c.operands;
    w[i] = a;
    g[i] = k;
    Ok(Onward {
        at: c.after,
        operands: c.operands + 1,
        used: c.used,
    })
}
