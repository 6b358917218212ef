// The instructions that call, each test in the definition's order.
ghost use Rattle.std.specs.Prelude.{◌≡◌, ◌+◌, ◌-◌, ◌<◌, ◌≤◌, length};
ghost use Rattle.kit.specs.Words.{word};
ghost use Rattle.classfiles.specs.Descriptors.{cls};
ghost use Rattle.rules.specs.Ancestry.{lineage};
ghost use Rattle.rules.specs.Sites.{front};
ghost use Rattle.plain.specs.Heap.{heap, refers_to};
ghost use Rattle.plain.specs.ValueLaws.{value_of};
ghost use Rattle.plain.specs.Objects.{unmade};
ghost use Rattle.rules.specs.Known.{callee_in};
ghost use Rattle.running.specs.Calling.{Called, StaticCall, static_by, entry_at};
ghost use Rattle.running.specs.Receiving.{InitCall, init_by};
ghost use Rattle.running.specs.Dispatching.{spot_word};
ghost use Rattle.running.specs.Virtual.{VirtualCall, Received, virtual_by, receive_by};
ghost use Rattle.running.specs.Routes.{Routes};
ghost use Rattle.running.specs.Sending.{CallReady, call_by, Paid};

use crate::entering::{self, Way};
use crate::popping::{self, Popped};
use plain::calls::{Going, Running};
use plain::frames::Frame;
use plain::heap::{self};
use plain::objects::{self};
use plain::values::{self, RunType, Value};
use plain::window::Halt;
use rules::instruction::{Call, Callee};
use rules::site::Site;
use rules::types::Kin;

// The way into a method; or stuck, or a fault, which is a call's only one: NullPointerException.
pub type Route = Result<Way, Halt>;

// The number of a method's entry in the table of types.
fn entry(m: Callee) -> usize
    requires { 11 ≤ m.owner }
    ensures { result ≡ entry_at m.owner m.index }
{
    64 * (m.owner as usize - 11) + m.index as usize
}

// Of the call k at depth d, whose method's site is x, with its arguments popped.
fn into_static(
    b: &[u8],
    t: &[u8],
    s: &[u32],
    g: &[u8],
    cells: &[u32],
    x: Site,
    d: usize,
    k: Frame,
    m: Callee,
    p: Popped,
) -> Route
    requires { StaticCall b.now t.now s.now g.now x d k m × Paid t.now s.now g.now cells.now x d k m p }
    ensures { Routes b.now x.classes t.now s.now g.now cells.now d k (static_by b.now t.now s.now g.now x d k m) result }
{
    let v = popping::result_count(&t[0..187008], entry(m));
    if x.stack < v + p.left {
        return Err(Halt::Stuck);
    }
    Ok(Way {
        class: m.owner as u32,
        method: m.index as u32,
        own: 0,
        left: p.left,
        count: p.count,
    })
}

// The object that a constructor of class c is called for, below its arguments.
fn is_unmade(t: &[u8], cells: &[u32], n: usize, v: Value, c: u16) -> bool
    requires { (187008 ≤ length t.now) × (n ≤ 16) }
    ensures { result ≡ unmade (lineage (front t.now) 25728 (11 + n)) (heap cells.now 0) (cls c) (value_of v.tag v.cell) }
{
    let kin = Kin {
        at: 25728,
        count: 11 + n,
    };
    let asked = RunType {
        base: c as u32,
        depth: 0,
    };
    objects::is_unmade(&t[0..187008], kin, cells, v, asked)
}

// Of a built-in class: the object is ready, and there is no call.
fn make_ready(
    b: &[u8],
    t: &[u8],
    s: &[u32],
    g: &[u8],
    cells: &mut [u32],
    x: Site,
    d: usize,
    k: Frame,
    m: Callee,
) -> Going
    requires { InitCall b.now t.now s.now g.now x d k m × (m.owner < 11) }
    ensures { Called b.now x.classes t.now s.now g.now cells.old t.now s.now g.now cells.new d k result (init_by b.now t.now s.now g.now x d k m) }
{
    if k.operands == 0 {
        return Err(Halt::Stuck);
    }
    let v = popping::operand(s, g, d, k.operands as usize - 1);
    if !is_unmade(t, cells, x.classes, v, m.named) {
        return Err(Halt::Stuck);
    }
    heap::mark_ready(cells, v.cell - 1);
    let call = Frame {
        class: k.class,
        method: k.method,
        offset: k.offset + 3,
        own: k.own,
        operands: k.operands - 1,
        locals: k.locals,
    };
    Ok(Running { depth: d, call })
}

// Of a class of the bundle.
fn into_constructor(
    b: &[u8],
    t: &[u8],
    s: &[u32],
    g: &[u8],
    cells: &[u32],
    x: Site,
    d: usize,
    k: Frame,
    m: Callee,
    p: Popped,
) -> Route
    requires { InitCall b.now t.now s.now g.now x d k m × (11 ≤ m.owner) × Paid t.now s.now g.now cells.now x d k m p }
    ensures { Routes b.now x.classes t.now s.now g.now cells.now d k (init_by b.now t.now s.now g.now x d k m) result }
{
    if p.left == 0 {
        return Err(Halt::Stuck);
    }
    let v = popping::operand(s, g, d, p.left - 1);
    if !is_unmade(t, cells, x.classes, v, m.named) {
        return Err(Halt::Stuck);
    }
    Ok(Way {
        class: m.owner as u32,
        method: m.index as u32,
        own: v.cell,
        left: p.left - 1,
        count: p.count + 1,
    })
}

fn refers_to(t: &[u8], cells: &[u32], n: usize, v: Value, c: u16) -> bool
    requires { (187008 ≤ length t.now) × (n ≤ 16) }
    ensures { result ≡ refers_to (lineage (front t.now) 25728 (11 + n)) (heap cells.now 0) (cls c) (value_of v.tag v.cell) }
{
    let kin = Kin {
        at: 25728,
        count: 11 + n,
    };
    let asked = RunType {
        base: c as u32,
        depth: 0,
    };
    values::refers_to(&t[0..187008], kin, cells, v, asked)
}

// The word of the table for a receiver of class c and the found method m.
fn spot(t: &[u8], c: u32, m: Callee) -> u32
    requires { (11 ≤ c) × (11 ≤ m.owner) }
    ensures { result ≡ word t.now (spot_word (c - 11) (m.owner - 11) m.index) }
{
    let i = 1024 * (c as usize - 11);
    let j = 64 * (m.owner as usize - 11);
    kit::word(t, 48800 + i + j + m.index as usize)
}

// The receiver v with its arguments, n above the first l operands.
fn receive(
    b: &[u8],
    t: &[u8],
    s: &[u32],
    g: &[u8],
    cells: &[u32],
    x: Site,
    d: usize,
    k: Frame,
    m: Callee,
    l: usize,
    n: usize,
    v: Value,
) -> Route
    requires { Received b.now t.now s.now g.now x d k m l n }
    ensures { Routes b.now x.classes t.now s.now g.now cells.now d k (receive_by b.now t.now s.now g.now x d m l n v) result }
{
    if !refers_to(t, cells, x.classes, v, m.named) {
        return Err(Halt::Stuck);
    }
    if v.cell == 0 {
        return Err(Halt::Fault(10));
    }
    let u = values::type_at(cells, v.cell - 1);
    if u.depth != 0 {
        return Err(Halt::Stuck);
    }
    let w = spot(t, u.base, m);
    if w == 0 {
        return Err(Halt::Stuck);
    }
    Ok(Way {
        class: (w - 1) / 64,
        method: (w - 1) % 64,
        own: 0,
        left: l,
        count: n,
    })
}

fn into_virtual(
    b: &[u8],
    t: &[u8],
    s: &[u32],
    g: &[u8],
    cells: &[u32],
    x: Site,
    d: usize,
    k: Frame,
    m: Callee,
    p: Popped,
) -> Route
    requires { VirtualCall b.now t.now s.now g.now x d k m × Paid t.now s.now g.now cells.now x d k m p }
    ensures { Routes b.now x.classes t.now s.now g.now cells.now d k (virtual_by b.now t.now s.now g.now x d k m) result }
{
    if p.left == 0 {
        return Err(Halt::Stuck);
    }
    let c = popping::result_count(&t[0..187008], entry(m));
    if x.stack < c + (p.left - 1) {
        return Err(Halt::Stuck);
    }
    let v = popping::operand(s, g, d, p.left - 1);
    receive(b, t, s, g, cells, x, d, k, m, p.left - 1, p.count + 1, v)
}

// Of a method of the bundle.
fn way_of(
    b: &[u8],
    t: &[u8],
    s: &[u32],
    g: &[u8],
    cells: &[u32],
    x: Site,
    d: usize,
    k: Frame,
    i: Call,
    p: Popped,
) -> Route
    requires { CallReady b.now t.now s.now g.now x d k i × (11 ≤ (callee_in i).owner) × Paid t.now s.now g.now cells.now x d k (callee_in i) p }
    ensures { Routes b.now x.classes t.now s.now g.now cells.now d k (call_by b.now t.now s.now g.now x d k i) result }
{
    match i {
        Call::Virtual(m) => into_virtual(b, t, s, g, cells, x, d, k, m, p),
        Call::Special(m) => into_constructor(b, t, s, g, cells, x, d, k, m, p),
        Call::Static(m) => into_static(b, t, s, g, cells, x, d, k, m, p),
    }
}
// Its arguments are popped and the method is entered here alone, for all three kinds, so that both become part of the run's loop.
pub fn call(
    b: &[u8],
    t: &mut [u8],
    s: &mut [u32],
    g: &mut [u8],
    cells: &mut [u32],
    x: Site,
    d: usize,
    k: Frame,
    i: Call,
) -> Going
    requires { CallReady b.now t.old s.old g.old x d k i }
    ensures { Called b.now x.classes t.old s.old g.old cells.old t.new s.new g.new cells.new d k result (call_by b.now t.old s.old g.old x d k i) }
{
    let m = i.callee();
    if m.owner < 11 {
        return make_ready(b, t, s, g, cells, x, d, k, m);
    }
    let Some(p) = popping::pop_at(t, s, g, cells, x.classes, d, entry(m), k.operands as usize)
    else {
        return Err(Halt::Stuck);
    };
    let way = way_of(b, t, s, g, cells, x, d, k, i, p)?;
    entering::go_into(b, t, s, g, x, d, k, way)
}
