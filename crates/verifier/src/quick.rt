// Frequent instructions by their opcodes, where nothing is refused: the state has met what stands at the offset, and the handlers have been
// asked. The answer is what the instruction leaves, and nothing where nothing was done, for the walk to find out why.
ghost use Rattle.std.specs.Prelude.{◌≡◌, true, false, ◌+◌, ◌≤◌, get_or};
ghost use Rattle.rules.specs.TypeWords.{type_of};
ghost use Rattle.rules.specs.Slots.{Roomy};
ghost use Rattle.rules.specs.Sites.{site_code};
ghost use Rattle.rules.specs.FrameRows.{Laid};
ghost use Rattle.verifier.specs.QuickNames.{Idles, Pops};
ghost use Rattle.verifier.specs.Quick.{Pushed, LoadsInt, LoadsReference, StoresInt, StoresReference, Adds, Doubles, Numbers, Goes, OneInt, TwoInts, Tests, Compares, Away, Open, Tried, steady, target_at};

use crate::quick_names::names;
use rules::decode::Bytes;
use rules::frames::{Rows, into_frame};
use rules::instruction::Field;
use rules::site::Site;
use rules::slots::{Held, cut, local, peek, put, room, set_local};
use rules::types::{Kin, Ty};
use rules::{decode, types};

// What an instruction leaves: how deep the stack is, or that control does not go on.
#[derive(Clone, Copy, Debug, PartialEq, Eq)]
pub enum Went {
    On(usize),
    Off,
}

// Opcodes that leave the locals as they are, of those without a name.
pub fn keeps_locals(op: usize) -> bool
    ensures { result ≡ steady op }
{
    if op < 0x12 {
        return true;
    }
    if op < 0x15 {
        return false;
    }
    if op < 0x36 {
        return true;
    }
    if op < 0x57 {
        return false;
    }
    op < 0xa8
}

// A type comes on the stack, where there is room.
pub fn push(t: &mut [u8], h: Held, most: usize, w: Ty) -> Option<Went>
    requires { Roomy t.old h × (h.depth ≤ 32) }
    ensures { Pushed t.old t.new most h (type_of w.word) result }
{
    if room(h, 0, 1, most).is_err() {
        return None;
    }
    let g = put(t, h, 0, w);
    Some(Went::On(g.depth))
}

fn load_int(t: &mut [u8], h: Held, most: usize, j: u16) -> Option<Went>
    requires { Roomy t.old h × (h.depth ≤ 32) }
    ensures { LoadsInt t.old t.new most h j result }
{
    let w = local(t, h, j as usize);
    if !w.is_int() {
        return None;
    }
    push(t, h, most, Ty::int())
}

fn load_reference(t: &mut [u8], h: Held, most: usize, j: u16) -> Option<Went>
    requires { Roomy t.old h × (h.depth ≤ 32) }
    ensures { LoadsReference t.old t.new most h j result }
{
    let w = local(t, h, j as usize);
    if !w.is_reference() {
        return None;
    }
    push(t, h, most, w)
}

fn dup(t: &mut [u8], h: Held, most: usize) -> Option<Went>
    requires { Roomy t.old h × (h.depth ≤ 32) }
    ensures { Doubles t.old t.new most h result }
{
    if h.depth < 1 {
        return None;
    }
    push(t, h, most, peek(t, h, 0))
}

fn store_int(t: &mut [u8], h: Held, most: usize, j: u16) -> Option<Went>
    requires { Roomy t.old h }
    ensures { StoresInt t.old t.new most h j result }
{
    if h.depth < 1 {
        return None;
    }
    let w = peek(t, h, 0);
    if !w.is_int() {
        return None;
    }
    if room(h, 1, 0, most).is_err() {
        return None;
    }
    set_local(t, h, j as usize, Ty::int());
    Some(Went::On(h.depth - 1))
}

fn store_reference(t: &mut [u8], h: Held, most: usize, j: u16) -> Option<Went>
    requires { Roomy t.old h }
    ensures { StoresReference t.old t.new most h j result }
{
    if h.depth < 1 {
        return None;
    }
    let w = peek(t, h, 0);
    if !w.is_reference() {
        return None;
    }
    if room(h, 1, 0, most).is_err() {
        return None;
    }
    set_local(t, h, j as usize, w);
    Some(Went::On(h.depth - 1))
}

fn increment(t: &[u8], h: Held, most: usize, j: u16) -> Option<Went>
    requires { Roomy t.now h }
    ensures { Adds t.now t.now most h j result }
{
    let w = local(t, h, j as usize);
    if !w.is_int() {
        return None;
    }
    if room(h, 0, 0, most).is_err() {
        return None;
    }
    Some(Went::On(h.depth))
}

fn nothing(t: &[u8], h: Held, most: usize) -> Option<Went>
    requires { Roomy t.now h }
    ensures { Idles t.now most h result }
{
    if room(h, 0, 0, most).is_err() {
        return None;
    }
    Some(Went::On(h.depth))
}

fn pop(t: &[u8], h: Held, most: usize) -> Option<Went>
    requires { Roomy t.now h }
    ensures { Pops t.now most h result }
{
    if h.depth < 1 {
        return None;
    }
    if room(h, 1, 0, most).is_err() {
        return None;
    }
    Some(Went::On(h.depth - 1))
}

// The two operands on top are ints.
fn two_ints(t: &[u8], h: Held) -> bool
    requires { Roomy t.now h }
    ensures { result ≡ true → TwoInts t.now h }
{
    if h.depth < 2 {
        return false;
    }
    let a = peek(t, h, 0);
    if a.is_int() {
        let b = peek(t, h, 1);
        return b.is_int();
    }
    false
}

pub fn one_int(t: &[u8], h: Held) -> bool
    requires { Roomy t.now h }
    ensures { result ≡ true → OneInt t.now h }
{
    if h.depth < 1 {
        return false;
    }
    let a = peek(t, h, 0);
    a.is_int()
}

// Two ints give one.
fn numbers(t: &mut [u8], h: Held, most: usize) -> Option<Went>
    requires { Roomy t.old h × (h.depth ≤ 32) }
    ensures { Numbers t.old t.new most h result }
{
    if !two_ints(t, h) {
        return None;
    }
    if room(h, 2, 1, most).is_err() {
        return None;
    }
    let g = put(t, h, 2, Ty::int());
    Some(Went::On(g.depth))
}

// k operands go, and the state goes to the frame at a target.
pub fn branch(t: &[u8], kin: Kin, f: Rows, h: Held, most: usize, k: usize, o: u16) -> Option<Went>
    requires { Roomy t.now h × Laid t.now f }
    ensures { Goes t.now kin f most h k o result }
{
    if room(h, k, 0, most).is_err() {
        return None;
    }
    let g = cut(h, k);
    if into_frame(t, kin, f, g, o as usize).is_err() {
        return None;
    }
    Some(Went::On(g.depth))
}

fn test(t: &[u8], kin: Kin, f: Rows, h: Held, most: usize, o: u16) -> Option<Went>
    requires { Roomy t.now h × Laid t.now f }
    ensures { Tests t.now kin f most h o result }
{
    if !one_int(t, h) {
        return None;
    }
    branch(t, kin, f, h, most, 1, o)
}

fn compare(t: &[u8], kin: Kin, f: Rows, h: Held, most: usize, o: u16) -> Option<Went>
    requires { Roomy t.now h × Laid t.now f }
    ensures { Compares t.now kin f most h o result }
{
    if !two_ints(t, h) {
        return None;
    }
    branch(t, kin, f, h, most, 2, o)
}

fn goto(t: &[u8], kin: Kin, f: Rows, h: Held, most: usize, o: u16) -> Option<Went>
    requires { Roomy t.now h × Laid t.now f }
    ensures { Away t.now kin f most h o result }
{
    branch(t, kin, f, h, most, 0, o)?;
    Some(Went::Off)
}

fn first(code: &[u8], o: u16) -> u8
    ensures { result ≡ get_or code.now (o + 1) 0 }
{
    kit::byte(code, o as usize + 1) as u8
}

// Where a branch at o leads.
pub fn target(code: &[u8], o: u16) -> u16
    ensures { result ≡ target_at code.now o }
{
    let first = kit::byte(code, o as usize + 1) as u8;
    let second = kit::byte(code, o as usize + 2) as u8;
    decode::target(Bytes {
        op: 0,
        first: first,
        second: second,
        at: o as usize,
    })
}

// Constants.
fn constants(
    s: &[u8],
    t: &mut [u8],
    x: Site,
    kin: Kin,
    f: Rows,
    h: Held,
    code: &[u8],
    o: u16,
    op: usize,
) -> Option<Went>
    requires { Open s.now t.old x kin f h o × (code.now ≡ site_code s.now x) × (op ≡ get_or code.now o 0) }
    ensures { Tried s.now t.old t.new x f true h o result }
{
    match op {
        0x01 => push(t, h, x.stack, Ty::null()),
        0x02 => push(t, h, x.stack, Ty::int()),
        0x03 => push(t, h, x.stack, Ty::int()),
        0x04 => push(t, h, x.stack, Ty::int()),
        0x05 => push(t, h, x.stack, Ty::int()),
        0x06 => push(t, h, x.stack, Ty::int()),
        0x07 => push(t, h, x.stack, Ty::int()),
        0x08 => push(t, h, x.stack, Ty::int()),
        0x10 => push(t, h, x.stack, Ty::int()),
        0x11 => push(t, h, x.stack, Ty::int()),
        _ => stores(s, t, x, kin, f, h, code, o, op),
    }
}

// Loads.
fn loads(
    s: &[u8],
    t: &mut [u8],
    x: Site,
    kin: Kin,
    f: Rows,
    h: Held,
    code: &[u8],
    o: u16,
    op: usize,
) -> Option<Went>
    requires { Open s.now t.old x kin f h o × (code.now ≡ site_code s.now x) × (op ≡ get_or code.now o 0) }
    ensures { Tried s.now t.old t.new x f true h o result }
{
    match op {
        0x15 => load_int(t, h, x.stack, first(code, o) as u16),
        0x19 => load_reference(t, h, x.stack, first(code, o) as u16),
        0x1a => load_int(t, h, x.stack, 0),
        0x1b => load_int(t, h, x.stack, 1),
        0x1c => load_int(t, h, x.stack, 2),
        0x1d => load_int(t, h, x.stack, 3),
        0x2a => load_reference(t, h, x.stack, 0),
        0x2b => load_reference(t, h, x.stack, 1),
        0x2c => load_reference(t, h, x.stack, 2),
        0x2d => load_reference(t, h, x.stack, 3),
        _ => constants(s, t, x, kin, f, h, code, o, op),
    }
}

// Stores.
fn stores(
    s: &[u8],
    t: &mut [u8],
    x: Site,
    kin: Kin,
    f: Rows,
    h: Held,
    code: &[u8],
    o: u16,
    op: usize,
) -> Option<Went>
    requires { Open s.now t.old x kin f h o × (code.now ≡ site_code s.now x) × (op ≡ get_or code.now o 0) }
    ensures { Tried s.now t.old t.new x f true h o result }
{
    match op {
        0x36 => store_int(t, h, x.stack, first(code, o) as u16),
        0x3a => store_reference(t, h, x.stack, first(code, o) as u16),
        0x3b => store_int(t, h, x.stack, 0),
        0x3c => store_int(t, h, x.stack, 1),
        0x3d => store_int(t, h, x.stack, 2),
        0x3e => store_int(t, h, x.stack, 3),
        0x4b => store_reference(t, h, x.stack, 0),
        0x4c => store_reference(t, h, x.stack, 1),
        0x4d => store_reference(t, h, x.stack, 2),
        0x4e => store_reference(t, h, x.stack, 3),
        _ => arithmetic(s, t, x, kin, f, h, code, o, op),
    }
}

// Operands among themselves, iinc and nop.
fn arithmetic(
    s: &[u8],
    t: &mut [u8],
    x: Site,
    kin: Kin,
    f: Rows,
    h: Held,
    code: &[u8],
    o: u16,
    op: usize,
) -> Option<Went>
    requires { Open s.now t.old x kin f h o × (code.now ≡ site_code s.now x) × (op ≡ get_or code.now o 0) }
    ensures { Tried s.now t.old t.new x f true h o result }
{
    match op {
        0x00 => nothing(t, h, x.stack),
        0x57 => pop(t, h, x.stack),
        0x59 => dup(t, h, x.stack),
        0x60 => numbers(t, h, x.stack),
        0x64 => numbers(t, h, x.stack),
        0x68 => numbers(t, h, x.stack),
        0x6c => numbers(t, h, x.stack),
        0x70 => numbers(t, h, x.stack),
        0x78 => numbers(t, h, x.stack),
        0x7a => numbers(t, h, x.stack),
        0x7c => numbers(t, h, x.stack),
        0x7e => numbers(t, h, x.stack),
        0x80 => numbers(t, h, x.stack),
        0x82 => numbers(t, h, x.stack),
        0x84 => increment(t, h, x.stack, first(code, o) as u16),
        _ => branches(s, t, x, kin, f, h, code, o, op),
    }
}

// Branches.
fn branches(
    s: &[u8],
    t: &mut [u8],
    x: Site,
    kin: Kin,
    f: Rows,
    h: Held,
    code: &[u8],
    o: u16,
    op: usize,
) -> Option<Went>
    requires { Open s.now t.old x kin f h o × (code.now ≡ site_code s.now x) × (op ≡ get_or code.now o 0) }
    ensures { Tried s.now t.old t.new x f true h o result }
{
    match op {
        0x99 => test(t, kin, f, h, x.stack, target(code, o)),
        0x9a => test(t, kin, f, h, x.stack, target(code, o)),
        0x9b => test(t, kin, f, h, x.stack, target(code, o)),
        0x9c => test(t, kin, f, h, x.stack, target(code, o)),
        0x9d => test(t, kin, f, h, x.stack, target(code, o)),
        0x9e => test(t, kin, f, h, x.stack, target(code, o)),
        0x9f => compare(t, kin, f, h, x.stack, target(code, o)),
        0xa0 => compare(t, kin, f, h, x.stack, target(code, o)),
        0xa1 => compare(t, kin, f, h, x.stack, target(code, o)),
        0xa2 => compare(t, kin, f, h, x.stack, target(code, o)),
        0xa3 => compare(t, kin, f, h, x.stack, target(code, o)),
        0xa4 => compare(t, kin, f, h, x.stack, target(code, o)),
        0xa7 => goto(t, kin, f, h, x.stack, target(code, o)),
        _ => names(s, t, x, kin, f, h, code, o, op),
    }
}

// The instruction at o. Each list ends in the next one, so that one jump by the opcode finds the line.
pub fn quick(
    s: &[u8],
    t: &mut [u8],
    x: Site,
    kin: Kin,
    f: Rows,
    h: Held,
    code: &[u8],
    o: u16,
) -> Option<Went>
    requires { Open s.now t.old x kin f h o × (code.now ≡ site_code s.now x) }
    ensures { Tried s.now t.old t.new x f true h o result }
{
    let op = kit::byte(code, o as usize);
    loads(s, t, x, kin, f, h, code, o, op)
}
