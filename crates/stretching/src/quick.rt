// Instructions of one window by their opcodes. What calls, returns, throws or makes an object is left to a step: nothing is done, and the
// halt says no more than that.
ghost use Rattle.std.specs.Prelude.{◌≡◌, ◌+◌, ◌*◌, ◌%◌, ◌<◌, ◌^◌, length, get_or};
ghost use Rattle.stretching.specs.Quick.{Quick, Ready, bytes_at, kin_of, place_at};
ghost use Rattle.rules.specs.ResolvedWords.{word_of};

use crate::fields;
use plain::window::{Halt, Place, Turn};
use plain::{forms, groups, memory};
use rules::decode;
use rules::decode::Bytes;
use rules::instruction::Test::{Eq, Ge, Gt, Le, Lt, Ne};
use rules::instruction::{Division, Instr, Op};
use rules::opcodes::size_at;
use rules::types::Kin;

// What a stretch stands on: max_stack and max_locals of its method, its class in the bundle, how many classes there are in all.
#[derive(Clone, Copy)]
pub struct Ground {
    pub most: usize,
    pub locals: usize,
    pub class: usize,
    pub count: usize,
}

fn kin(y: Ground) -> Kin
    ensures { result ≡ kin_of y }
{
    Kin {
        at: 25728,
        count: y.count,
    }
}

// Before an instruction of z bytes.
fn place(y: Ground, at: u32, operands: usize, used: u32, z: u32) -> Place
    requires { at + z < 2 ^ 32 }
    ensures { result ≡ place_at y at operands used z }
{
    Place {
        operands,
        most: y.most,
        locals: y.locals,
        after: at + z,
        used,
    }
}

fn first(code: &[u8], at: u32) -> u8
    ensures { result ≡ get_or code.now (at + 1) 0 }
{
    kit::byte(code, at as usize + 1) as u8
}

fn second(code: &[u8], at: u32) -> u8
    ensures { result ≡ get_or code.now (at + 2) 0 }
{
    kit::byte(code, at as usize + 2) as u8
}

fn bytes(code: &[u8], at: u32) -> Bytes
    ensures { result ≡ bytes_at code.now at }
{
    let op = kit::byte(code, at as usize) as u8;
    Bytes {
        op,
        first: first(code, at),
        second: second(code, at),
        at: at as usize,
    }
}

// Where the branch leads.
fn goes_to(code: &[u8], at: u32) -> u16
    ensures { result ≡ (at + (get_or code.now (at + 1) 0 * 256 + get_or code.now (at + 2) 0)) % 2 ^ 16 }
{
    decode::target(bytes(code, at))
}

// The word of what the operand bytes name.
fn named(t: &[u8], code: &[u8], y: Ground, at: u32) -> u32
    ensures { result ≡ word_of t.now y.class (get_or code.now (at + 1) 0 * 256 + get_or code.now (at + 2) 0) }
{
    let i = first(code, at) as usize * 256 + second(code, at) as usize;
    decode::named_word(t, y.class, i)
}

fn get_field(
    b: &[u8],
    t: &[u8],
    code: &[u8],
    cells: &mut [u32],
    w: &mut [u32],
    g: &mut [u8],
    y: Ground,
    at: u32,
    operands: usize,
    used: u32,
) -> Turn
    requires { Ready code.now cells.old w.old g.old y at operands × (get_or code.now at 0 ≡ 0xb4) }
    ensures { Quick b.now t.now code.now y at operands used w.old g.old cells.old w.new g.new cells.new result }
{
    let r = named(t, code, y, at);
    if r % 8 != 3 {
        return Err(Halt::Stuck);
    }
    let c = place(y, at, operands, used, 3);
    fields::getfield(t, kin(y), cells, w, g, c, decode::field(r))
}

fn put_field(
    b: &[u8],
    t: &[u8],
    code: &[u8],
    cells: &mut [u32],
    w: &mut [u32],
    g: &mut [u8],
    y: Ground,
    at: u32,
    operands: usize,
    used: u32,
) -> Turn
    requires { Ready code.now cells.old w.old g.old y at operands × (get_or code.now at 0 ≡ 0xb5) }
    ensures { Quick b.now t.now code.now y at operands used w.old g.old cells.old w.new g.new cells.new result }
{
    let r = named(t, code, y, at);
    if r % 8 != 3 {
        return Err(Halt::Stuck);
    }
    let c = place(y, at, operands, used, 3);
    fields::putfield(t, kin(y), cells, w, g, c, decode::field(r))
}

// Numbers, arrays and tests of types: by what decoding makes of them.
fn decoded(
    b: &[u8],
    t: &[u8],
    code: &[u8],
    cells: &mut [u32],
    w: &mut [u32],
    g: &mut [u8],
    y: Ground,
    at: u32,
    operands: usize,
    used: u32,
) -> Turn
    requires { Ready code.now cells.old w.old g.old y at operands }
    ensures { Quick b.now t.now code.now y at operands used w.old g.old cells.old w.new g.new cells.new result }
{
    let o = at as usize;
    let i = decode::instruction(b, t, y.class, code, o);
    let Instr::Simple(j) = i else {
        return Err(Halt::Stuck);
    };
    let z = size_at(code, o) as u32;
    let c = place(y, at, operands, used, z);
    groups::plain(t, kin(y), cells, w, g, c, j)
}

// What decoding makes of the rest.
fn rare(
    b: &[u8],
    t: &[u8],
    code: &[u8],
    cells: &mut [u32],
    w: &mut [u32],
    g: &mut [u8],
    y: Ground,
    at: u32,
    operands: usize,
    used: u32,
    op: usize,
) -> Turn
    requires { Ready code.now cells.old w.old g.old y at operands × (op ≡ get_or code.now at 0) }
    ensures { Quick b.now t.now code.now y at operands used w.old g.old cells.old w.new g.new cells.new result }
{
    match op {
        0x12 | 0xbc | 0xbd | 0xc0 | 0xc1 => decoded(b, t, code, cells, w, g, y, at, operands, used),
        _ => Err(Halt::Stuck),
    }
}

// What is compiled as a call: stores of references, and whether two are the same.
fn called(
    b: &[u8],
    t: &[u8],
    code: &[u8],
    cells: &mut [u32],
    w: &mut [u32],
    g: &mut [u8],
    y: Ground,
    at: u32,
    operands: usize,
    used: u32,
    op: usize,
) -> Turn
    requires { Ready code.now cells.old w.old g.old y at operands × (op ≡ get_or code.now at 0) }
    ensures { Quick b.now t.now code.now y at operands used w.old g.old cells.old w.new g.new cells.new result }
{
    match op {
        0x53 => memory::aastore(t, kin(y), cells, w, g, place(y, at, operands, used, 1)),
        0xa5 => memory::if_same(
            t,
            kin(y),
            cells,
            w,
            g,
            place(y, at, operands, used, 3),
            true,
            decode::target(bytes(code, at)),
        ),
        0xa6 => memory::if_same(
            t,
            kin(y),
            cells,
            w,
            g,
            place(y, at, operands, used, 3),
            false,
            decode::target(bytes(code, at)),
        ),
        _ => rare(b, t, code, cells, w, g, y, at, operands, used, op),
    }
}

// The same, with the answer taken apart: a call writes its answer to memory, and what the lists that lead here answer would be written there
// too.
fn apart(
    b: &[u8],
    t: &[u8],
    code: &[u8],
    cells: &mut [u32],
    w: &mut [u32],
    g: &mut [u8],
    y: Ground,
    at: u32,
    operands: usize,
    used: u32,
    op: usize,
) -> Turn
    requires { Ready code.now cells.old w.old g.old y at operands × (op ≡ get_or code.now at 0) }
    ensures { Quick b.now t.now code.now y at operands used w.old g.old cells.old w.new g.new cells.new result }
{
    match called(b, t, code, cells, w, g, y, at, operands, used, op) {
        Ok(o) => Ok(o),
        Err(h) => Err(h),
    }
}

// Fields, tests for null.
fn others(
    b: &[u8],
    t: &[u8],
    code: &[u8],
    cells: &mut [u32],
    w: &mut [u32],
    g: &mut [u8],
    y: Ground,
    at: u32,
    operands: usize,
    used: u32,
    op: usize,
) -> Turn
    requires { Ready code.now cells.old w.old g.old y at operands × (op ≡ get_or code.now at 0) }
    ensures { Quick b.now t.now code.now y at operands used w.old g.old cells.old w.new g.new cells.new result }
{
    match op {
        0xb4 => get_field(b, t, code, cells, w, g, y, at, operands, used),
        0xb5 => put_field(b, t, code, cells, w, g, y, at, operands, used),
        0xc6 => memory::if_null(
            t,
            kin(y),
            cells,
            w,
            g,
            place(y, at, operands, used, 3),
            true,
            decode::target(bytes(code, at)),
        ),
        0xc7 => memory::if_null(
            t,
            kin(y),
            cells,
            w,
            g,
            place(y, at, operands, used, 3),
            false,
            decode::target(bytes(code, at)),
        ),
        _ => apart(b, t, code, cells, w, g, y, at, operands, used, op),
    }
}

// Branches by numbers.
fn branches(
    b: &[u8],
    t: &[u8],
    code: &[u8],
    cells: &mut [u32],
    w: &mut [u32],
    g: &mut [u8],
    y: Ground,
    at: u32,
    operands: usize,
    used: u32,
    op: usize,
) -> Turn
    requires { Ready code.now cells.old w.old g.old y at operands × (op ≡ get_or code.now at 0) }
    ensures { Quick b.now t.now code.now y at operands used w.old g.old cells.old w.new g.new cells.new result }
{
    match op {
        0x99 => forms::if_int(w, g, place(y, at, operands, used, 3), Eq, goes_to(code, at)),
        0x9a => forms::if_int(w, g, place(y, at, operands, used, 3), Ne, goes_to(code, at)),
        0x9b => forms::if_int(w, g, place(y, at, operands, used, 3), Lt, goes_to(code, at)),
        0x9c => forms::if_int(w, g, place(y, at, operands, used, 3), Ge, goes_to(code, at)),
        0x9d => forms::if_int(w, g, place(y, at, operands, used, 3), Gt, goes_to(code, at)),
        0x9e => forms::if_int(w, g, place(y, at, operands, used, 3), Le, goes_to(code, at)),
        0x9f => forms::if_two(w, g, place(y, at, operands, used, 3), Eq, goes_to(code, at)),
        0xa0 => forms::if_two(w, g, place(y, at, operands, used, 3), Ne, goes_to(code, at)),
        0xa1 => forms::if_two(w, g, place(y, at, operands, used, 3), Lt, goes_to(code, at)),
        0xa2 => forms::if_two(w, g, place(y, at, operands, used, 3), Ge, goes_to(code, at)),
        0xa3 => forms::if_two(w, g, place(y, at, operands, used, 3), Gt, goes_to(code, at)),
        0xa4 => forms::if_two(w, g, place(y, at, operands, used, 3), Le, goes_to(code, at)),
        0xa7 => forms::jump(w, g, place(y, at, operands, used, 3), goes_to(code, at)),
        _ => others(b, t, code, cells, w, g, y, at, operands, used, op),
    }
}

// Operands among themselves, and iinc.
fn arithmetic(
    b: &[u8],
    t: &[u8],
    code: &[u8],
    cells: &mut [u32],
    w: &mut [u32],
    g: &mut [u8],
    y: Ground,
    at: u32,
    operands: usize,
    used: u32,
    op: usize,
) -> Turn
    requires { Ready code.now cells.old w.old g.old y at operands × (op ≡ get_or code.now at 0) }
    ensures { Quick b.now t.now code.now y at operands used w.old g.old cells.old w.new g.new cells.new result }
{
    match op {
        0x57 => forms::pop(w, g, place(y, at, operands, used, 1)),
        0x59 => forms::dup(w, g, place(y, at, operands, used, 1)),
        0x5a => forms::dup_under(w, g, place(y, at, operands, used, 1)),
        0x5f => forms::swap(w, g, place(y, at, operands, used, 1)),
        0x60 => forms::ibin(w, g, place(y, at, operands, used, 1), Op::Add),
        0x64 => forms::ibin(w, g, place(y, at, operands, used, 1), Op::Sub),
        0x68 => forms::ibin(w, g, place(y, at, operands, used, 1), Op::Mul),
        0x6c => forms::idiv(w, g, place(y, at, operands, used, 1), Division::Quotient),
        0x70 => forms::idiv(w, g, place(y, at, operands, used, 1), Division::Remainder),
        0x74 => forms::ineg(w, g, place(y, at, operands, used, 1)),
        0x78 => forms::ibin(w, g, place(y, at, operands, used, 1), Op::Shl),
        0x7a => forms::ibin(w, g, place(y, at, operands, used, 1), Op::Shr),
        0x7c => forms::ibin(w, g, place(y, at, operands, used, 1), Op::Ushr),
        0x7e => forms::ibin(w, g, place(y, at, operands, used, 1), Op::And),
        0x80 => forms::ibin(w, g, place(y, at, operands, used, 1), Op::Or),
        0x82 => forms::ibin(w, g, place(y, at, operands, used, 1), Op::Xor),
        0x84 => forms::increment(
            w,
            g,
            place(y, at, operands, used, 3),
            first(code, at) as u16,
            decode::spread_byte(second(code, at)),
        ),
        _ => branches(b, t, code, cells, w, g, y, at, operands, used, op),
    }
}

// Stores, and lengths.
fn stores(
    b: &[u8],
    t: &[u8],
    code: &[u8],
    cells: &mut [u32],
    w: &mut [u32],
    g: &mut [u8],
    y: Ground,
    at: u32,
    operands: usize,
    used: u32,
    op: usize,
) -> Turn
    requires { Ready code.now cells.old w.old g.old y at operands × (op ≡ get_or code.now at 0) }
    ensures { Quick b.now t.now code.now y at operands used w.old g.old cells.old w.new g.new cells.new result }
{
    match op {
        0x36 => forms::store_int(
            w,
            g,
            place(y, at, operands, used, 2),
            first(code, at) as u16,
        ),
        0x3a => forms::store_ref(
            w,
            g,
            place(y, at, operands, used, 2),
            first(code, at) as u16,
        ),
        0x3b => forms::store_int(w, g, place(y, at, operands, used, 1), 0),
        0x3c => forms::store_int(w, g, place(y, at, operands, used, 1), 1),
        0x3d => forms::store_int(w, g, place(y, at, operands, used, 1), 2),
        0x3e => forms::store_int(w, g, place(y, at, operands, used, 1), 3),
        0x4b => forms::store_ref(w, g, place(y, at, operands, used, 1), 0),
        0x4c => forms::store_ref(w, g, place(y, at, operands, used, 1), 1),
        0x4d => forms::store_ref(w, g, place(y, at, operands, used, 1), 2),
        0x4e => forms::store_ref(w, g, place(y, at, operands, used, 1), 3),
        0x4f => memory::iastore(t, kin(y), cells, w, g, place(y, at, operands, used, 1)),
        0xbe => memory::length(t, kin(y), cells, w, g, place(y, at, operands, used, 1)),
        _ => arithmetic(b, t, code, cells, w, g, y, at, operands, used, op),
    }
}

// Loads.
fn loads(
    b: &[u8],
    t: &[u8],
    code: &[u8],
    cells: &mut [u32],
    w: &mut [u32],
    g: &mut [u8],
    y: Ground,
    at: u32,
    operands: usize,
    used: u32,
    op: usize,
) -> Turn
    requires { Ready code.now cells.old w.old g.old y at operands × (op ≡ get_or code.now at 0) }
    ensures { Quick b.now t.now code.now y at operands used w.old g.old cells.old w.new g.new cells.new result }
{
    match op {
        0x15 => forms::load_int(
            w,
            g,
            place(y, at, operands, used, 2),
            first(code, at) as u16,
        ),
        0x19 => forms::load_ref(
            w,
            g,
            place(y, at, operands, used, 2),
            first(code, at) as u16,
        ),
        0x1a => forms::load_int(w, g, place(y, at, operands, used, 1), 0),
        0x1b => forms::load_int(w, g, place(y, at, operands, used, 1), 1),
        0x1c => forms::load_int(w, g, place(y, at, operands, used, 1), 2),
        0x1d => forms::load_int(w, g, place(y, at, operands, used, 1), 3),
        0x2a => forms::load_ref(w, g, place(y, at, operands, used, 1), 0),
        0x2b => forms::load_ref(w, g, place(y, at, operands, used, 1), 1),
        0x2c => forms::load_ref(w, g, place(y, at, operands, used, 1), 2),
        0x2d => forms::load_ref(w, g, place(y, at, operands, used, 1), 3),
        0x2e => memory::iaload(t, kin(y), cells, w, g, place(y, at, operands, used, 1)),
        0x32 => memory::aaload(t, kin(y), cells, w, g, place(y, at, operands, used, 1)),
        _ => stores(b, t, code, cells, w, g, y, at, operands, used, op),
    }
}

// Constants.
fn constants(
    b: &[u8],
    t: &[u8],
    code: &[u8],
    cells: &mut [u32],
    w: &mut [u32],
    g: &mut [u8],
    y: Ground,
    at: u32,
    operands: usize,
    used: u32,
    op: usize,
) -> Turn
    requires { Ready code.now cells.old w.old g.old y at operands × (op ≡ get_or code.now at 0) }
    ensures { Quick b.now t.now code.now y at operands used w.old g.old cells.old w.new g.new cells.new result }
{
    match op {
        0x00 => forms::nop(w, g, place(y, at, operands, used, 1)),
        0x01 => forms::null(w, g, place(y, at, operands, used, 1)),
        0x02 => forms::constant(w, g, place(y, at, operands, used, 1), 0xffff_ffff),
        0x03 => forms::constant(w, g, place(y, at, operands, used, 1), 0),
        0x04 => forms::constant(w, g, place(y, at, operands, used, 1), 1),
        0x05 => forms::constant(w, g, place(y, at, operands, used, 1), 2),
        0x06 => forms::constant(w, g, place(y, at, operands, used, 1), 3),
        0x07 => forms::constant(w, g, place(y, at, operands, used, 1), 4),
        0x08 => forms::constant(w, g, place(y, at, operands, used, 1), 5),
        0x10 => forms::constant(
            w,
            g,
            place(y, at, operands, used, 2),
            decode::spread_byte(first(code, at)),
        ),
        0x11 => forms::constant(
            w,
            g,
            place(y, at, operands, used, 3),
            decode::spread_half(bytes(code, at)),
        ),
        _ => loads(b, t, code, cells, w, g, y, at, operands, used, op),
    }
}

// The instruction at an offset. Each list does nothing before its match and hands on what it does not have, so that the compiler makes one
// jump of all; those with calls come last.
pub fn turn(
    b: &[u8],
    t: &[u8],
    code: &[u8],
    cells: &mut [u32],
    w: &mut [u32],
    g: &mut [u8],
    y: Ground,
    at: u32,
    operands: usize,
    used: u32,
) -> Turn
    requires { Ready code.now cells.old w.old g.old y at operands }
    ensures { Quick b.now t.now code.now y at operands used w.old g.old cells.old w.new g.new cells.new result }
{
    let op = kit::byte(code, at as usize);
    constants(b, t, code, cells, w, g, y, at, operands, used, op)
}
