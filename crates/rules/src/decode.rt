// The instruction at an offset of a method's code, with what it names.
ghost use Rattle.std.specs.Prelude.{◌≡◌, ◌+◌, ◌*◌, ◌≤◌, ◌<◌, ◌%◌, ◌^◌, get_or};
ghost use Rattle.rules.specs.Instruction.{iconst, getfield, putfield, invokevirtual, invokespecial, invokestatic, checkcast, instanceof};
ghost use Rattle.rules.specs.Resolve.{as_number, as_type, as_field, new_of, array_of, is_static_call, is_virtual_call, is_init_call};
ghost use Rattle.rules.specs.Opcodes.{extend};
ghost use Rattle.rules.specs.InstructionWords.{field_of, callee_of, instr_of};
ghost use Rattle.rules.specs.ResolvedWords.{field_in, method_in, resolved_of, word_of};
ghost use Rattle.rules.specs.Decoding.{Refers, CallsBy, Made, Named, Decoded, DecodedAt};

use crate::codes;
use crate::instruction::{
    Branch, Call, Callee, Division, Field, Instr, Leave, Local, Op, Plain, Stack, Test,
};
use crate::types::Ty;
use texts::items;

// An opcode, the two bytes behind it, and its offset.
#[derive(Clone, Copy)]
pub struct Bytes {
    pub op: u8,
    pub first: u8,
    pub second: u8,
    pub at: usize,
}

fn both(x: Bytes) -> usize
    ensures { (result ≡ x.first * 256 + x.second) × (result < 65536) }
{
    (x.first as usize) * 256 + x.second as usize
}

// A byte with its sign, as 32 bits.
pub fn spread_byte(a: u8) -> u32
    ensures { result ≡ extend 8 a }
{
    if a < 128 {
        return a as u32;
    }
    a as u32 + 0xffff_ff00
}

// The two operand bytes likewise.
pub fn spread_half(x: Bytes) -> u32
    ensures { result ≡ extend 16 (x.first * 256 + x.second) }
{
    let v = both(x) as u32;
    if v < 32768 {
        return v;
    }
    v + 0xffff_0000
}

// Where a branch leads.
pub fn target(x: Bytes) -> u16
    ensures { result ≡ (x.at + (x.first * 256 + x.second)) % 2 ^ 16 }
{
    ((x.at % 65536 + both(x)) % 65536) as u16
}

#[tactic(auto, unfolding(crate::specs::Decoding::made, crate::specs::Opcodes::row_of, crate::specs::Opcodes::row_in, crate::specs::Opcodes::rows))]
fn constant(x: Bytes) -> Instr
    requires { x.op < 0x12 }
    ensures { Made x result }
{
    let op = x.op;
    match op {
        0x00 => Instr::Simple(Plain::Nop),
        0x01 => Instr::Simple(Plain::Aconstnull),
        0x02 => Instr::Simple(Plain::Iconst(0xffff_ffff)),
        0x03 => Instr::Simple(Plain::Iconst(0)),
        0x04 => Instr::Simple(Plain::Iconst(1)),
        0x05 => Instr::Simple(Plain::Iconst(2)),
        0x06 => Instr::Simple(Plain::Iconst(3)),
        0x07 => Instr::Simple(Plain::Iconst(4)),
        0x08 => Instr::Simple(Plain::Iconst(5)),
        0x10 => Instr::Simple(Plain::Iconst(spread_byte(x.first))),
        0x11 => Instr::Simple(Plain::Iconst(spread_half(x))),
        _ => Instr::Illegal,
    }
}

#[tactic(auto, unfolding(crate::specs::Decoding::made, crate::specs::Opcodes::row_of, crate::specs::Opcodes::row_in, crate::specs::Opcodes::rows))]
fn load(x: Bytes) -> Instr
    requires { (0x13 ≤ x.op) × (x.op < 0x36) }
    ensures { Made x result }
{
    let op = x.op;
    match op {
        0x15 => Instr::OnLocal(Local::Iload(x.first as u16)),
        0x19 => Instr::OnLocal(Local::Aload(x.first as u16)),
        0x1a => Instr::OnLocal(Local::Iload(0)),
        0x1b => Instr::OnLocal(Local::Iload(1)),
        0x1c => Instr::OnLocal(Local::Iload(2)),
        0x1d => Instr::OnLocal(Local::Iload(3)),
        0x2a => Instr::OnLocal(Local::Aload(0)),
        0x2b => Instr::OnLocal(Local::Aload(1)),
        0x2c => Instr::OnLocal(Local::Aload(2)),
        0x2d => Instr::OnLocal(Local::Aload(3)),
        0x2e => Instr::Simple(Plain::Iaload),
        0x32 => Instr::OnStack(Stack::Aaload),
        _ => Instr::Illegal,
    }
}

#[tactic(auto, unfolding(crate::specs::Decoding::made, crate::specs::Opcodes::row_of, crate::specs::Opcodes::row_in, crate::specs::Opcodes::rows))]
fn store(x: Bytes) -> Instr
    requires { (0x36 ≤ x.op) × (x.op < 0x57) }
    ensures { Made x result }
{
    let op = x.op;
    match op {
        0x36 => Instr::OnLocal(Local::Istore(x.first as u16)),
        0x3a => Instr::OnLocal(Local::Astore(x.first as u16)),
        0x3b => Instr::OnLocal(Local::Istore(0)),
        0x3c => Instr::OnLocal(Local::Istore(1)),
        0x3d => Instr::OnLocal(Local::Istore(2)),
        0x3e => Instr::OnLocal(Local::Istore(3)),
        0x4b => Instr::OnLocal(Local::Astore(0)),
        0x4c => Instr::OnLocal(Local::Astore(1)),
        0x4d => Instr::OnLocal(Local::Astore(2)),
        0x4e => Instr::OnLocal(Local::Astore(3)),
        0x4f => Instr::Simple(Plain::Iastore),
        0x53 => Instr::Simple(Plain::Aastore),
        _ => Instr::Illegal,
    }
}

#[tactic(auto, unfolding(crate::specs::Decoding::made, crate::specs::Opcodes::row_of, crate::specs::Opcodes::row_in, crate::specs::Opcodes::rows))]
fn on_stack(x: Bytes) -> Instr
    requires { (0x57 ≤ x.op) × (x.op < 0x60) }
    ensures { Made x result }
{
    let op = x.op;
    match op {
        0x57 => Instr::Simple(Plain::Pop),
        0x59 => Instr::OnStack(Stack::Dup),
        0x5a => Instr::OnStack(Stack::Dupx1),
        0x5f => Instr::OnStack(Stack::Swap),
        _ => Instr::Illegal,
    }
}

#[tactic(auto, unfolding(crate::specs::Decoding::made, crate::specs::Opcodes::row_of, crate::specs::Opcodes::row_in, crate::specs::Opcodes::rows))]
fn arithmetic(x: Bytes) -> Instr
    requires { (0x60 ≤ x.op) × (x.op < 0x99) }
    ensures { Made x result }
{
    let op = x.op;
    match op {
        0x60 => Instr::Simple(Plain::Ibin(Op::Add)),
        0x64 => Instr::Simple(Plain::Ibin(Op::Sub)),
        0x68 => Instr::Simple(Plain::Ibin(Op::Mul)),
        0x6c => Instr::Simple(Plain::Idiv(Division::Quotient)),
        0x70 => Instr::Simple(Plain::Idiv(Division::Remainder)),
        0x74 => Instr::Simple(Plain::Ineg),
        0x78 => Instr::Simple(Plain::Ibin(Op::Shl)),
        0x7a => Instr::Simple(Plain::Ibin(Op::Shr)),
        0x7c => Instr::Simple(Plain::Ibin(Op::Ushr)),
        0x7e => Instr::Simple(Plain::Ibin(Op::And)),
        0x80 => Instr::Simple(Plain::Ibin(Op::Or)),
        0x82 => Instr::Simple(Plain::Ibin(Op::Xor)),
        0x84 => Instr::OnLocal(Local::Iinc(x.first as u16, spread_byte(x.second))),
        _ => Instr::Illegal,
    }
}

#[tactic(auto, unfolding(crate::specs::Decoding::made, crate::specs::Opcodes::row_of, crate::specs::Opcodes::row_in, crate::specs::Opcodes::rows))]
fn comparison(x: Bytes) -> Instr
    requires { (0x99 ≤ x.op) × (x.op < 0xa7) }
    ensures { Made x result }
{
    let t = target(x);
    let op = x.op;
    match op {
        0x99 => Instr::Jump(Branch::Ifint(Test::Eq, t)),
        0x9a => Instr::Jump(Branch::Ifint(Test::Ne, t)),
        0x9b => Instr::Jump(Branch::Ifint(Test::Lt, t)),
        0x9c => Instr::Jump(Branch::Ifint(Test::Ge, t)),
        0x9d => Instr::Jump(Branch::Ifint(Test::Gt, t)),
        0x9e => Instr::Jump(Branch::Ifint(Test::Le, t)),
        0x9f => Instr::Jump(Branch::Ificmp(Test::Eq, t)),
        0xa0 => Instr::Jump(Branch::Ificmp(Test::Ne, t)),
        0xa1 => Instr::Jump(Branch::Ificmp(Test::Lt, t)),
        0xa2 => Instr::Jump(Branch::Ificmp(Test::Ge, t)),
        0xa3 => Instr::Jump(Branch::Ificmp(Test::Gt, t)),
        0xa4 => Instr::Jump(Branch::Ificmp(Test::Le, t)),
        0xa5 => Instr::Jump(Branch::Ifacmp(true, t)),
        0xa6 => Instr::Jump(Branch::Ifacmp(false, t)),
        _ => Instr::Illegal,
    }
}

#[tactic(auto, unfolding(crate::specs::Decoding::made, crate::specs::Opcodes::row_of, crate::specs::Opcodes::row_in, crate::specs::Opcodes::rows))]
fn leaving(x: Bytes) -> Instr
    requires { (0xa7 ≤ x.op) × (x.op < 0xb4) }
    ensures { Made x result }
{
    let op = x.op;
    match op {
        0xa7 => Instr::Jump(Branch::Goto(target(x))),
        0xac => Instr::Leaving(Leave::Ireturn),
        0xb0 => Instr::Leaving(Leave::Areturn),
        0xb1 => Instr::Leaving(Leave::Return),
        _ => Instr::Illegal,
    }
}

// What names nothing of the pool.
fn unnamed(x: Bytes) -> Instr
    requires { (x.op < 0xb4) × (x.op ≡ 0x12 → ⊥) }
    ensures { Made x result }
{
    if x.op < 0x12 {
        return constant(x);
    }
    if x.op < 0x36 {
        return load(x);
    }
    if x.op < 0x57 {
        return store(x);
    }
    if x.op < 0x60 {
        return on_stack(x);
    }
    if x.op < 0x99 {
        return arithmetic(x);
    }
    if x.op < 0xa7 {
        return comparison(x);
    }
    leaving(x)
}

// The word of entry i of a bundle class's pool; 0 where there is none.
pub fn named_word(t: &[u8], c: usize, i: usize) -> u32
    ensures { result ≡ word_of t.now c i }
{
    if c < 16 {
        if i < 1024 {
            return kit::word(t, 25760 + 1024 * c + i);
        }
    }
    0
}

pub fn field(w: u32) -> Field
    ensures { field_of result ≡ field_in w }
{
    Field {
        named: (w / 2048 % 32) as u16,
        owner: (w / 65536 % 32) as u16,
        slot: (w / 2097152 % 1024) as u16,
        of: codes::described((w / 8 % 256) as u8),
    }
}

fn callee(w: u32) -> Callee
    ensures { callee_of result ≡ method_in w }
{
    Callee {
        named: (w / 8 % 32) as u16,
        owner: (w / 256 % 32) as u16,
        index: (w / 8192 % 64) as u16,
    }
}

fn number_of(s: &[u8], w: u32) -> Instr
    ensures { instr_of result ≡ as_number iconst (resolved_of s.now w) }
{
    if w % 8 == 1 {
        return Instr::Simple(Plain::Iconst(items::u4_at(s, (w / 8 + 1) as usize) as u32));
    }
    Instr::Unresolved
}

// This and the next differ in the form alone, as `cast` and `instance` do: a closure that makes it would need clauses longer than the twin.
fn get_field(w: u32) -> Instr
    ensures { Refers (as_field getfield) w result }
{
    if w % 8 == 3 {
        return Instr::Simple(Plain::Getfield(field(w)));
    }
    Instr::Unresolved
}

fn put_field(w: u32) -> Instr
    ensures { Refers (as_field putfield) w result }
{
    if w % 8 == 3 {
        return Instr::Simple(Plain::Putfield(field(w)));
    }
    Instr::Unresolved
}

fn virtual_call(w: u32) -> Instr
    ensures { CallsBy is_virtual_call invokevirtual w result }
{
    if w % 8 != 4 {
        return Instr::Unresolved;
    }
    if w / 1048576 % 2 == 1 {
        return Instr::Unresolved;
    }
    if w / 524288 % 2 == 1 {
        return Instr::Unresolved;
    }
    Instr::Calling(Call::Virtual(callee(w)))
}

fn special_call(w: u32) -> Instr
    ensures { CallsBy is_init_call invokespecial w result }
{
    if w % 8 != 4 {
        return Instr::Unresolved;
    }
    if w / 1048576 % 2 == 1 {
        return Instr::Calling(Call::Special(callee(w)));
    }
    Instr::Unresolved
}

fn static_call(w: u32) -> Instr
    ensures { CallsBy is_static_call invokestatic w result }
{
    if w % 8 != 4 {
        return Instr::Unresolved;
    }
    if w / 1048576 % 2 == 1 {
        return Instr::Unresolved;
    }
    if w / 524288 % 2 == 1 {
        return Instr::Calling(Call::Static(callee(w)));
    }
    Instr::Unresolved
}

fn new_object(w: u32) -> Instr
    ensures { Refers (as_type new_of) w result }
{
    if w % 8 != 2 {
        return Instr::Unresolved;
    }
    let k = (w / 8 % 256) as u8;
    if k % 8 == 0 {
        return Instr::New((k / 8) as u16);
    }
    Instr::Unresolved
}

fn new_array(w: u32) -> Instr
    ensures { Refers (as_type array_of) w result }
{
    if w % 8 != 2 {
        return Instr::Unresolved;
    }
    let k = (w / 8 % 256) as u8;
    if k % 8 < 7 {
        return Instr::Simple(Plain::Newarray(codes::array_of(k)));
    }
    Instr::Unresolved
}

fn cast(w: u32) -> Instr
    ensures { Refers (as_type checkcast) w result }
{
    if w % 8 == 2 {
        return Instr::Simple(Plain::Checkcast(codes::reference((w / 8 % 256) as u8)));
    }
    Instr::Unresolved
}

fn instance(w: u32) -> Instr
    ensures { Refers (as_type instanceof) w result }
{
    if w % 8 == 2 {
        return Instr::Simple(Plain::Instanceof(codes::reference((w / 8 % 256) as u8)));
    }
    Instr::Unresolved
}

fn int_array(x: Bytes) -> Instr
    requires { x.op ≡ 0xbc }
    ensures { Made x result }
{
    if x.first == 10 {
        return Instr::Simple(Plain::Newarray(Ty {
            word: Ty::ARRAY + 64 * Ty::INT_BASE,
        }));
    }
    Instr::Illegal
}

// From 0xb4 on; w is the word of what the operand bytes name.
#[tactic(auto, unfolding(crate::specs::Decoding::made, crate::specs::Opcodes::row_of, crate::specs::Opcodes::row_in, crate::specs::Opcodes::rows))]
fn naming(x: Bytes, w: u32) -> Instr
    requires { 0xb4 ≤ x.op }
    ensures { Named x (x.first * 256 + x.second) w result }
{
    let op = x.op;
    match op {
        0xb4 => get_field(w),
        0xb5 => put_field(w),
        0xb6 => virtual_call(w),
        0xb7 => special_call(w),
        0xb8 => static_call(w),
        0xbb => new_object(w),
        0xbc => int_array(x),
        0xbd => new_array(w),
        0xbe => Instr::OnStack(Stack::Arraylength),
        0xbf => Instr::Leaving(Leave::Athrow),
        0xc0 => cast(w),
        0xc1 => instance(w),
        0xc6 => Instr::Jump(Branch::Ifnull(true, target(x))),
        0xc7 => Instr::Jump(Branch::Ifnull(false, target(x))),
        _ => Instr::Illegal,
    }
}

// An instruction of bundle class c by its bytes.
fn made(s: &[u8], t: &[u8], c: usize, x: Bytes) -> Instr
    ensures { Decoded s.now t.now c x result }
{
    if x.op == 0x12 {
        return number_of(s, named_word(t, c, x.first as usize));
    }
    if x.op < 0xb4 {
        return unnamed(x);
    }
    naming(x, named_word(t, c, both(x)))
}

// The instruction at o of the code of one of bundle class c's methods.
pub fn instruction(s: &[u8], t: &[u8], c: usize, code: &[u8], o: usize) -> Instr
    ensures { DecodedAt s.now t.now c code.now o result }
{
    if code.len() <= o {
        return Instr::Simple(Plain::Nop);
    }
    let op = kit::byte(code, o) as u8;
    let first = kit::byte(code, o + 1) as u8;
    let second = kit::byte(code, o + 2) as u8;
    made(
        s,
        t,
        c,
        Bytes {
            op,
            first,
            second,
            at: o,
        },
    )
}

// The word of what the two bytes behind the opcode at o name.
pub fn named_at(t: &[u8], c: usize, code: &[u8], o: usize) -> u32
    requires { o < 2 ^ 32 }
    ensures { result ≡ word_of t.now c (get_or code.now (o + 1) 0 * 256 + get_or code.now (o + 2) 0) }
{
    let i = kit::byte(code, o + 1) * 256 + kit::byte(code, o + 2);
    named_word(t, c, i)
}

// The same, with calls and returns found by the opcode alone: they are not passed through memory.
pub fn fetch(s: &[u8], t: &[u8], c: usize, code: &[u8], o: usize) -> Instr
    requires { o < 2 ^ 32 }
    ensures { DecodedAt s.now t.now c code.now o result }
{
    let op = kit::byte(code, o);
    match op {
        0xac => Instr::Leaving(Leave::Ireturn),
        0xb0 => Instr::Leaving(Leave::Areturn),
        0xb1 => Instr::Leaving(Leave::Return),
        0xb6 => virtual_call(named_at(t, c, code, o)),
        0xb7 => special_call(named_at(t, c, code, o)),
        0xb8 => static_call(named_at(t, c, code, o)),
        _ => instruction(s, t, c, code, o),
    }
}
