// 32-bit integers as two's complement bits in a u32: those from 2 ^ 31 on read as negative.
ghost use Rattle.std.specs.Prelude.{◌≡◌, ◌^◌, ◌<◌, ◌≤◌, not};
ghost use Rattle.rules.specs.Instruction.{add, sub, mul, shl, shr, ushr, and, or, xor, quotient, remainder};
ghost use Rattle.plain.specs.Integers.{negated, compute, divided, less, holds, negative};
ghost use Rattle.plain.specs.IntegerLaws.{magnitude_of, biased_of};

use rules::instruction::{Asking, Dividing, Division, Op, Operation, Test};

pub fn iadd(a: u32, b: u32) -> u32
    ensures { result ≡ compute add a b }
{
    std::num::wrapping_add_u32(a, b)
}

pub fn isub(a: u32, b: u32) -> u32
    ensures { result ≡ compute sub a b }
{
    std::num::wrapping_sub_u32(a, b)
}

pub fn ineg(a: u32) -> u32
    ensures { result ≡ negated a }
{
    std::num::wrapping_sub_u32(0, a)
}

// The whole product fits twice the width.
pub fn imul(a: u32, b: u32) -> u32
    ensures { result ≡ compute mul a b }
{
    ((a as u64) * (b as u64) % 0x1_0000_0000) as u32
}

pub fn ishl(a: u32, b: u32) -> u32
    ensures { result ≡ compute shl a b }
{
    let k = b % 32;
    a << k
}

// The sign is copied: what is shifted in is what the bits lack of all ones.
pub fn ishr(a: u32, b: u32) -> u32
    ensures { result ≡ compute shr a b }
{
    let k = b % 32;
    if a < 0x8000_0000 {
        return a >> k;
    }
    0xffff_ffff - ((0xffff_ffff - a) >> k)
}

pub fn iushr(a: u32, b: u32) -> u32
    ensures { result ≡ compute ushr a b }
{
    let k = b % 32;
    a >> k
}

pub fn iand(a: u32, b: u32) -> u32
    ensures { result ≡ compute and a b }
{
    a & b
}

pub fn ior(a: u32, b: u32) -> u32
    ensures { result ≡ compute or a b }
{
    a | b
}

pub fn ixor(a: u32, b: u32) -> u32
    ensures { result ≡ compute xor a b }
{
    a ^ b
}

// How far it is from 0: of bits that read as negative, what they lack of 2 ^ 32.
fn magnitude(a: u32) -> u32
    ensures { (result ≡ magnitude_of a) × (result ≤ 2 ^ 31) }
{
    if a < 0x8000_0000 {
        return a;
    }
    0xffff_ffff - a + 1
}

// Toward zero, so the magnitudes are divided and the sign follows.
pub fn idiv(a: u32, b: u32) -> u32
    requires { 0 < b }
    ensures { result ≡ divided quotient a b }
{
    let d = magnitude(b);
    let q = magnitude(a) / d;
    if a < 0x8000_0000 {
        if b < 0x8000_0000 {
            return q;
        }
        return ineg(q);
    }
    if b < 0x8000_0000 {
        return ineg(q);
    }
    q
}

// With the dividend's sign.
pub fn irem(a: u32, b: u32) -> u32
    requires { 0 < b }
    ensures { result ≡ divided remainder a b }
{
    let d = magnitude(b);
    let m = magnitude(a) % d;
    if a < 0x8000_0000 {
        return m;
    }
    ineg(m)
}

// The half with the sign bit moved below the other, so that the order of the integers is that of the bits.
fn biased(a: u32) -> u32
    ensures { result ≡ biased_of a }
{
    if a < 0x8000_0000 {
        return a + 0x8000_0000;
    }
    a - 0x8000_0000
}

pub fn less(a: u32, b: u32) -> bool
    ensures { result ≡ less a b }
{
    biased(a) < biased(b)
}

pub fn not_less(a: u32, b: u32) -> bool
    ensures { result ≡ not (less a b) }
{
    !less(a, b)
}

pub fn negative(a: u32) -> bool
    ensures { result ≡ negative a }
{
    0x8000_0000 <= a
}

// An operation of two integers.
pub fn binary<O: Operation>(op: O, a: u32, b: u32) -> u32
    ensures { result ≡ compute (O.means op) a b }
{
    match op.op() {
        Op::Add => iadd(a, b),
        Op::Sub => isub(a, b),
        Op::Mul => imul(a, b),
        Op::Shl => ishl(a, b),
        Op::Shr => ishr(a, b),
        Op::Ushr => iushr(a, b),
        Op::And => iand(a, b),
        Op::Or => ior(a, b),
        Op::Xor => ixor(a, b),
    }
}

// A division by a divisor that the caller has tested.
pub fn divide<D: Dividing>(op: D, a: u32, b: u32) -> u32
    requires { 0 < b }
    ensures { result ≡ divided (D.means op) a b }
{
    match op.division() {
        Division::Quotient => idiv(a, b),
        Division::Remainder => irem(a, b),
    }
}

// A test of two integers.
pub fn test<T: Asking>(asked: T, a: u32, b: u32) -> bool
    ensures { result ≡ holds (T.means asked) a b }
{
    match asked.test() {
        Test::Eq => a == b,
        Test::Ne => a != b,
        Test::Lt => less(a, b),
        Test::Ge => not_less(a, b),
        Test::Gt => less(b, a),
        Test::Le => not_less(b, a),
    }
}
