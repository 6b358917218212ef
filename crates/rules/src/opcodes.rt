// The opcode table: for each opcode byte its length, the fixed operands it takes and those it leaves; 0, 0, 0 where it is not listed. It
// stays one table of numbers, as it is written down and as `OpcodeTable` holds it against the ranges; each column has a function of its name.
ghost use Rattle.std.specs.Prelude.{◌≡◌, ◌<◌};
ghost use Rattle.rules.specs.Opcodes.{row_of, length_of, taken_of, left_of, size_at};
ghost use Rattle.rules.specs.OpcodeSizes.{packed_at};

const ROWS: [u8; 768] = [
    1, 0, 0, 1, 0, 1, 1, 0, 1, 1, 0, 1, 1, 0, 1, 1, 0, 1, 1, 0, 1, 1, 0, 1, 1, 0, 1, 0, 0, 0, 0, 0,
    0, 0, 0, 0, 0, 0, 0, 0, 0, 0, 0, 0, 0, 0, 0, 0, 2, 0, 1, 3, 0, 1, 2, 0, 1, 0, 0, 0, 0, 0, 0, 2,
    0, 1, 0, 0, 0, 0, 0, 0, 0, 0, 0, 2, 0, 1, 1, 0, 1, 1, 0, 1, 1, 0, 1, 1, 0, 1, 0, 0, 0, 0, 0, 0,
    0, 0, 0, 0, 0, 0, 0, 0, 0, 0, 0, 0, 0, 0, 0, 0, 0, 0, 0, 0, 0, 0, 0, 0, 0, 0, 0, 0, 0, 0, 1, 0,
    1, 1, 0, 1, 1, 0, 1, 1, 0, 1, 1, 2, 1, 0, 0, 0, 0, 0, 0, 0, 0, 0, 1, 2, 1, 0, 0, 0, 0, 0, 0, 0,
    0, 0, 2, 1, 0, 0, 0, 0, 0, 0, 0, 0, 0, 0, 2, 1, 0, 1, 1, 0, 1, 1, 0, 1, 1, 0, 1, 1, 0, 0, 0, 0,
    0, 0, 0, 0, 0, 0, 0, 0, 0, 0, 0, 0, 0, 0, 0, 0, 0, 0, 0, 0, 0, 0, 0, 0, 0, 0, 0, 0, 0, 0, 0, 0,
    0, 1, 1, 0, 1, 1, 0, 1, 1, 0, 1, 1, 0, 1, 3, 0, 0, 0, 0, 0, 0, 0, 0, 0, 0, 1, 3, 0, 0, 0, 0, 0,
    0, 0, 0, 0, 0, 1, 1, 0, 0, 0, 0, 1, 1, 2, 1, 2, 3, 0, 0, 0, 0, 0, 0, 0, 0, 0, 0, 0, 0, 1, 2, 2,
    1, 2, 1, 0, 0, 0, 0, 0, 0, 0, 0, 0, 1, 2, 1, 0, 0, 0, 0, 0, 0, 0, 0, 0, 1, 2, 1, 0, 0, 0, 0, 0,
    0, 0, 0, 0, 1, 2, 1, 0, 0, 0, 0, 0, 0, 0, 0, 0, 1, 2, 1, 0, 0, 0, 0, 0, 0, 0, 0, 0, 1, 1, 1, 0,
    0, 0, 0, 0, 0, 0, 0, 0, 1, 2, 1, 0, 0, 0, 1, 2, 1, 0, 0, 0, 1, 2, 1, 0, 0, 0, 1, 2, 1, 0, 0, 0,
    1, 2, 1, 0, 0, 0, 1, 2, 1, 0, 0, 0, 3, 0, 0, 0, 0, 0, 0, 0, 0, 0, 0, 0, 0, 0, 0, 0, 0, 0, 0, 0,
    0, 0, 0, 0, 0, 0, 0, 0, 0, 0, 0, 0, 0, 0, 0, 0, 0, 0, 0, 0, 0, 0, 0, 0, 0, 0, 0, 0, 0, 0, 0, 0,
    0, 0, 0, 0, 0, 0, 0, 0, 0, 0, 0, 3, 1, 0, 3, 1, 0, 3, 1, 0, 3, 1, 0, 3, 1, 0, 3, 1, 0, 3, 2, 0,
    3, 2, 0, 3, 2, 0, 3, 2, 0, 3, 2, 0, 3, 2, 0, 3, 2, 0, 3, 2, 0, 3, 0, 0, 0, 0, 0, 0, 0, 0, 0, 0,
    0, 0, 0, 0, 1, 1, 0, 0, 0, 0, 0, 0, 0, 0, 0, 0, 1, 1, 0, 1, 0, 0, 0, 0, 0, 0, 0, 0, 3, 1, 1, 3,
    2, 0, 3, 1, 0, 3, 1, 0, 3, 0, 0, 0, 0, 0, 0, 0, 0, 3, 0, 1, 2, 1, 1, 3, 1, 1, 1, 1, 1, 1, 1, 0,
    3, 1, 1, 3, 1, 1, 0, 0, 0, 0, 0, 0, 0, 0, 0, 0, 0, 0, 3, 1, 0, 3, 1, 0, 0, 0, 0, 0, 0, 0, 0, 0,
    0, 0, 0, 0, 0, 0, 0, 0, 0, 0, 0, 0, 0, 0, 0, 0, 0, 0, 0, 0, 0, 0, 0, 0, 0, 0, 0, 0, 0, 0, 0, 0,
    0, 0, 0, 0, 0, 0, 0, 0, 0, 0, 0, 0, 0, 0, 0, 0, 0, 0, 0, 0, 0, 0, 0, 0, 0, 0, 0, 0, 0, 0, 0, 0,
    0, 0, 0, 0, 0, 0, 0, 0, 0, 0, 0, 0, 0, 0, 0, 0, 0, 0, 0, 0, 0, 0, 0, 0, 0, 0, 0, 0, 0, 0, 0, 0,
    0, 0, 0, 0, 0, 0, 0, 0, 0, 0, 0, 0, 0, 0, 0, 0, 0, 0, 0, 0, 0, 0, 0, 0, 0, 0, 0, 0, 0, 0, 0, 0,
    0, 0, 0, 0, 0, 0, 0, 0, 0, 0, 0, 0, 0, 0, 0, 0, 0, 0, 0, 0, 0, 0, 0, 0, 0, 0, 0, 0, 0, 0, 0, 0,
];

pub fn length(op: usize) -> u8
    ensures { result ≡ length_of (row_of op) }
{
    if op < 256 {
        return ROWS[3 * op];
    }
    0
}

pub fn taken(op: usize) -> u8
    ensures { result ≡ taken_of (row_of op) }
{
    if op < 256 {
        return ROWS[3 * op + 1];
    }
    0
}

pub fn left(op: usize) -> u8
    ensures { result ≡ left_of (row_of op) }
{
    if op < 256 {
        return ROWS[3 * op + 2];
    }
    0
}

// The lengths of the sixteen opcodes from 16 k on, two bits each. The table itself is built anew where it is read, which costs more than the
// rest of a look-up.
#[tactic(auto, unfolding(crate::specs::OpcodeSizes::packed_at, crate::specs::OpcodeSizes::packs))]
fn packed(k: usize) -> u32
    ensures { result ≡ packed_at k }
{
    match k {
        0 => 0x00015555,
        1 => 0x0558082e,
        2 => 0x15500000,
        3 => 0x15602010,
        4 => 0x55400000,
        5 => 0x40144040,
        6 => 0x01010101,
        7 => 0x11110101,
        8 => 0x00000311,
        9 => 0xfffc0000,
        10 => 0x0100ffff,
        11 => 0x5ec3ff05,
        12 => 0x0000f00f,
        13 => 0x00000000,
        14 => 0x00000000,
        15 => 0x00000000,
        _ => 0,
    }
}

fn size(op: usize) -> usize
    requires { op < 256 }
    ensures { result ≡ length_of (row_of op) }
{
    let w = packed(op / 16);
    let k = (2 * (op % 16)) as u32;
    ((w >> k) % 4) as usize
}

// The length of the instruction at an offset of a method's code.
pub fn size_at(code: &[u8], o: usize) -> usize
    ensures { (result ≡ size_at code.now o) × (result < 4) }
{
    size(kit::byte(code, o))
}
