// What phase C asks of an instruction, by its opcode.
ghost use Rattle.std.specs.Prelude.{◌≡◌, ◌<◌};
ghost use Rattle.shaping.specs.Asks.{packed_at, kind_of, needs_of, entry_of, sort_of};

// Of the sixteen opcodes from 16 k on, four bits each.
fn packed(k: usize) -> u64
    ensures { result ≡ packed_at k }
{
    match k {
        0 => 0x7777777000000000,
        1 => 0x7743215777577900,
        2 => 0x7043217777777777,
        3 => 0x7432157775777077,
        4 => 0x0432177777777777,
        5 => 0x0777700707770777,
        6 => 0x7770777077707770,
        7 => 0x7070707077707770,
        8 => 0x7777777777757070,
        9 => 0x6666666777777777,
        10 => 0x7770777766666666,
        11 => 0x0077777decbb7700,
        12 => 0x77777777667777aa,
        13 => 0x7777777777777777,
        14 => 0x7777777777777777,
        15 => 0x7777777777777777,
        _ => 0,
    }
}

// No enum: the table gives four bits, and a number of locals is one of them. 0 nothing, 1 to 4 so many locals, 5 the local of its operand, 6 a target, 7 its own tests; a name: 9 of a
// number, 10 a type, 11 a field, 12 a method of an object, 13 a static one, 14 a constructor.
pub fn kind(op: usize) -> u64
    requires { op < 256 }
    ensures { result ≡ kind_of op }
{
    let w = packed(op / 16);
    let k = (4 * (op % 16)) as u32;
    (w >> k) % 16
}

// How many locals an instruction of kind k with first operand byte a needs.
pub fn needs(k: u64, a: usize) -> usize
    requires { a < 256 }
    ensures { result ≡ needs_of k a }
{
    if k < 5 {
        return k as usize;
    }
    if k == 5 {
        return a + 1;
    }
    0
}

// The pool entry that an instruction of kind k with operand bytes a and b names; a number's has one byte.
pub fn entry(k: u64, a: usize, b: usize) -> usize
    requires { (a < 256) × (b < 256) }
    ensures { result ≡ entry_of k a b }
{
    if k == 9 {
        return a;
    }
    a * 256 + b
}

// The kind that names what a resolved word stands for, 8 for nothing.
pub fn sort(w: u32) -> u64
    ensures { result ≡ sort_of w }
{
    if w % 8 < 4 {
        return (8 + w % 8) as u64;
    }
    if w % 8 != 4 {
        return 8;
    }
    if w / 1048576 % 2 == 1 {
        return 14;
    }
    if w / 524288 % 2 == 1 {
        return 13;
    }
    12
}
