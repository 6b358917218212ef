// Types of what stands in the heap, and values with their tags: what refers to what, and what fits where.
ghost use Rattle.std.specs.Prelude.{◌≡◌, ◌+◌, ◌<◌, slice_index};
ghost use Rattle.classfiles.specs.Descriptors.{arr};
ghost use Rattle.rules.specs.Types.{is_dint, ref_fits, desc_fits};
ghost use Rattle.rules.specs.InstructionWords as words;
ghost use Rattle.rules.specs.Ancestry.{lineage};
ghost use Rattle.plain.specs.Heap.{heap, empty, num, ref, desc_of, ref_of, to_cell, from_cell, is_num, is_ref, refers_to, value_fits};
ghost use Rattle.plain.specs.ValueLaws.{header_base, value_of};

use crate::heap::{self};
use rules::types::{self, Kin, Ty};

// A type as a header has it: a class or int's base, and brackets. Int itself is its base without brackets.
#[derive(Clone, Copy)]
pub struct RunType {
    pub base: u32,
    pub depth: u32,
}

impl RunType {
    // Past every class's number.
    pub const INT_BASE: u32 = 0xffff_ffff;

    pub fn is_int(self) -> bool
        ensures { result ≡ is_dint (desc_of self.base self.depth) }
    {
        if 0 < self.depth {
            return false;
        }
        self.base == RunType::INT_BASE
    }

    // An array's element.
    pub fn element(self) -> RunType
        requires { 0 < self.depth }
        ensures { arr (desc_of result.base result.depth) ≡ ref_of self.base self.depth }
    {
        RunType {
            base: self.base,
            depth: self.depth - 1,
        }
    }
}

// A slot: an empty one, an int's bits or a reference. The tag is a byte, as it stands in the tags that C lends.
#[derive(Clone, Copy)]
pub struct Value {
    pub tag: u8,
    pub cell: u32,
}

impl Value {
    pub const EMPTY: u8 = 0;

    pub const NUM: u8 = 1;

    pub const REF: u8 = 2;

    pub fn empty() -> Value
        ensures { value_of result.tag result.cell ≡ empty }
    {
        Value {
            tag: Value::EMPTY,
            cell: 0,
        }
    }

    pub fn num(a: u32) -> Value
        ensures { value_of result.tag result.cell ≡ num a }
    {
        Value {
            tag: Value::NUM,
            cell: a,
        }
    }

    pub fn reference(r: u32) -> Value
        ensures { value_of result.tag result.cell ≡ ref r }
    {
        Value {
            tag: Value::REF,
            cell: r,
        }
    }

    pub fn is_num(self) -> bool
        ensures { result ≡ is_num (value_of self.tag self.cell) }
    {
        self.tag == Value::NUM
    }

    pub fn is_ref(self) -> bool
        ensures { result ≡ is_ref (value_of self.tag self.cell) }
    {
        self.tag == Value::REF
    }

    // What a heap cell holds of it.
    pub fn to_cell(self) -> u32
        ensures { result ≡ to_cell (value_of self.tag self.cell) }
    {
        if self.tag == Value::NUM {
            return self.cell;
        }
        if self.tag == Value::REF {
            return self.cell;
        }
        0
    }

    // What a heap cell of this type holds.
    pub fn from_cell(of: RunType, a: u32) -> Value
        ensures { value_of result.tag result.cell ≡ from_cell (desc_of of.base of.depth) a }
    {
        if of.is_int() {
            return Value::num(a);
        }
        Value::reference(a)
    }
}

pub fn type_at(cells: &[u32], a: u32) -> RunType
    ensures { (result.base ≡ slice_index cells.now a) × (result.depth ≡ slice_index cells.now (a + 1)) }
{
    RunType {
        base: heap::base_at(cells, a),
        depth: heap::depth_at(cells, a),
    }
}

// A base as a header has it.
fn header_base(b: u32) -> u32
    ensures { result ≡ header_base b }
{
    if b == Ty::INT_BASE {
        return RunType::INT_BASE;
    }
    b
}

// The array whose elements are the word's base under its brackets.
pub fn array_of(t: Ty) -> RunType
    ensures { ref_of result.base result.depth ≡ arr (words.element_of t.word) }
{
    RunType {
        base: header_base(t.word / 64),
        depth: t.word / 8 % 8 + 1,
    }
}

// What a word names: an array, or a class.
pub fn named(t: Ty) -> RunType
    ensures { ref_of result.base result.depth ≡ words.ref_of t.word }
{
    if t.word % 8 == Ty::ARRAY {
        return array_of(t);
    }
    RunType {
        base: t.word / 64,
        depth: 0,
    }
}

// A type that is written down: int, or one of those.
pub fn described(t: Ty) -> RunType
    ensures { desc_of result.base result.depth ≡ words.desc_of t.word }
{
    if t.word % 8 == Ty::INT {
        return RunType {
            base: RunType::INT_BASE,
            depth: 0,
        };
    }
    if t.word % 8 == Ty::ARRAY {
        return array_of(t);
    }
    RunType {
        base: t.word / 64,
        depth: 0,
    }
}

// Whether the base b fits where e is asked.
fn base_fits(t: &[u8], kin: Kin, b: u32, e: u32) -> bool
    ensures { result ≡ desc_fits (lineage t.now kin.at kin.count) (desc_of b 0) (desc_of e 0) }
{
    if e == RunType::INT_BASE {
        return b == RunType::INT_BASE;
    }
    if b == RunType::INT_BASE {
        return false;
    }
    types::is_below(t, kin, b, e)
}

// As deep, or deeper where Object is asked.
pub fn type_fits(t: &[u8], kin: Kin, has: RunType, asked: RunType) -> bool
    ensures { result ≡ ref_fits (lineage t.now kin.at kin.count) (ref_of has.base has.depth) (ref_of asked.base asked.depth) }
{
    if asked.depth < has.depth {
        return asked.base == 0;
    }
    if has.depth < asked.depth {
        return false;
    }
    if has.depth == 0 {
        return types::is_below(t, kin, has.base, asked.base);
    }
    base_fits(t, kin, has.base, asked.base)
}

// Null, or a ready object of a type that fits.
fn reference_fits(t: &[u8], kin: Kin, cells: &[u32], r: u32, asked: RunType) -> bool
    ensures { result ≡ refers_to (lineage t.now kin.at kin.count) (heap cells.now 0) (ref_of asked.base asked.depth) (ref r) }
{
    if r == 0 {
        return true;
    }
    if heap::ready_at(cells, r - 1) {
        return type_fits(t, kin, type_at(cells, r - 1), asked);
    }
    false
}

// How much of the heap is used does not matter here or below.
pub fn refers_to(t: &[u8], kin: Kin, cells: &[u32], v: Value, asked: RunType) -> bool
    ensures { result ≡ refers_to (lineage t.now kin.at kin.count) (heap cells.now 0) (ref_of asked.base asked.depth) (value_of v.tag v.cell) }
{
    if v.tag == Value::REF {
        return reference_fits(t, kin, cells, v.cell, asked);
    }
    false
}

pub fn value_fits(t: &[u8], kin: Kin, cells: &[u32], v: Value, asked: RunType) -> bool
    ensures { result ≡ value_fits (lineage t.now kin.at kin.count) (heap cells.now 0) (desc_of asked.base asked.depth) (value_of v.tag v.cell) }
{
    if asked.is_int() {
        return v.is_num();
    }
    refers_to(t, kin, cells, v, asked)
}
