// Fields, where the object is of just the class that is named and the value of just the field's type. Everything else is left to `memory`, so
// that little of it becomes part of the run's loop.
ghost use Rattle.std.specs.Prelude.{◌≡◌, true, suc, ◌<◌, ◌≤◌, length};
ghost use Rattle.classfiles.specs.Descriptors.{dref};
ghost use Rattle.classfiles.specs.Limits.{max_heap};
ghost use Rattle.rules.specs.Instruction.{getfield, putfield};
ghost use Rattle.rules.specs.InstructionWords as words;
ghost use Rattle.rules.specs.Ancestry.{Parents};
ghost use Rattle.plain.specs.Heap.{ref, desc_of, ref_of, to_cell};
ghost use Rattle.plain.specs.ValueLaws.{value_of};
ghost use Rattle.plain.specs.Windows.{Sized};
ghost use Rattle.plain.specs.WindowForms.{doing};
ghost use Rattle.plain.specs.HeapTurns.{Steps};
ghost use Rattle.stretching.specs.Fields.{Fits};

use plain::values::{self, RunType, Value};
use plain::window::{self, Halt, Onward, Place, Turn};
use plain::{heap, memory};
use rules::instruction::Field;
use rules::types::Kin;

// Whether what stands at a is ready and of just that type.
fn is_just(cells: &[u32], a: u32, of: RunType) -> bool
    ensures { result ≡ true → Fits cells.now (dref (ref_of of.base of.depth)) (ref (suc a)) }
{
    if !heap::ready_at(cells, a) {
        return false;
    }
    if heap::depth_at(cells, a) != of.depth {
        return false;
    }
    heap::base_at(cells, a) == of.base
}

// Whether v refers to such a thing.
fn has_just(cells: &[u32], v: Value, of: RunType) -> bool
    ensures { result ≡ true → Fits cells.now (dref (ref_of of.base of.depth)) (value_of v.tag v.cell) × (0 < to_cell (value_of v.tag v.cell)) }
{
    if v.tag != Value::REF {
        return false;
    }
    if v.cell == 0 {
        return false;
    }
    is_just(cells, v.cell - 1, of)
}

// Whether v is an int as asked, or null, or refers to such a thing.
fn fits_just(cells: &[u32], v: Value, of: RunType) -> bool
    ensures { result ≡ true → Fits cells.now (desc_of of.base of.depth) (value_of v.tag v.cell) }
{
    if of.is_int() {
        return v.is_num();
    }
    if v.tag != Value::REF {
        return false;
    }
    if v.cell == 0 {
        return true;
    }
    is_just(cells, v.cell - 1, of)
}

pub fn getfield(
    t: &[u8],
    kin: Kin,
    cells: &[u32],
    w: &mut [u32],
    g: &mut [u8],
    c: Place,
    f: Field,
) -> Turn
    requires { Sized c w.old g.old }
    ensures { Steps (λ P. Parents P t.now kin.at kin.count) c w.old g.old cells.now w.new g.new cells.now result (doing w.old g.old c.operands (getfield (words.field_of f))) }
{
    if c.operands < 1 {
        return Err(Halt::Stuck);
    }
    let i = 31 + c.operands;
    let v = Value {
        tag: g[i],
        cell: w[i],
    };
    let named = RunType {
        base: f.named as u32,
        depth: 0,
    };
    if !has_just(cells, v, named) {
        return memory::getfield(t, kin, cells, w, g, c, f);
    }
    let a = heap::element(cells, v.to_cell() - 1, f.slot as u32);
    let x = Value::from_cell(values::described(f.of), a);
    window::push(w, g, c.lowered(1), x)
}

// Whether v refers to an object of just the class that f names, and x fits there.
fn takes_just(cells: &[u32], v: Value, x: Value, f: Field) -> bool
    ensures { result ≡ true → Fits cells.now (dref (ref_of f.named 0)) (value_of v.tag v.cell) × (0 < to_cell (value_of v.tag v.cell)) × Fits cells.now (words.desc_of f.of.word) (value_of x.tag x.cell) }
{
    let named = RunType {
        base: f.named as u32,
        depth: 0,
    };
    if !has_just(cells, v, named) {
        return false;
    }
    fits_just(cells, x, values::described(f.of))
}

// As `memory` does it, with the answer taken apart: a call writes its answer to memory, and what is answered at once would be written there
// too.
fn put_apart(t: &[u8], kin: Kin, cells: &mut [u32], w: &[u32], g: &[u8], c: Place, f: Field) -> Turn
    requires { Sized c w.now g.now × (length cells.old ≤ max_heap) }
    ensures { Steps (λ P. Parents P t.now kin.at kin.count) c w.now g.now cells.old w.now g.now cells.new result (doing w.now g.now c.operands (putfield (words.field_of f))) }
{
    match memory::putfield(t, kin, cells, w, g, c, f) {
        Ok(o) => Ok(o),
        Err(h) => Err(h),
    }
}

pub fn putfield(
    t: &[u8],
    kin: Kin,
    cells: &mut [u32],
    w: &[u32],
    g: &[u8],
    c: Place,
    f: Field,
) -> Turn
    requires { Sized c w.now g.now × (length cells.old ≤ max_heap) }
    ensures { Steps (λ P. Parents P t.now kin.at kin.count) c w.now g.now cells.old w.now g.now cells.new result (doing w.now g.now c.operands (putfield (words.field_of f))) }
{
    if c.operands < 2 {
        return Err(Halt::Stuck);
    }
    let i = 31 + c.operands;
    let x = Value {
        tag: g[i],
        cell: w[i],
    };
    let j = 30 + c.operands;
    let v = Value {
        tag: g[j],
        cell: w[j],
    };
    if !takes_just(cells, v, x, f) {
        return put_apart(t, kin, cells, w, g, c, f);
    }
    let n = c.operands - 2;
    if c.most < n {
        return Err(Halt::Stuck);
    }
    heap::set_element(cells, v.to_cell() - 1, f.slot as u32, x.to_cell());
    Ok(Onward {
        at: c.after,
        operands: n,
        used: c.used,
    })
}
