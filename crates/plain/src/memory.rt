// The instructions that read or write the heap.
ghost use Rattle.std.specs.Prelude.{OnOk, ◌≡◌, ◌+◌, ◌<◌, ◌≤◌, length};
ghost use Rattle.classfiles.specs.Limits.{max_heap};
ghost use Rattle.reader.specs.Program.{layout};
ghost use Rattle.rules.specs.Instruction.{arraylength, iaload, aaload, iastore, aastore, getfield, putfield, new, newarray, checkcast, instanceof, ifacmp, ifnull};
ghost use Rattle.rules.specs.InstructionWords as words;
ghost use Rattle.rules.specs.Ancestry.{lineage, Parents};
ghost use Rattle.reader.specs.BuiltIns.{object};
ghost use Rattle.plain.specs.Heap.{ref_of, element_at, to_cell};
ghost use Rattle.plain.specs.ValueLaws.{value_of};
ghost use Rattle.plain.specs.Windows.{Sized};
ghost use Rattle.plain.specs.WindowForms.{doing};
ghost use Rattle.plain.specs.HeapTurns.{Steps, Writes, making, AnyProgram};
ghost use Rattle.plain.specs.HeapForms.{Checked, reaching, arraying, indexing, loading, depth_in};

use crate::values::{self, RunType, Value};
use crate::window::{self, Halt, Onward, Place, Turn};
use crate::{heap, integers, objects};
use rules::instruction::Field;
use rules::types::{Kin, Ty};

// Whether v is a receiver of that type: stuck where it does not fit, a fault where it is null.
fn reach(t: &[u8], kin: Kin, cells: &[u32], c: Place, v: Value, asked: RunType) -> Result<(), Halt>
    ensures { Checked (λ P. Parents P t.now kin.at kin.count) c cells.now result (reaching (lineage t.now kin.at kin.count) cells.now (ref_of asked.base asked.depth) (value_of v.tag v.cell)) × OnOk result (0 < to_cell (value_of v.tag v.cell)) }
{
    if !values::refers_to(t, kin, cells, v, asked) {
        return Err(Halt::Stuck);
    }
    if v.to_cell() == 0 {
        return Err(Halt::Fault(10));
    }
    Ok(())
}

// Whether v is an array: stuck where it is something else, a fault where it is null. Arrays are Objects whatever their base, so that no
// parents are asked.
fn found(t: &[u8], kin: Kin, cells: &[u32], c: Place, v: Value) -> Result<(), Halt>
    ensures { Checked (λ P. Parents P t.now kin.at kin.count) c cells.now result (arraying (lineage t.now kin.at kin.count) cells.now (value_of v.tag v.cell)) × OnOk result ((0 < to_cell (value_of v.tag v.cell)) × (0 < depth_in cells.now (value_of v.tag v.cell))) }
{
    if !objects::is_usable(cells, v) {
        return Err(Halt::Stuck);
    }
    let n = v.to_cell();
    if n == 0 {
        return Err(Halt::Fault(10));
    }
    if heap::depth_at(cells, n - 1) == 0 {
        return Err(Halt::Stuck);
    }
    Ok(())
}

// Whether v is an array of ints, or of references, that has an element i.
fn index(
    t: &[u8],
    kin: Kin,
    cells: &[u32],
    c: Place,
    v: Value,
    ints: bool,
    i: u32,
) -> Result<(), Halt>
    ensures { Checked (λ P. Parents P t.now kin.at kin.count) c cells.now result (indexing (lineage t.now kin.at kin.count) cells.now ints (value_of v.tag v.cell) i) × OnOk result ((0 < to_cell (value_of v.tag v.cell)) × (0 < depth_in cells.now (value_of v.tag v.cell))) }
{
    found(t, kin, cells, c, v)?;
    let a = v.to_cell() - 1;
    let of = values::type_at(cells, a);
    if ints != of.element().is_int() {
        return Err(Halt::Stuck);
    }
    if heap::size_at(cells, a) <= i {
        return Err(Halt::Fault(8));
    }
    Ok(())
}

pub fn length(t: &[u8], kin: Kin, cells: &[u32], w: &mut [u32], g: &mut [u8], c: Place) -> Turn
    requires { Sized c w.old g.old }
    ensures { Steps (λ P. Parents P t.now kin.at kin.count) c w.old g.old cells.now w.new g.new cells.now result (doing w.old g.old c.operands arraylength) }
{
    if c.operands < 1 {
        return Err(Halt::Stuck);
    }
    let i = 31 + c.operands;
    let v = Value {
        tag: g[i],
        cell: w[i],
    };
    found(t, kin, cells, c, v)?;
    let n = Value::num(heap::size_at(cells, v.to_cell() - 1));
    window::push(w, g, c.lowered(1), n)
}

pub fn getfield(
    t: &[u8],
    kin: Kin,
    cells: &[u32],
    w: &mut [u32],
    g: &mut [u8],
    c: Place,
    f: Field,
) -> Turn
    requires { Sized c w.old g.old }
    ensures { Steps (λ P. Parents P t.now kin.at kin.count) c w.old g.old cells.now w.new g.new cells.now result (doing w.old g.old c.operands (getfield (words.field_of f))) }
{
    if c.operands < 1 {
        return Err(Halt::Stuck);
    }
    let i = 31 + c.operands;
    let v = Value {
        tag: g[i],
        cell: w[i],
    };
    let asked = RunType {
        base: f.named as u32,
        depth: 0,
    };
    reach(t, kin, cells, c, v, asked)?;
    let a = heap::element(cells, v.to_cell() - 1, f.slot as u32);
    let x = Value::from_cell(values::described(f.of), a);
    window::push(w, g, c.lowered(1), x)
}

fn load(
    t: &[u8],
    kin: Kin,
    cells: &[u32],
    w: &mut [u32],
    g: &mut [u8],
    c: Place,
    ints: bool,
) -> Turn
    requires { Sized c w.old g.old }
    ensures { Steps (λ P. Parents P t.now kin.at kin.count) c w.old g.old cells.now w.new g.new cells.now result (loading t.now kin.at kin.count c w.old g.old cells.now ints) }
{
    if c.operands < 2 {
        return Err(Halt::Stuck);
    }
    let i = 31 + c.operands;
    let x = Value {
        tag: g[i],
        cell: w[i],
    };
    let j = 30 + c.operands;
    let v = Value {
        tag: g[j],
        cell: w[j],
    };
    if !x.is_num() {
        return Err(Halt::Stuck);
    }
    index(t, kin, cells, c, v, ints, x.to_cell())?;
    let a = v.to_cell() - 1;
    let of = values::type_at(cells, a);
    let y = Value::from_cell(of.element(), heap::element(cells, a, x.to_cell()));
    window::push(w, g, c.lowered(2), y)
}

pub fn iaload(t: &[u8], kin: Kin, cells: &[u32], w: &mut [u32], g: &mut [u8], c: Place) -> Turn
    requires { Sized c w.old g.old }
    ensures { Steps (λ P. Parents P t.now kin.at kin.count) c w.old g.old cells.now w.new g.new cells.now result (doing w.old g.old c.operands iaload) }
{
    load(t, kin, cells, w, g, c, true)
}

pub fn aaload(t: &[u8], kin: Kin, cells: &[u32], w: &mut [u32], g: &mut [u8], c: Place) -> Turn
    requires { Sized c w.old g.old }
    ensures { Steps (λ P. Parents P t.now kin.at kin.count) c w.old g.old cells.now w.new g.new cells.now result (doing w.old g.old c.operands aaload) }
{
    load(t, kin, cells, w, g, c, false)
}

// v into the i-th element of what stands at a, and on with n operands.
fn write(cells: &mut [u32], c: Place, n: usize, a: u32, i: u32, v: u32) -> Turn
    requires { n ≤ 32 }
    ensures { Writes c n cells.old cells.new result (element_at a i) v }
{
    if c.most < n {
        return Err(Halt::Stuck);
    }
    heap::set_element(cells, a, i, v);
    Ok(Onward {
        at: c.after,
        operands: n,
        used: c.used,
    })
}

pub fn iastore(t: &[u8], kin: Kin, cells: &mut [u32], w: &[u32], g: &[u8], c: Place) -> Turn
    requires { Sized c w.now g.now × (length cells.old ≤ max_heap) }
    ensures { Steps (λ P. Parents P t.now kin.at kin.count) c w.now g.now cells.old w.now g.now cells.new result (doing w.now g.now c.operands iastore) }
{
    if c.operands < 3 {
        return Err(Halt::Stuck);
    }
    let i = 31 + c.operands;
    let x = Value {
        tag: g[i],
        cell: w[i],
    };
    let j = 30 + c.operands;
    let y = Value {
        tag: g[j],
        cell: w[j],
    };
    let k = 29 + c.operands;
    let v = Value {
        tag: g[k],
        cell: w[k],
    };
    if !x.is_num() {
        return Err(Halt::Stuck);
    }
    if !y.is_num() {
        return Err(Halt::Stuck);
    }
    index(t, kin, cells, c, v, true, y.to_cell())?;
    write(
        cells,
        c,
        c.operands - 3,
        v.to_cell() - 1,
        y.to_cell(),
        x.to_cell(),
    )
}

pub fn aastore(t: &[u8], kin: Kin, cells: &mut [u32], w: &[u32], g: &[u8], c: Place) -> Turn
    requires { Sized c w.now g.now × (length cells.old ≤ max_heap) }
    ensures { Steps (λ P. Parents P t.now kin.at kin.count) c w.now g.now cells.old w.now g.now cells.new result (doing w.now g.now c.operands aastore) }
{
    if c.operands < 3 {
        return Err(Halt::Stuck);
    }
    let i = 31 + c.operands;
    let x = Value {
        tag: g[i],
        cell: w[i],
    };
    let j = 30 + c.operands;
    let y = Value {
        tag: g[j],
        cell: w[j],
    };
    let k = 29 + c.operands;
    let v = Value {
        tag: g[k],
        cell: w[k],
    };
    let asked = RunType { base: 0, depth: 0 };
    if !values::refers_to(t, kin, cells, x, asked) {
        return Err(Halt::Stuck);
    }
    if !y.is_num() {
        return Err(Halt::Stuck);
    }
    index(t, kin, cells, c, v, false, y.to_cell())?;
    let a = v.to_cell() - 1;
    let of = values::type_at(cells, a);
    if !values::value_fits(t, kin, cells, x, of.element()) {
        return Err(Halt::Fault(5));
    }
    write(cells, c, c.operands - 3, a, y.to_cell(), x.to_cell())
}

pub fn putfield(
    t: &[u8],
    kin: Kin,
    cells: &mut [u32],
    w: &[u32],
    g: &[u8],
    c: Place,
    f: Field,
) -> Turn
    requires { Sized c w.now g.now × (length cells.old ≤ max_heap) }
    ensures { Steps (λ P. Parents P t.now kin.at kin.count) c w.now g.now cells.old w.now g.now cells.new result (doing w.now g.now c.operands (putfield (words.field_of f))) }
{
    if c.operands < 2 {
        return Err(Halt::Stuck);
    }
    let i = 31 + c.operands;
    let x = Value {
        tag: g[i],
        cell: w[i],
    };
    let j = 30 + c.operands;
    let v = Value {
        tag: g[j],
        cell: w[j],
    };
    if !values::value_fits(t, kin, cells, x, values::described(f.of)) {
        return Err(Halt::Stuck);
    }
    let asked = RunType {
        base: f.named as u32,
        depth: 0,
    };
    reach(t, kin, cells, c, v, asked)?;
    write(
        cells,
        c,
        c.operands - 2,
        v.to_cell() - 1,
        f.slot as u32,
        x.to_cell(),
    )
}

pub fn checkcast(
    t: &[u8],
    kin: Kin,
    cells: &[u32],
    w: &mut [u32],
    g: &mut [u8],
    c: Place,
    of: Ty,
) -> Turn
    requires { Sized c w.old g.old }
    ensures { Steps (λ P. Parents P t.now kin.at kin.count) c w.old g.old cells.now w.new g.new cells.now result (doing w.old g.old c.operands (checkcast (words.ref_of of.word))) }
{
    if c.operands < 1 {
        return Err(Halt::Stuck);
    }
    let i = 31 + c.operands;
    let v = Value {
        tag: g[i],
        cell: w[i],
    };
    let asked = RunType { base: 0, depth: 0 };
    if !values::refers_to(t, kin, cells, v, asked) {
        return Err(Halt::Stuck);
    }
    if !values::refers_to(t, kin, cells, v, values::named(of)) {
        return Err(Halt::Fault(6));
    }
    window::push(w, g, c.lowered(1), v)
}

pub fn if_null(
    t: &[u8],
    kin: Kin,
    cells: &[u32],
    w: &[u32],
    g: &[u8],
    c: Place,
    e: bool,
    o: u16,
) -> Turn
    requires { Sized c w.now g.now }
    ensures { Steps (λ P. Parents P t.now kin.at kin.count) c w.now g.now cells.now w.now g.now cells.now result (doing w.now g.now c.operands (ifnull e o)) }
{
    if c.operands < 1 {
        return Err(Halt::Stuck);
    }
    let i = 31 + c.operands;
    let v = Value {
        tag: g[i],
        cell: w[i],
    };
    let asked = RunType { base: 0, depth: 0 };
    if !values::refers_to(t, kin, cells, v, asked) {
        return Err(Halt::Stuck);
    }
    let d = c.lowered(1);
    if e == (v.to_cell() == 0) {
        return window::go(w, g, d, o as u32);
    }
    window::go(w, g, d, d.after)
}

pub fn if_same(
    t: &[u8],
    kin: Kin,
    cells: &[u32],
    w: &[u32],
    g: &[u8],
    c: Place,
    e: bool,
    o: u16,
) -> Turn
    requires { Sized c w.now g.now }
    ensures { Steps (λ P. Parents P t.now kin.at kin.count) c w.now g.now cells.now w.now g.now cells.now result (doing w.now g.now c.operands (ifacmp e o)) }
{
    if c.operands < 2 {
        return Err(Halt::Stuck);
    }
    let i = 31 + c.operands;
    let x = Value {
        tag: g[i],
        cell: w[i],
    };
    let j = 30 + c.operands;
    let y = Value {
        tag: g[j],
        cell: w[j],
    };
    let asked = RunType { base: 0, depth: 0 };
    if !values::refers_to(t, kin, cells, x, asked) {
        return Err(Halt::Stuck);
    }
    if !values::refers_to(t, kin, cells, y, asked) {
        return Err(Halt::Stuck);
    }
    let d = c.lowered(2);
    if e == (y.to_cell() == x.to_cell()) {
        return window::go(w, g, d, o as u32);
    }
    window::go(w, g, d, d.after)
}

// Something of that type with n fields or elements, its reference pushed.
fn make(
    cells: &mut [u32],
    w: &mut [u32],
    g: &mut [u8],
    c: Place,
    of: RunType,
    n: u32,
    ready: u32,
) -> Turn
    requires { Sized c w.old g.old × (length cells.old ≤ max_heap) }
    ensures { Steps AnyProgram c w.old g.old cells.old w.new g.new cells.new result (making (ref_of of.base of.depth) n ready w.old g.old c.operands) }
{
    if !heap::has_room(cells, c.used, n) {
        return Err(Halt::HeapFull);
    }
    if c.most <= c.operands {
        return Err(Halt::Stuck);
    }
    let u = heap::allocate(cells, c.used, of.base, of.depth, n, ready);
    let i = 32 + c.operands;
    w[i] = c.used + 1;
    g[i] = Value::REF;
    Ok(Onward {
        at: c.after,
        operands: c.operands + 1,
        used: u,
    })
}

pub fn newarray(
    t: &[u8],
    kin: Kin,
    cells: &mut [u32],
    w: &mut [u32],
    g: &mut [u8],
    c: Place,
    of: Ty,
) -> Turn
    requires { Sized c w.old g.old × (length cells.old ≤ max_heap) }
    ensures { Steps (λ P. Parents P t.now kin.at kin.count) c w.old g.old cells.old w.new g.new cells.new result (doing w.old g.old c.operands (newarray (words.element_of of.word))) }
{
    if c.operands < 1 {
        return Err(Halt::Stuck);
    }
    let i = 31 + c.operands;
    let v = Value {
        tag: g[i],
        cell: w[i],
    };
    if !v.is_num() {
        return Err(Halt::Stuck);
    }
    let n = v.to_cell();
    if integers::negative(n) {
        return Err(Halt::Fault(9));
    }
    make(cells, w, g, c.lowered(1), values::array_of(of), n, 1)
}

pub fn instanceof(
    t: &[u8],
    kin: Kin,
    cells: &[u32],
    w: &mut [u32],
    g: &mut [u8],
    c: Place,
    of: Ty,
) -> Turn
    requires { Sized c w.old g.old }
    ensures { Steps (λ P. Parents P t.now kin.at kin.count) c w.old g.old cells.now w.new g.new cells.now result (doing w.old g.old c.operands (instanceof (words.ref_of of.word))) }
{
    if c.operands < 1 {
        return Err(Halt::Stuck);
    }
    let i = 31 + c.operands;
    let v = Value {
        tag: g[i],
        cell: w[i],
    };
    if !objects::is_usable(cells, v) {
        return Err(Halt::Stuck);
    }
    let d = c.lowered(1);
    let r = v.to_cell();
    if r == 0 {
        return window::push(w, g, d, Value::num(0));
    }
    let b = values::type_fits(t, kin, values::type_at(cells, r - 1), values::named(of));
    window::push(w, g, d, Value::num(u32::from(b)))
}

// An object of the class k, which has so many fields.
pub fn new_object(
    cells: &mut [u32],
    w: &mut [u32],
    g: &mut [u8],
    c: Place,
    k: u16,
    size: u32,
) -> Turn
    requires { Sized c w.old g.old × (length cells.old ≤ max_heap) }
    ensures { Steps (λ P. size ≡ length (layout P k)) c w.old g.old cells.old w.new g.new cells.new result (doing w.old g.old c.operands (new k)) }
{
    if c.most <= c.operands {
        return Err(Halt::Stuck);
    }
    let of = RunType {
        base: k as u32,
        depth: 0,
    };
    make(cells, w, g, c, of, size, 0)
}
