// What instructions ask of the objects that values refer to. How much of the heap is used does not matter to it.
ghost use Rattle.std.specs.Prelude.{◌≡◌};
ghost use Rattle.rules.specs.Ancestry.{lineage};
ghost use Rattle.plain.specs.Heap.{heap, ref_of};
ghost use Rattle.plain.specs.Step.{self_ready};
ghost use Rattle.plain.specs.ValueLaws.{value_of};
ghost use Rattle.plain.specs.Objects.{usable, unmade};

use crate::heap::{self};
use crate::values::{self, RunType, Value};
use rules::types::Kin;

// Null, or a ready object.
pub fn is_usable(cells: &[u32], v: Value) -> bool
    ensures { result ≡ usable (heap cells.now 0) (value_of v.tag v.cell) }
{
    if v.tag != Value::REF {
        return false;
    }
    if v.cell == 0 {
        return true;
    }
    heap::ready_at(cells, v.cell - 1)
}

// An unready object that a constructor of the asked type may make.
pub fn is_unmade(t: &[u8], kin: Kin, cells: &[u32], v: Value, asked: RunType) -> bool
    ensures { result ≡ unmade (lineage t.now kin.at kin.count) (heap cells.now 0) (ref_of asked.base asked.depth) (value_of v.tag v.cell) }
{
    if v.tag != Value::REF {
        return false;
    }
    if v.cell == 0 {
        return false;
    }
    if heap::ready_at(cells, v.cell - 1) {
        return false;
    }
    values::type_fits(t, kin, values::type_at(cells, v.cell - 1), asked)
}

// A constructor's receiver, 0 for a call of another method.
pub fn is_self_ready(cells: &[u32], q: u32) -> bool
    ensures { result ≡ self_ready (heap cells.now 0) q }
{
    if q == 0 {
        return true;
    }
    heap::ready_at(cells, q - 1)
}
