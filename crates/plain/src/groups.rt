// Instructions by their groups.
ghost use Rattle.std.specs.Prelude.{◌≤◌, length};
ghost use Rattle.classfiles.specs.Limits.{max_heap};
ghost use Rattle.rules.specs.InstructionWords.{plain_of, branch_of, local_of, stack_of};
ghost use Rattle.rules.specs.Ancestry.{Parents};
ghost use Rattle.plain.specs.Windows.{Sized, Goes};
ghost use Rattle.plain.specs.WindowForms.{doing};
ghost use Rattle.plain.specs.HeapTurns.{Steps};

use crate::window::{Place, Turn};
use crate::{forms, memory};
use rules::instruction::{Branch, Local, Plain, Stack};
use rules::types::Kin;

pub fn on_local(w: &mut [u32], g: &mut [u8], c: Place, i: Local) -> Turn
    requires { Sized c w.old g.old }
    ensures { Goes c w.old g.old w.new g.new result (doing w.old g.old c.operands (local_of i)) }
{
    match i {
        Local::Iload(j) => forms::load_int(w, g, c, j),
        Local::Aload(j) => forms::load_ref(w, g, c, j),
        Local::Istore(j) => forms::store_int(w, g, c, j),
        Local::Astore(j) => forms::store_ref(w, g, c, j),
        Local::Iinc(j, k) => forms::increment(w, g, c, j, k),
    }
}

pub fn branch(t: &[u8], kin: Kin, cells: &[u32], w: &[u32], g: &[u8], c: Place, i: Branch) -> Turn
    requires { Sized c w.now g.now }
    ensures { Steps (λ P. Parents P t.now kin.at kin.count) c w.now g.now cells.now w.now g.now cells.now result (doing w.now g.now c.operands (branch_of i)) }
{
    match i {
        Branch::Goto(o) => forms::jump(w, g, c, o),
        Branch::Ifint(f, o) => forms::if_int(w, g, c, f, o),
        Branch::Ificmp(f, o) => forms::if_two(w, g, c, f, o),
        Branch::Ifacmp(e, o) => memory::if_same(t, kin, cells, w, g, c, e, o),
        Branch::Ifnull(e, o) => memory::if_null(t, kin, cells, w, g, c, e, o),
    }
}

pub fn on_stack(
    t: &[u8],
    kin: Kin,
    cells: &[u32],
    w: &mut [u32],
    g: &mut [u8],
    c: Place,
    i: Stack,
) -> Turn
    requires { Sized c w.old g.old }
    ensures { Steps (λ P. Parents P t.now kin.at kin.count) c w.old g.old cells.now w.new g.new cells.now result (doing w.old g.old c.operands (stack_of i)) }
{
    match i {
        Stack::Dup => forms::dup(w, g, c),
        Stack::Dupx1 => forms::dup_under(w, g, c),
        Stack::Swap => forms::swap(w, g, c),
        Stack::Arraylength => memory::length(t, kin, cells, w, g, c),
        Stack::Aaload => memory::aaload(t, kin, cells, w, g, c),
    }
}

pub fn plain(
    t: &[u8],
    kin: Kin,
    cells: &mut [u32],
    w: &mut [u32],
    g: &mut [u8],
    c: Place,
    i: Plain,
) -> Turn
    requires { Sized c w.old g.old × (length cells.old ≤ max_heap) }
    ensures { Steps (λ P. Parents P t.now kin.at kin.count) c w.old g.old cells.old w.new g.new cells.new result (doing w.old g.old c.operands (plain_of i)) }
{
    match i {
        Plain::Nop => forms::nop(w, g, c),
        Plain::Aconstnull => forms::null(w, g, c),
        Plain::Pop => forms::pop(w, g, c),
        Plain::Ineg => forms::ineg(w, g, c),
        Plain::Iaload => memory::iaload(t, kin, cells, w, g, c),
        Plain::Iastore => memory::iastore(t, kin, cells, w, g, c),
        Plain::Aastore => memory::aastore(t, kin, cells, w, g, c),
        Plain::Iconst(v) => forms::constant(w, g, c, v),
        Plain::Ibin(f) => forms::ibin(w, g, c, f),
        Plain::Idiv(f) => forms::idiv(w, g, c, f),
        Plain::Newarray(of) => memory::newarray(t, kin, cells, w, g, c, of),
        Plain::Checkcast(of) => memory::checkcast(t, kin, cells, w, g, c, of),
        Plain::Instanceof(of) => memory::instanceof(t, kin, cells, w, g, c, of),
        Plain::Getfield(f) => memory::getfield(t, kin, cells, w, g, c, f),
        Plain::Putfield(f) => memory::putfield(t, kin, cells, w, g, c, f),
    }
}
