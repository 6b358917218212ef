// Frequent instructions by their opcodes that name something of the pool, look at arrays or null, or return; the answer is as in `quick`.
ghost use Rattle.std.specs.Prelude.{◌≡◌, true, List, ℕ, ◌≤◌, get_or};
ghost use Rattle.reader.specs.Program.{Program};
ghost use Rattle.rules.specs.Types.{fits};
ghost use Rattle.rules.specs.States.{operand};
ghost use Rattle.rules.specs.TypeWords.{type_of};
ghost use Rattle.rules.specs.Ancestry.{lineage};
ghost use Rattle.rules.specs.Slots.{operands_of, Placed, Roomy};
ghost use Rattle.rules.specs.FrameRows.{Laid};
ghost use Rattle.rules.specs.Sites.{site_code};
ghost use Rattle.rules.specs.declared.instruction.Leave.TheVariants.{Ireturn, Areturn, Return};
ghost use Rattle.verifier.specs.Quick.{Open, Tried};
ghost use Rattle.verifier.specs.QuickNames.{LoadsNumber, GetsField, PutsField, MakesNew, LoadsElement, StoresElement, Measures, TestsNull, Leaves};

use crate::quick::{Went, branch, one_int, push, target};
use crate::quick_calls::calls;
use reader::types::result_at;
use rules::codes::described;
use rules::decode;
use rules::frames::Rows;
use rules::site::Site;
use rules::slots::{Held, no_copy, peek, put, replace_locals, room};
use rules::types::{Kin, Ty, same_or_assignable};

// The k-th operand may stand where w is asked.
pub fn operand_fits(t: &[u8], kin: Kin, h: Held, k: usize, w: Ty) -> bool
    requires { Placed t.now h }
    ensures { result ≡ fits (lineage t.now kin.at kin.count) (operand k (operands_of t.now h)) (type_of w.word) }
{
    same_or_assignable(t, kin, peek(t, h, k), w)
}

// ---- By the word w of what is named.

fn load_number(t: &mut [u8], h: Held, most: usize, w: u32) -> Option<Went>
    requires { Roomy t.old h × (h.depth ≤ 32) }
    ensures { LoadsNumber t.old t.new most h w result }
{
    if w % 8 != 1 {
        return None;
    }
    push(t, h, most, Ty::int())
}

fn get_field(t: &mut [u8], kin: Kin, h: Held, most: usize, w: u32) -> Option<Went>
    requires { Roomy t.old h × (h.depth ≤ 32) }
    ensures { GetsField t.old t.new kin most h w result }
{
    if w % 8 != 3 {
        return None;
    }
    if h.depth < 1 {
        return None;
    }
    if !operand_fits(t, kin, h, 0, Ty::class((w / 2048 % 32) as u16)) {
        return None;
    }
    if room(h, 1, 1, most).is_err() {
        return None;
    }
    let of = described((w / 8 % 256) as u8);
    let g = put(t, h, 1, of);
    Some(Went::On(g.depth))
}

fn put_field(t: &[u8], kin: Kin, h: Held, most: usize, w: u32) -> Option<Went>
    requires { Roomy t.now h }
    ensures { PutsField t.now kin most h w result }
{
    if w % 8 != 3 {
        return None;
    }
    if h.depth < 2 {
        return None;
    }
    let of = described((w / 8 % 256) as u8);
    if !operand_fits(t, kin, h, 0, of) {
        return None;
    }
    if !operand_fits(t, kin, h, 1, Ty::class((w / 2048 % 32) as u16)) {
        return None;
    }
    if room(h, 2, 0, most).is_err() {
        return None;
    }
    Some(Went::On(h.depth - 2))
}

// A class without brackets; the locals' old copies count as top.
fn new_object(t: &mut [u8], h: Held, most: usize, o: u16, w: u32) -> Option<Went>
    requires { Roomy t.old h × (h.depth ≤ 32) }
    ensures { MakesNew t.old t.new most h o w result }
{
    if w % 64 != 2 {
        return None;
    }
    let key = Ty::uninit(o);
    if !no_copy(t, h, key) {
        return None;
    }
    if room(h, 0, 1, most).is_err() {
        return None;
    }
    replace_locals(t, h, key, Ty::top());
    let g = put(t, h, 0, key);
    Some(Went::On(g.depth))
}

// What names something.
pub fn names(
    s: &[u8],
    t: &mut [u8],
    x: Site,
    kin: Kin,
    f: Rows,
    h: Held,
    code: &[u8],
    o: u16,
    op: usize,
) -> Option<Went>
    requires { Open s.now t.old x kin f h o × (code.now ≡ site_code s.now x) × (op ≡ get_or code.now o 0) }
    ensures { Tried s.now t.old t.new x f true h o result }
{
    match op {
        0x12 => load_number(
            t,
            h,
            x.stack,
            decode::named_word(t, x.class, kit::byte(code, o as usize + 1)),
        ),
        0xb4 => get_field(
            t,
            kin,
            h,
            x.stack,
            decode::named_at(t, x.class, code, o as usize),
        ),
        0xb5 => put_field(
            t,
            kin,
            h,
            x.stack,
            decode::named_at(t, x.class, code, o as usize),
        ),
        0xbb => new_object(
            t,
            h,
            x.stack,
            o,
            decode::named_at(t, x.class, code, o as usize),
        ),
        _ => references(s, t, x, kin, f, h, code, o, op),
    }
}

// ---- Arrays, and tests for null.

fn load_element(t: &mut [u8], kin: Kin, h: Held, most: usize) -> Option<Went>
    requires { Roomy t.old h × (h.depth ≤ 32) }
    ensures { LoadsElement t.old t.new kin most h result }
{
    if h.depth < 2 {
        return None;
    }
    if !operand_fits(t, kin, h, 0, Ty::int()) {
        return None;
    }
    if !operand_fits(t, kin, h, 1, Ty::array(65535, 0)) {
        return None;
    }
    if room(h, 2, 1, most).is_err() {
        return None;
    }
    let g = put(t, h, 2, Ty::int());
    Some(Went::On(g.depth))
}

fn store_element(t: &[u8], kin: Kin, h: Held, most: usize) -> Option<Went>
    requires { Roomy t.now h }
    ensures { StoresElement t.now kin most h result }
{
    if h.depth < 3 {
        return None;
    }
    let w = Ty::int();
    if !operand_fits(t, kin, h, 0, w) {
        return None;
    }
    if !operand_fits(t, kin, h, 1, w) {
        return None;
    }
    if !operand_fits(t, kin, h, 2, Ty::array(65535, 0)) {
        return None;
    }
    if room(h, 3, 0, most).is_err() {
        return None;
    }
    Some(Went::On(h.depth - 3))
}

fn measure(t: &mut [u8], h: Held, most: usize) -> Option<Went>
    requires { Roomy t.old h × (h.depth ≤ 32) }
    ensures { Measures t.old t.new most h result }
{
    if h.depth < 1 {
        return None;
    }
    let w = peek(t, h, 0);
    if !w.is_array() {
        return None;
    }
    if room(h, 1, 1, most).is_err() {
        return None;
    }
    let g = put(t, h, 1, Ty::int());
    Some(Went::On(g.depth))
}

fn test_null(t: &[u8], kin: Kin, f: Rows, h: Held, most: usize, o: u16) -> Option<Went>
    requires { Roomy t.now h × Laid t.now f }
    ensures { TestsNull t.now kin f most h o result }
{
    if h.depth < 1 {
        return None;
    }
    if !operand_fits(t, kin, h, 0, Ty::class(0)) {
        return None;
    }
    branch(t, kin, f, h, most, 1, o)
}

fn references(
    s: &[u8],
    t: &mut [u8],
    x: Site,
    kin: Kin,
    f: Rows,
    h: Held,
    code: &[u8],
    o: u16,
    op: usize,
) -> Option<Went>
    requires { Open s.now t.old x kin f h o × (code.now ≡ site_code s.now x) × (op ≡ get_or code.now o 0) }
    ensures { Tried s.now t.old t.new x f true h o result }
{
    match op {
        0x2e => load_element(t, kin, h, x.stack),
        0x4f => store_element(t, kin, h, x.stack),
        0xbe => measure(t, h, x.stack),
        0xc6 => test_null(t, kin, f, h, x.stack, target(code, o)),
        0xc7 => test_null(t, kin, f, h, x.stack, target(code, o)),
        _ => returns(s, t, x, kin, f, h, code, o, op),
    }
}

// ---- Returns; back is the code of the method's result, 256 where it has none. No constructor leaves with the flag set.

fn leave_int(t: &[u8], h: Held, back: usize) -> Option<Went>
    requires { Roomy t.now h }
    ensures { (L : Program) → Leaves L t.now h back Ireturn result }
{
    if h.flag {
        return None;
    }
    if back != 248 {
        return None;
    }
    if one_int(t, h) {
        return Some(Went::Off);
    }
    None
}

fn leave_reference(t: &[u8], kin: Kin, h: Held, back: usize) -> Option<Went>
    requires { Roomy t.now h × (back ≤ 256) }
    ensures { Leaves (lineage t.now kin.at kin.count) t.now h back Areturn result }
{
    if h.flag {
        return None;
    }
    if back == 256 {
        return None;
    }
    if h.depth < 1 {
        return None;
    }
    let w = described(back as u8);
    if w.is_int() {
        return None;
    }
    if operand_fits(t, kin, h, 0, w) {
        return Some(Went::Off);
    }
    None
}

fn leave_bare(h: Held, back: usize) -> Option<Went>
    ensures { (L : Program) (t : List ℕ) → Leaves L t h back Return result }
{
    if h.flag {
        return None;
    }
    if back == 256 {
        return Some(Went::Off);
    }
    None
}

fn returns(
    s: &[u8],
    t: &mut [u8],
    x: Site,
    kin: Kin,
    f: Rows,
    h: Held,
    code: &[u8],
    o: u16,
    op: usize,
) -> Option<Went>
    requires { Open s.now t.old x kin f h o × (code.now ≡ site_code s.now x) × (op ≡ get_or code.now o 0) }
    ensures { Tried s.now t.old t.new x f true h o result }
{
    match op {
        0xac => leave_int(t, h, result_at(t, 64 * x.class + x.method)),
        0xb0 => leave_reference(t, kin, h, result_at(t, 64 * x.class + x.method)),
        0xb1 => leave_bare(h, result_at(t, 64 * x.class + x.method)),
        _ => calls(s, t, x, kin, f, h, code, o, op),
    }
}
