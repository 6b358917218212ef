// One instruction on a state in lent words: what is asked of it, and the state that it leaves, group by group.
ghost use Rattle.std.specs.Prelude.{◌≡◌, not, [], ◌∷◌, ◌+◌, ◌-◌, ◌≤◌, leb, length, get_or};
ghost use Rattle.kit.specs.Claims.{ruled, verdict, then, claim};
ghost use Rattle.texts.specs.Faults.{number};
ghost use Rattle.rules.specs.Types.{top, at, is_int, is_reference, is_array};
ghost use Rattle.rules.specs.States.{operand, no_copy};
ghost use Rattle.rules.specs.Rule.{returns_int, returns_ref, returns_void, returned};
ghost use Rattle.rules.specs.TypeWords.{type_of};
ghost use Rattle.rules.specs.Ancestry.{lineage};
ghost use Rattle.rules.specs.Slots.{operands_of, locals_of, held, Placed, Roomy, Outside, pushed, dropped, stored, Moved};
ghost use Rattle.rules.specs.Forms.{takes_of, plain_takes, plain_gives, branch_takes, asked, form_claims, turned, Kept};
ghost use Rattle.rules.specs.Groups.{local_claims, local_after, stack_claims, stack_after, results_of, leave_claims, new_claims, new_after};

use crate::forms::{
    Takes, ask_form, ask_takes, branch_takes, count, leave_form, plain_gives, plain_takes,
};
use crate::instruction::{Branch, Leave, Local, Plain, Stack};
use crate::slots::{Held, cut, local, must, no_copy, peek, put, replace_locals, room, set_local};
use crate::types::{Kin, Ty};
use texts::faults::Refusal;

// ---- Forms that depend on nothing else.

pub fn ask_plain(t: &[u8], kin: Kin, h: Held, i: Plain, most: usize) -> Result<(), Refusal>
    requires { Placed t.now h }
    ensures { ruled number result ≡ verdict (form_claims (lineage t.now kin.at kin.count) most (plain_takes i) (plain_gives i) (held t.now h)) }
{
    ask_form(t, kin, h, plain_takes(i), plain_gives(i), most)
}

pub fn leave_plain(t: &mut [u8], h: Held, i: Plain) -> Held
    requires { Roomy t.old h × (h.depth ≤ 32) }
    ensures { Kept h result × (held t.new result ≡ turned (length (plain_takes i)) (plain_gives i) (held t.old h)) × Outside h.at t.old t.new }
{
    leave_form(t, h, count(plain_takes(i)), plain_gives(i))
}

pub fn ask_branch(t: &[u8], kin: Kin, h: Held, i: Branch, most: usize) -> Result<(), Refusal>
    requires { Placed t.now h }
    ensures { ruled number result ≡ verdict (form_claims (lineage t.now kin.at kin.count) most (branch_takes i) [] (held t.now h)) }
{
    ask_form(t, kin, h, branch_takes(i), None, most)
}

pub fn leave_branch(t: &mut [u8], h: Held, i: Branch) -> Held
    requires { Roomy t.old h × (h.depth ≤ 32) }
    ensures { Kept h result × (held t.new result ≡ turned (length (branch_takes i)) [] (held t.old h)) × Outside h.at t.old t.new }
{
    leave_form(t, h, count(branch_takes(i)), None)
}

// ---- What a form asks beside its operands: one question of one slot each. The question as a closure would need clauses longer than the
// function.

// Local j is an int.
#[tactic(auto, using(crate::specs::GroupLaws::own))]
fn int_local(t: &[u8], h: Held, j: usize) -> Result<(), Refusal>
    requires { Placed t.now h }
    ensures { ruled number result ≡ verdict (claim 16 (is_int (get_or (locals_of t.now h) j top)) ∷ []) }
{
    let a = local(t, h, j);
    must(a.is_int(), Refusal::Operand)
}

// Local j is a reference.
#[tactic(auto, using(crate::specs::GroupLaws::own))]
fn reference_local(t: &[u8], h: Held, j: usize) -> Result<(), Refusal>
    requires { Placed t.now h }
    ensures { ruled number result ≡ verdict (claim 16 (is_reference (get_or (locals_of t.now h) j top)) ∷ []) }
{
    let a = local(t, h, j);
    must(a.is_reference(), Refusal::Operand)
}

// The top operand is a reference.
#[tactic(auto, using(crate::specs::GroupLaws::own))]
fn reference_top(t: &[u8], h: Held) -> Result<(), Refusal>
    requires { Placed t.now h }
    ensures { ruled number result ≡ verdict (claim 16 (is_reference (operand 0 (operands_of t.now h))) ∷ []) }
{
    let a = peek(t, h, 0);
    must(a.is_reference(), Refusal::Operand)
}

// The top operand is an array.
#[tactic(auto, using(crate::specs::GroupLaws::own))]
fn array_top(t: &[u8], h: Held) -> Result<(), Refusal>
    requires { Placed t.now h }
    ensures { ruled number result ≡ verdict (claim 16 (is_array (operand 0 (operands_of t.now h))) ∷ []) }
{
    let a = peek(t, h, 0);
    must(a.is_array(), Refusal::Operand)
}

// The operands k, then the form's own answer, then room: c operands go and p come.
fn ask_with(
    t: &[u8],
    kin: Kin,
    h: Held,
    k: Takes,
    own: Result<(), Refusal>,
    c: usize,
    p: usize,
    most: usize,
) -> Result<(), Refusal>
    requires { Placed t.now h }
    ensures { ruled number result ≡ then (verdict (asked (lineage t.now kin.at kin.count) (operands_of t.now h) (takes_of k))) (then (ruled number own) (verdict (claim 15 (leb (p + (h.depth - c)) most) ∷ []))) }
{
    ask_takes(t, kin, h, k)?;
    own?;
    room(h, c, p, most)
}

// ---- Locals.

// No operands; the form's own answer, then room for p more.
fn ask_read(
    t: &[u8],
    kin: Kin,
    h: Held,
    own: Result<(), Refusal>,
    p: usize,
    most: usize,
) -> Result<(), Refusal>
    requires { Placed t.now h }
    ensures { ruled number result ≡ then (verdict (asked (lineage t.now kin.at kin.count) (operands_of t.now h) [])) (then (ruled number own) (verdict (claim 15 (leb (p + (h.depth - 0)) most) ∷ []))) }
{
    ask_with(t, kin, h, Takes::Zero, own, 0, p, most)
}

pub fn ask_local(t: &[u8], kin: Kin, h: Held, i: Local, most: usize) -> Result<(), Refusal>
    requires { Placed t.now h }
    ensures { ruled number result ≡ verdict (local_claims (lineage t.now kin.at kin.count) most i (held t.now h)) }
{
    match i {
        Local::Iload(j) => ask_read(t, kin, h, int_local(t, h, j as usize), 1, most),
        Local::Aload(j) => ask_read(t, kin, h, reference_local(t, h, j as usize), 1, most),
        Local::Istore(_) => ask_with(t, kin, h, Takes::One(Ty::int()), Ok(()), 1, 0, most),
        Local::Astore(_) => ask_with(
            t,
            kin,
            h,
            Takes::One(Ty::top()),
            reference_top(t, h),
            1,
            0,
            most,
        ),
        Local::Iinc(j, _) => ask_read(t, kin, h, int_local(t, h, j as usize), 0, most),
    }
}

// A type goes into local j, and the top operand goes.
fn store(t: &mut [u8], h: Held, j: usize, w: Ty) -> Held
    requires { Roomy t.old h × (h.depth ≤ 32) }
    ensures { Kept h result × (held t.new result ≡ dropped 1 (stored j (type_of w.word) (held t.old h))) × Outside h.at t.old t.new }
{
    set_local(t, h, j, w);
    cut(h, 1)
}

// A type comes on the stack.
fn push(t: &mut [u8], h: Held, w: Ty) -> Held
    requires { Roomy t.old h × (h.depth ≤ 32) }
    ensures { Kept h result × (held t.new result ≡ pushed 0 (type_of w.word) (held t.old h)) × Outside h.at t.old t.new }
{
    put(t, h, 0, w)
}

pub fn leave_local(t: &mut [u8], h: Held, i: Local) -> Held
    requires { Roomy t.old h × (h.depth ≤ 32) }
    ensures { Kept h result × (held t.new result ≡ local_after i (held t.old h)) × Outside h.at t.old t.new }
{
    match i {
        Local::Iload(_) => push(t, h, Ty::int()),
        Local::Aload(j) => push(t, h, local(t, h, j as usize)),
        Local::Istore(j) => store(t, h, j as usize, Ty::int()),
        Local::Astore(j) => store(t, h, j as usize, peek(t, h, 0)),
        Local::Iinc(_, _) => h,
    }
}

// ---- The stack.

pub fn ask_stack(t: &[u8], kin: Kin, h: Held, i: Stack, most: usize) -> Result<(), Refusal>
    requires { Placed t.now h }
    ensures { ruled number result ≡ verdict (stack_claims (lineage t.now kin.at kin.count) most i (held t.now h)) }
{
    match i {
        Stack::Dup => ask_with(t, kin, h, Takes::One(Ty::top()), Ok(()), 0, 1, most),
        Stack::Dupx1 => ask_with(
            t,
            kin,
            h,
            Takes::Two(Ty::top(), Ty::top()),
            Ok(()),
            2,
            3,
            most,
        ),
        Stack::Swap => ask_with(
            t,
            kin,
            h,
            Takes::Two(Ty::top(), Ty::top()),
            Ok(()),
            2,
            2,
            most,
        ),
        Stack::Arraylength => ask_with(
            t,
            kin,
            h,
            Takes::One(Ty::top()),
            array_top(t, h),
            1,
            1,
            most,
        ),
        Stack::Aaload => ask_with(
            t,
            kin,
            h,
            Takes::Two(Ty::int(), Ty::array(0, 0)),
            Ok(()),
            2,
            1,
            most,
        ),
    }
}

// k operands go, then a and b come, b on top.
fn put_two(t: &mut [u8], h: Held, k: usize, a: Ty, b: Ty) -> Held
    requires { Roomy t.old h × (h.depth ≤ 32) }
    ensures { Moved h result (h.depth - k + 2) × (held t.new result ≡ pushed 0 (type_of b.word) (pushed k (type_of a.word) (held t.old h))) × Outside h.at t.old t.new }
{
    let m = put(t, h, k, a);
    put(t, m, 0, b)
}

// Two operands go, then a, b and a come.
fn put_three(t: &mut [u8], h: Held, a: Ty, b: Ty) -> Held
    requires { Roomy t.old h × (h.depth ≤ 32) }
    ensures { Moved h result (h.depth - 2 + 3) × (held t.new result ≡ pushed 0 (type_of a.word) (pushed 0 (type_of b.word) (pushed 2 (type_of a.word) (held t.old h)))) × Outside h.at t.old t.new }
{
    let m = put_two(t, h, 2, a, b);
    put(t, m, 0, a)
}

pub fn leave_stack(t: &mut [u8], h: Held, i: Stack) -> Held
    requires { Roomy t.old h × (h.depth ≤ 32) }
    ensures { Kept h result × (held t.new result ≡ stack_after i (held t.old h)) × Outside h.at t.old t.new }
{
    let a = peek(t, h, 0);
    let b = peek(t, h, 1);
    match i {
        Stack::Dup => put(t, h, 0, a),
        Stack::Dupx1 => put_three(t, h, a, b),
        Stack::Swap => put_two(t, h, 2, a, b),
        Stack::Arraylength => put(t, h, 1, Ty::int()),
        Stack::Aaload => put(t, h, 2, b.element()),
    }
}

// ---- Leaving a method; back is what its descriptor returns.

fn returns_int(back: Option<Ty>) -> bool
    ensures { result ≡ returns_int (results_of back) }
{
    match back {
        None => false,
        Some(w) => w.word % 8 == Ty::INT,
    }
}

fn returns_reference(back: Option<Ty>) -> bool
    ensures { result ≡ returns_ref (results_of back) }
{
    match back {
        None => false,
        Some(w) => w.word % 8 != Ty::INT,
    }
}

fn returns_void(back: Option<Ty>) -> bool
    ensures { result ≡ returns_void (results_of back) }
{
    match back {
        None => true,
        Some(_) => false,
    }
}

fn returned_type(back: Option<Ty>) -> Ty
    ensures { type_of result.word ≡ returned (results_of back) }
{
    match back {
        None => Ty::top(),
        Some(w) => w.described(),
    }
}

// The descriptor is of that kind, and no constructor leaves with the flag set.
fn may_leave(kind: bool, flag: bool) -> Result<(), Refusal>
    ensures { ruled number result ≡ verdict (claim 16 kind ∷ claim 18 (not flag) ∷ []) }
{
    must(kind, Refusal::Operand)?;
    must(!flag, Refusal::Construction)
}

pub fn ask_leave(
    t: &[u8],
    kin: Kin,
    h: Held,
    i: Leave,
    back: Option<Ty>,
    most: usize,
) -> Result<(), Refusal>
    requires { Placed t.now h }
    ensures { ruled number result ≡ verdict (leave_claims (lineage t.now kin.at kin.count) most (results_of back) i (held t.now h)) }
{
    let d = h.depth;
    match i {
        Leave::Athrow => ask_with(t, kin, h, Takes::One(Ty::class(1)), Ok(()), d, 0, most),
        Leave::Ireturn => ask_with(
            t,
            kin,
            h,
            Takes::One(Ty::int()),
            may_leave(returns_int(back), h.flag),
            d,
            0,
            most,
        ),
        Leave::Areturn => ask_with(
            t,
            kin,
            h,
            Takes::One(returned_type(back)),
            may_leave(returns_reference(back), h.flag),
            d,
            0,
            most,
        ),
        Leave::Return => ask_with(
            t,
            kin,
            h,
            Takes::Zero,
            may_leave(returns_void(back), h.flag),
            d,
            0,
            most,
        ),
    }
}

// ---- new at the offset o.

#[tactic(auto, using(crate::specs::GroupLaws::own))]
fn no_old_copy(t: &[u8], h: Held, o: u16) -> Result<(), Refusal>
    requires { Placed t.now h }
    ensures { ruled number result ≡ verdict (claim 18 (no_copy (at o) (operands_of t.now h)) ∷ []) }
{
    let key = Ty::uninit(o);
    must(no_copy(t, h, key), Refusal::Construction)
}

pub fn ask_new(t: &[u8], kin: Kin, h: Held, o: u16, most: usize) -> Result<(), Refusal>
    requires { Placed t.now h }
    ensures { ruled number result ≡ verdict (new_claims (lineage t.now kin.at kin.count) most o (held t.now h)) }
{
    ask_with(t, kin, h, Takes::Zero, no_old_copy(t, h, o), 0, 1, most)
}

pub fn leave_new(t: &mut [u8], h: Held, o: u16) -> Held
    requires { Roomy t.old h × (h.depth ≤ 32) }
    ensures { Kept h result × (held t.new result ≡ new_after o (held t.old h)) × Outside h.at t.old t.new }
{
    let key = Ty::uninit(o);
    replace_locals(t, h, key, Ty::top());
    put(t, h, 0, key)
}
