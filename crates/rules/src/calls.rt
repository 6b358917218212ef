// Calls: the callee's parameter types are words of a table, the first parameter's first.
ghost use Rattle.std.specs.Prelude.{◌≡◌, ◌++◌, ◌+◌, ◌≤◌, ◌/◌, length};
ghost use Rattle.kit.specs.Claims.{ruled, verdict};
ghost use Rattle.texts.specs.Faults.{number};
ghost use Rattle.rules.specs.Walk.{operands_fit};
ghost use Rattle.rules.specs.Ancestry.{lineage};
ghost use Rattle.rules.specs.TypeWords.{type_of};
ghost use Rattle.rules.specs.Slots.{stack_at, operands_of, held, Placed, Roomy, Outside};
ghost use Rattle.rules.specs.Forms.{gives_of, asked, form_claims, Kept};
ghost use Rattle.rules.specs.Known.{facts_of, init_fits, special_claims, special_after, call_claims, call_after};

use crate::forms::{given, leave_form};
use crate::instruction::Call;
use crate::slots::{Held, cut, fit_operand, must, need, peek, replace_all, room};
use crate::types;
use crate::types::{Kin, Ty};
use texts::faults::Refusal;

// Where the parameters' types stand.
#[derive(Clone, Copy)]
pub struct Params {
    pub at: usize,
    pub count: usize,
}

// What the rule of an instruction needs beside the state: what this method returns; of a call its parameters and what comes back; the own
// class, and the class of the new that made a constructor's receiver.
#[derive(Clone, Copy)]
pub struct Known {
    pub back: Option<Ty>,
    pub args: Params,
    pub gives: Option<Ty>,
    pub own: u16,
    pub made: u16,
}

// The operands from the top down fit the parameters from the last on.
fn fit_arguments(t: &[u8], kin: Kin, h: Held, a: Params) -> Result<(), Refusal>
    requires { Placed t.now h × (a.at + a.count ≤ length t.now / 4) }
    ensures { ruled number result ≡ verdict (operands_fit (lineage t.now kin.at kin.count) 0 (stack_at t.now a.at a.count) (operands_of t.now h)) }
{
    for k in 0..a.count {
        let w = Ty {
            word: kit::word(t, a.at + (a.count - (k + 1))),
        };
        if !types::assignable(t, kin, peek(t, h, k), w) {
            return Err(Refusal::Operand);
        }
    }
    Ok(())
}

// The operand below n arguments fits the receiver, where there is one.
#[tactic(auto, using(kit::specs::Claims::none_claimed), unfolding(crate::specs::Walk::operands_fit))]
fn fit_receiver(t: &[u8], kin: Kin, h: Held, n: usize, receiver: Option<Ty>) -> Result<(), Refusal>
    requires { Placed t.now h }
    ensures { ruled number result ≡ verdict (operands_fit (lineage t.now kin.at kin.count) n (gives_of receiver) (operands_of t.now h)) }
{
    match receiver {
        None => Ok(()),
        Some(w) => fit_operand(t, kin, h, n, w),
    }
}

// The operands of a call are there and fit.
pub fn ask_arguments(
    t: &[u8],
    kin: Kin,
    h: Held,
    a: Params,
    receiver: Option<Ty>,
) -> Result<(), Refusal>
    requires { Placed t.now h × (a.at + a.count ≤ length t.now / 4) }
    ensures { ruled number result ≡ verdict (asked (lineage t.now kin.at kin.count) (operands_of t.now h) (stack_at t.now a.at a.count ++ gives_of receiver)) }
{
    let n = a.count;
    need(h, n + given(receiver))?;
    fit_arguments(t, kin, h, a)?;
    fit_receiver(t, kin, h, n, receiver)
}

// All that is asked of a call that gives back.
pub fn ask_call(
    t: &[u8],
    kin: Kin,
    h: Held,
    a: Params,
    receiver: Option<Ty>,
    back: Option<Ty>,
    most: usize,
) -> Result<(), Refusal>
    requires { Placed t.now h × (a.at + a.count ≤ length t.now / 4) }
    ensures { ruled number result ≡ verdict (form_claims (lineage t.now kin.at kin.count) most (stack_at t.now a.at a.count ++ gives_of receiver) (gives_of back) (held t.now h)) }
{
    ask_arguments(t, kin, h, a, receiver)?;
    room(h, a.count + given(receiver), given(back), most)
}

// ---- Constructors.

// `<init>` of the class c may be called on w.
fn init_fits(t: &[u8], kin: Kin, k: Known, c: u16, w: Ty) -> bool
    ensures { result ≡ init_fits (lineage t.now kin.at kin.count) (facts_of t.now k) c (type_of w.word) }
{
    if w.word % 8 < Ty::UNINIT {
        return false;
    }
    if w.word % 8 == Ty::UNINIT {
        return k.made == c;
    }
    if k.own == c {
        return true;
    }
    types::parent(t, kin, k.own as u32) == c as u32
}

// All that is asked of a call of `<init>` of the class c.
fn ask_special(t: &[u8], kin: Kin, h: Held, k: Known, c: u16, most: usize) -> Result<(), Refusal>
    requires { Placed t.now h × (k.args.at + k.args.count ≤ length t.now / 4) }
    ensures { ruled number result ≡ verdict (special_claims (lineage t.now kin.at kin.count) most (facts_of t.now k) c (held t.now h)) }
{
    let a = k.args;
    let n = a.count;
    ask_arguments(t, kin, h, a, Some(Ty::top()))?;
    let w = peek(t, h, n);
    must(init_fits(t, kin, k, c, w), Refusal::Construction)?;
    room(h, n + 1, 0, most)
}

// The receiver and the arguments go, and every copy of it is of its class.
fn leave_special(t: &mut [u8], h: Held, k: Known) -> Held
    requires { Roomy t.old h × (k.args.at + k.args.count ≤ length t.old / 4) }
    ensures { Kept h result × (held t.new result ≡ special_after (facts_of t.old k) (held t.old h)) × Outside h.at t.old t.new }
{
    let a = k.args;
    let n = a.count;
    let key = peek(t, h, n);
    let m = cut(h, n + 1);
    if key.word % 8 == Ty::UNINIT {
        replace_all(t, m, key, Ty::class(k.made));
        return m;
    }
    replace_all(t, m, key, Ty::class(k.own));
    Held { flag: false, ..m }
}

// ---- All calls.

#[tactic(auto, unfolding(crate::specs::Known::call_claims))]
pub fn ask_any(t: &[u8], kin: Kin, h: Held, c: Call, k: Known, most: usize) -> Result<(), Refusal>
    requires { Placed t.now h × (k.args.at + k.args.count ≤ length t.now / 4) }
    ensures { ruled number result ≡ verdict (call_claims (lineage t.now kin.at kin.count) most (facts_of t.now k) c (held t.now h)) }
{
    let a = k.args;
    let back = k.gives;
    match c {
        Call::Virtual(m) => { ask_call(t, kin, h, a, Some(Ty::class(m.named)), back, most) }
        Call::Special(m) => ask_special(t, kin, h, k, m.named, most),
        Call::Static(_) => ask_call(t, kin, h, a, None, back, most),
    }
}

pub fn leave_any(t: &mut [u8], h: Held, c: Call, k: Known) -> Held
    requires { Roomy t.old h × (h.depth ≤ 32) × (k.args.at + k.args.count ≤ length t.old / 4) }
    ensures { Kept h result × (held t.new result ≡ call_after (facts_of t.old k) c (held t.old h)) × Outside h.at t.old t.new }
{
    let a = k.args;
    let n = a.count;
    let back = k.gives;
    match c {
        Call::Virtual(_) => leave_form(t, h, n + 1, back),
        Call::Special(_) => leave_special(t, h, k),
        Call::Static(_) => leave_form(t, h, n, back),
    }
}
