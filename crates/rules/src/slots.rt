// A state in lent words: what each function does to the state that the words mean.
ghost use Rattle.std.specs.Prelude.{ℕ, is_some, ◌≡◌, false, [], ◌∷◌, ◌+◌, ◌-◌, ◌<◌, ◌≤◌, ◌/◌, leb, length, get_or};
ghost use Rattle.kit.specs.Claims.{ruled, verdict, claim};
ghost use Rattle.texts.specs.Faults.{number};
ghost use Rattle.rules.specs.Types.{top, fits};
ghost use Rattle.rules.specs.Rule.{key_of};
ghost use Rattle.rules.specs.States.{state, operand, no_copy, slots_fit, state_fits};
ghost use Rattle.rules.specs.TypeWords.{type_of};
ghost use Rattle.rules.specs.Ancestry.{lineage};
ghost use Rattle.rules.specs.Slots.{locals_at, stack_at, operands_of, locals_of, held, Placed, Roomy, Outside, Moved, pushed, stored, swap1, locals_swapped, all_swapped, veil1, veil, hidden_key, Swapped};

use crate::types::{self, Kin, Ty};
use texts::faults::Refusal;

// Where a state stands: its first word, how many locals and operands it has, and its flag.
#[derive(Clone, Copy)]
pub struct Held {
    pub at: usize,
    pub locals: usize,
    pub depth: usize,
    pub flag: bool,
}

// What a demand is refused by stands for a number.
pub trait Label: Copy {
    ghost label: { Self → ℕ };
}

impl Label for Refusal {
    ghost label = { number };
}

impl Label for u32 {
    ghost label = { λ n. n };
}

// A demand: where it is not met, that refusal.
#[tactic(auto, using(crate::specs::SlotLaws::leaves))]
pub fn must<R: Label>(ok: bool, refusal: R) -> Result<(), R>
    ensures { ruled R.label result ≡ verdict (claim (R.label refusal) ok ∷ []) }
{
    if ok {
        return Ok(());
    }
    Err(refusal)
}

// ---- Depths.

// There are k operands.
#[tactic(auto, using(crate::specs::SlotLaws::leaves))]
pub fn need(h: Held, k: usize) -> Result<(), Refusal>
    ensures { ruled number result ≡ verdict (claim 15 (leb k h.depth) ∷ []) }
{
    if k <= h.depth {
        return Ok(());
    }
    Err(Refusal::Depth)
}

// Where k operands go, p fit on the stack.
#[tactic(auto, using(crate::specs::SlotLaws::leaves))]
pub fn room(h: Held, k: usize, p: usize, most: usize) -> Result<(), Refusal>
    ensures { ruled number result ≡ verdict (claim 15 (leb (p + (h.depth - k)) most) ∷ []) }
{
    if most < p {
        return Err(Refusal::Depth);
    }
    if most - p < h.depth.saturating_sub(k) {
        return Err(Refusal::Depth);
    }
    Ok(())
}

fn at_depth(h: Held, d: usize) -> Held
    ensures { Moved h result d }
{
    Held { depth: d, ..h }
}

// ---- Reads.

// The k-th operand from the top; top where there is none.
#[tactic(auto, using(crate::specs::SlotLaws::leaves))]
pub fn peek(t: &[u8], h: Held, k: usize) -> Ty
    requires { Placed t.now h }
    ensures { type_of result.word ≡ operand k (operands_of t.now h) }
{
    if k < h.depth {
        return Ty {
            word: kit::word(t, h.at + 32 + (h.depth - k - 1)),
        };
    }
    Ty::top()
}

// Local j; top where there is none.
#[tactic(auto, using(crate::specs::SlotLaws::leaves))]
pub fn local(t: &[u8], h: Held, j: usize) -> Ty
    requires { Placed t.now h }
    ensures { type_of result.word ≡ get_or (locals_of t.now h) j top }
{
    if j < h.locals {
        return Ty {
            word: kit::word(t, h.at + j),
        };
    }
    Ty::top()
}

// No copy of the uninitialised object among the operands.
#[tactic(auto, using(crate::specs::SlotLaws::turns))]
pub fn no_copy(t: &[u8], h: Held, key: Ty) -> bool
    requires { Placed t.now h }
    ensures { result ≡ no_copy (key_of (type_of key.word)) (operands_of t.now h) }
{
    for i in 0..h.depth {
        let a = Ty {
            word: kit::word(t, h.at + 32 + (h.depth - (i + 1))),
        };
        if a.is_uninit(key) {
            return false;
        }
    }
    true
}

// ---- Stores.

// k operands go.
pub fn cut(h: Held, k: usize) -> Held
    ensures { Moved h result (h.depth - k) }
{
    at_depth(h, h.depth.saturating_sub(k))
}

// k operands go, w comes.
pub fn put(t: &mut [u8], h: Held, k: usize, w: Ty) -> Held
    requires { Roomy t.old h × (h.depth - k < 40) }
    ensures { Moved h result (h.depth - k + 1) × (held t.new result ≡ pushed k (type_of w.word) (held t.old h)) × Outside h.at t.old t.new }
{
    let d = h.depth.saturating_sub(k);
    kit::put_word(t, h.at + 32 + d, w.word);
    at_depth(h, d + 1)
}

pub fn set_local(t: &mut [u8], h: Held, j: usize, w: Ty)
    requires { Roomy t.old h }
    ensures { (held t.new h ≡ stored j (type_of w.word) (held t.old h)) × Outside h.at t.old t.new }
{
    if h.locals <= j {
        return;
    }
    kit::put_word(t, h.at + j, w.word);
}

#[tactic(auto, using(crate::specs::SlotLaws::leaves))]
fn swapped(a: Ty, key: Ty, w: Ty) -> Ty
    ensures { type_of result.word ≡ swap1 (key_of (type_of key.word)) (type_of w.word) (type_of a.word) }
{
    if a.is_uninit(key) {
        return w;
    }
    a
}

// Every copy of the uninitialised object in the m words from x on becomes w.
fn swap_range(t: &mut [u8], x: usize, m: usize, key: Ty, w: Ty)
    requires { x + m ≤ length t.old / 4 }
    ensures { Swapped (key_of (type_of key.word)) (type_of w.word) t.old t.new x m }
{
    for i in 0..m {
        let a = Ty {
            word: kit::word(t, x + i),
        };
        let b = swapped(a, key, w);
        kit::put_word(t, x + i, b.word);
    }
}

pub fn replace_locals(t: &mut [u8], h: Held, key: Ty, w: Ty)
    requires { Roomy t.old h }
    ensures { (held t.new h ≡ locals_swapped (key_of (type_of key.word)) (type_of w.word) (held t.old h)) × Outside h.at t.old t.new }
{
    swap_range(t, h.at, h.locals, key, w);
}

pub fn replace_all(t: &mut [u8], h: Held, key: Ty, w: Ty)
    requires { Roomy t.old h }
    ensures { (held t.new h ≡ all_swapped (key_of (type_of key.word)) (type_of w.word) (held t.old h)) × Outside h.at t.old t.new }
{
    swap_range(t, h.at, h.locals, key, w);
    swap_range(t, h.at + 32, h.depth, key, w);
}

// ---- Fitting, by the parents at kin.

// The k-th operand fits w.
#[tactic(auto, using(crate::specs::SlotLaws::leaves))]
pub fn fit_operand(t: &[u8], kin: Kin, h: Held, k: usize, w: Ty) -> Result<(), Refusal>
    requires { Placed t.now h }
    ensures { ruled number result ≡ verdict (claim 16 (fits (lineage t.now kin.at kin.count) (operand k (operands_of t.now h)) (type_of w.word)) ∷ []) }
{
    must(
        types::same_or_assignable(t, kin, peek(t, h, k), w),
        Refusal::Operand,
    )
}

// What a handler sees of a local: a copy of the object that is hidden is top.
#[tactic(auto, using(crate::specs::SlotLaws::leaves))]
fn veiled(a: Ty, hidden: Option<Ty>) -> Ty
    ensures { type_of result.word ≡ veil1 (is_some hidden) (hidden_key hidden) (type_of a.word) }
{
    match hidden {
        Some(key) => swapped(a, key, Ty::top()),
        None => a,
    }
}

// The n slots from a on, with copies of the hidden object as top, fit those from b on.
fn fit_range(
    t: &[u8],
    kin: Kin,
    a: usize,
    b: usize,
    n: usize,
    hidden: Option<Ty>,
) -> Result<(), Refusal>
    requires { (a + n ≤ length t.now / 4) × (b + n ≤ length t.now / 4) }
    ensures { ruled number result ≡ verdict (slots_fit (lineage t.now kin.at kin.count) (veil (is_some hidden) (hidden_key hidden) (locals_at t.now a n)) (locals_at t.now b n)) }
{
    for i in 0..n {
        let u = Ty {
            word: kit::word(t, a + i),
        };
        let v = Ty {
            word: kit::word(t, b + i),
        };
        if !types::same_or_assignable(t, kin, veiled(u, hidden), v) {
            return Err(Refusal::Operand);
        }
    }
    Ok(())
}

// The d operands from a on fit those from b on, the last first.
#[tactic(auto, using(crate::specs::SlotLaws::turns))]
fn fit_stack(t: &[u8], kin: Kin, a: usize, b: usize, d: usize) -> Result<(), Refusal>
    requires { (a + d ≤ length t.now / 4) × (b + d ≤ length t.now / 4) }
    ensures { ruled number result ≡ verdict (slots_fit (lineage t.now kin.at kin.count) (stack_at t.now a d) (stack_at t.now b d)) }
{
    for i in 0..d {
        let u = Ty {
            word: kit::word(t, a + (d - (i + 1))),
        };
        let v = Ty {
            word: kit::word(t, b + (d - (i + 1))),
        };
        if !types::same_or_assignable(t, kin, u, v) {
            return Err(Refusal::Operand);
        }
    }
    Ok(())
}

// h's locals, with copies of the hidden object as top, fit f's.
#[tactic(auto, using(crate::specs::SlotLaws::leaves))]
fn fit_locals(t: &[u8], kin: Kin, h: Held, f: Held, hidden: Option<Ty>) -> Result<(), Refusal>
    requires { Placed t.now h × Placed t.now f }
    ensures { ruled number result ≡ verdict (slots_fit (lineage t.now kin.at kin.count) (veil (is_some hidden) (hidden_key hidden) (locals_of t.now h)) (locals_of t.now f)) }
{
    let n = f.locals;
    if h.locals != n {
        return Err(Refusal::Operand);
    }
    fit_range(t, kin, h.at, f.at, n, hidden)
}

// A state fits a frame: flag, depth, slots.
pub fn fit_states(t: &[u8], kin: Kin, h: Held, f: Held) -> Result<(), Refusal>
    requires { Placed t.now h × Placed t.now f × (f.depth ≤ 32) }
    ensures { ruled number result ≡ verdict (state_fits (lineage t.now kin.at kin.count) (held t.now h) (held t.now f)) }
{
    if h.flag != f.flag {
        return Err(Refusal::Construction);
    }
    let d = f.depth;
    if h.depth != d {
        return Err(Refusal::Operand);
    }
    fit_locals(t, kin, h, f, None)?;
    fit_stack(t, kin, h.at + 32, f.at + 32, d)
}

// What a handler gets fits its frame: a clear flag, the locals with copies of the hidden object as top, and what is caught alone on the stack.
pub fn fit_caught(
    t: &[u8],
    kin: Kin,
    h: Held,
    f: Held,
    hidden: Option<Ty>,
    w: Ty,
) -> Result<(), Refusal>
    requires { Placed t.now h × Placed t.now f }
    ensures { ruled number result ≡ verdict (state_fits (lineage t.now kin.at kin.count) (state false (veil (is_some hidden) (hidden_key hidden) (locals_of t.now h)) (type_of w.word ∷ [])) (held t.now f)) }
{
    if f.flag {
        return Err(Refusal::Construction);
    }
    if f.depth != 1 {
        return Err(Refusal::Operand);
    }
    fit_locals(t, kin, h, f, hidden)?;
    must(
        types::same_or_assignable(t, kin, w, peek(t, f, 0)),
        Refusal::Operand,
    )
}
