// Every instruction: what is asked of it, the state that it leaves, and whether handlers see less.
ghost use Rattle.std.specs.Prelude.{is_some, List, ◌≡◌, [], ◌∷◌, ◌+◌, ◌≤◌, ◌/◌, length};
ghost use Rattle.kit.specs.Claims.{ruled, verdict};
ghost use Rattle.texts.specs.Faults.{number};
ghost use Rattle.rules.specs.Instruction.{targets, falls};
ghost use Rattle.rules.specs.InstructionWords.{branch_of};
ghost use Rattle.rules.specs.Walk.{branch_claims};
ghost use Rattle.rules.specs.Ancestry.{lineage};
ghost use Rattle.rules.specs.Types.{Ty as Meant};
ghost use Rattle.rules.specs.States.{operand};
ghost use Rattle.rules.specs.Rule.{key_of};
ghost use Rattle.rules.specs.Slots.{held, operands_of, veil, hidden_key, Placed, Roomy, Outside};
ghost use Rattle.rules.specs.Forms.{Kept};
ghost use Rattle.rules.specs.FrameRows.{frames_of, Laid};
ghost use Rattle.rules.specs.StepClaims.{targets_of, falls_of};
ghost use Rattle.rules.specs.Known.{facts_of, instr_claims, instr_after, call_hides, hides};

use crate::calls::{Known, ask_any, leave_any};
use crate::frames::{Rows, into_frame};
use crate::instruction::{Branch, Call, Instr};
use crate::slots::{Held, cut, peek};
use crate::steps::{
    ask_branch, ask_leave, ask_local, ask_new, ask_plain, ask_stack, leave_branch, leave_local,
    leave_new, leave_plain, leave_stack,
};
use crate::types::{Kin, Ty};
use texts::faults::Refusal;

// All that is asked of the instruction at o: operands, its own claims, room.
#[tactic(auto, using(kit::specs::Claims::claim_fails), unfolding(crate::specs::Known::instr_claims))]
pub fn ask(
    t: &[u8],
    kin: Kin,
    h: Held,
    i: Instr,
    k: Known,
    o: u16,
    most: usize,
) -> Result<(), Refusal>
    requires { Placed t.now h × (k.args.at + k.args.count ≤ length t.now / 4) }
    ensures { ruled number result ≡ verdict (instr_claims (lineage t.now kin.at kin.count) most (facts_of t.now k) o i (held t.now h)) }
{
    let back = k.back;
    match i {
        Instr::Simple(j) => ask_plain(t, kin, h, j, most),
        Instr::Jump(j) => ask_branch(t, kin, h, j, most),
        Instr::OnLocal(j) => ask_local(t, kin, h, j, most),
        Instr::OnStack(j) => ask_stack(t, kin, h, j, most),
        Instr::Leaving(j) => ask_leave(t, kin, h, j, back, most),
        Instr::New(_) => ask_new(t, kin, h, o, most),
        Instr::Calling(j) => ask_any(t, kin, h, j, k, most),
        Instr::Illegal => Err(Refusal::Opcode),
        Instr::Unresolved => Err(Refusal::Named),
    }
}

// The state that it leaves.
#[tactic(auto, using(crate::specs::FormLaws::kept_moved, crate::specs::GroupLaws::kept_same, crate::specs::SlotLaws::outside_none), unfolding(crate::specs::Known::instr_after))]
pub fn leave(t: &mut [u8], h: Held, i: Instr, k: Known, o: u16) -> Held
    requires { Roomy t.old h × (h.depth ≤ 32) × (k.args.at + k.args.count ≤ length t.old / 4) }
    ensures { Kept h result × (held t.new result ≡ instr_after (facts_of t.old k) o i (held t.old h)) × Outside h.at t.old t.new }
{
    match i {
        Instr::Simple(j) => leave_plain(t, h, j),
        Instr::Jump(j) => leave_branch(t, h, j),
        Instr::OnLocal(j) => leave_local(t, h, j),
        Instr::OnStack(j) => leave_stack(t, h, j),
        Instr::Leaving(_) => cut(h, h.depth),
        Instr::New(_) => leave_new(t, h, o),
        Instr::Calling(j) => leave_any(t, h, j, k),
        Instr::Illegal => h,
        Instr::Unresolved => h,
    }
}

fn hides_call(c: Call) -> bool
    ensures { result ≡ call_hides c }
{
    match c {
        Call::Virtual(_) => false,
        Call::Special(_) => true,
        Call::Static(_) => false,
    }
}

// Whether it hides its receiver from handlers.
#[tactic(auto, unfolding(crate::specs::Known::hides))]
pub fn hides(i: Instr) -> bool
    ensures { result ≡ hides i }
{
    match i {
        Instr::Simple(_) => false,
        Instr::Jump(_) => false,
        Instr::OnLocal(_) => false,
        Instr::OnStack(_) => false,
        Instr::Leaving(_) => false,
        Instr::New(_) => false,
        Instr::Calling(j) => hides_call(j),
        Instr::Illegal => false,
        Instr::Unresolved => false,
    }
}

// The object whose copies handlers do not see: the receiver of a constructor's call, below its n arguments.
pub fn hidden(t: &[u8], h: Held, i: Instr, n: usize) -> Option<Ty>
    requires { Placed t.now h }
    ensures { (l : List Meant) → veil (is_some result) (hidden_key result) l ≡ veil (hides i) (key_of (operand n (operands_of t.now h))) l }
{
    if hides(i) {
        return Some(peek(t, h, n));
    }
    None
}

// ---- Where control goes.

fn falls_branch(b: Branch) -> bool
    ensures { result ≡ falls (branch_of b) }
{
    match b {
        Branch::Goto(_) => false,
        Branch::Ifint(_, _) => true,
        Branch::Ificmp(_, _) => true,
        Branch::Ifacmp(_, _) => true,
        Branch::Ifnull(_, _) => true,
    }
}

// Whether control may fall to the next instruction.
#[tactic(auto, unfolding(crate::specs::StepClaims::falls_of))]
pub fn falls_on(i: Instr) -> bool
    ensures { result ≡ falls_of i }
{
    match i {
        Instr::Simple(_) => true,
        Instr::Jump(j) => falls_branch(j),
        Instr::OnLocal(_) => true,
        Instr::OnStack(_) => true,
        Instr::Leaving(_) => false,
        Instr::New(_) => true,
        Instr::Calling(_) => true,
        Instr::Illegal => true,
        Instr::Unresolved => true,
    }
}

fn target(b: Branch) -> u16
    ensures { result ∷ [] ≡ targets (branch_of b) }
{
    match b {
        Branch::Goto(o) => o,
        Branch::Ifint(_, o) => o,
        Branch::Ificmp(_, o) => o,
        Branch::Ifacmp(_, o) => o,
        Branch::Ifnull(_, o) => o,
    }
}

// The state after goes to the frame of its target, where it has one.
#[tactic(auto, using(crate::specs::StepClaims::no_jump, crate::specs::StepClaims::jump_branch), unfolding(crate::specs::StepClaims::targets_of))]
pub fn jump(t: &[u8], kin: Kin, f: Rows, h: Held, i: Instr) -> Result<(), Refusal>
    requires { Laid t.now f × Placed t.now h }
    ensures { ruled number result ≡ verdict (branch_claims (lineage t.now kin.at kin.count) (frames_of t.now f) (held t.now h) (targets_of i)) }
{
    match i {
        Instr::Simple(_) => Ok(()),
        Instr::Jump(j) => into_frame(t, kin, f, h, target(j) as usize),
        Instr::OnLocal(_) => Ok(()),
        Instr::OnStack(_) => Ok(()),
        Instr::Leaving(_) => Ok(()),
        Instr::New(_) => Ok(()),
        Instr::Calling(_) => Ok(()),
        Instr::Illegal => Ok(()),
        Instr::Unresolved => Ok(()),
    }
}
