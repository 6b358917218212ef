// What a form takes and leaves, and what is asked and done where nothing else counts.
ghost use Rattle.std.specs.Prelude.{◌≡◌, ◌≤◌, length};
ghost use Rattle.kit.specs.Claims.{ruled, verdict};
ghost use Rattle.texts.specs.Faults.{number};
ghost use Rattle.rules.specs.Ancestry.{lineage};
ghost use Rattle.rules.specs.Slots.{operands_of, held, Placed, Roomy, Outside};
ghost use Rattle.rules.specs.Forms.{takes_of, gives_of, plain_takes, plain_gives, branch_takes, asked, form_claims, turned, Kept};

use crate::instruction::{Branch, Plain};
use crate::slots::{Held, cut, fit_operand, need, put, room};
use crate::types::{Kin, Ty};
use texts::faults::Refusal;

// The operands, top first; top stands for any.
#[derive(Clone, Copy)]
pub enum Takes {
    Zero,
    One(Ty),
    Two(Ty, Ty),
    Three(Ty, Ty, Ty),
}

pub fn count(k: Takes) -> usize
    ensures { result ≡ length (takes_of k) }
{
    match k {
        Takes::Zero => 0,
        Takes::One(_) => 1,
        Takes::Two(_, _) => 2,
        Takes::Three(_, _, _) => 3,
    }
}

#[tactic(auto, using(crate::specs::Forms::shapes))]
pub fn branch_takes(i: Branch) -> Takes
    ensures { takes_of result ≡ branch_takes i }
{
    match i {
        Branch::Goto(_) => Takes::Zero,
        Branch::Ifint(_, _) => Takes::One(Ty::int()),
        Branch::Ificmp(_, _) => Takes::Two(Ty::int(), Ty::int()),
        Branch::Ifacmp(_, _) => Takes::Two(Ty::class(0), Ty::class(0)),
        Branch::Ifnull(_, _) => Takes::One(Ty::class(0)),
    }
}

#[tactic(auto, using(crate::specs::Forms::shapes))]
pub fn plain_takes(i: Plain) -> Takes
    ensures { takes_of result ≡ plain_takes i }
{
    match i {
        Plain::Nop => Takes::Zero,
        Plain::Aconstnull => Takes::Zero,
        Plain::Pop => Takes::One(Ty::top()),
        Plain::Ineg => Takes::One(Ty::int()),
        Plain::Iaload => Takes::Two(Ty::int(), Ty::array(65535, 0)),
        Plain::Iastore => Takes::Three(Ty::int(), Ty::int(), Ty::array(65535, 0)),
        Plain::Aastore => Takes::Three(Ty::class(0), Ty::int(), Ty::array(0, 0)),
        Plain::Iconst(_) => Takes::Zero,
        Plain::Ibin(_) => Takes::Two(Ty::int(), Ty::int()),
        Plain::Idiv(_) => Takes::Two(Ty::int(), Ty::int()),
        Plain::Newarray(_) => Takes::One(Ty::int()),
        Plain::Checkcast(_) => Takes::One(Ty::class(0)),
        Plain::Instanceof(_) => Takes::One(Ty::class(0)),
        Plain::Getfield(f) => Takes::One(Ty::class(f.named)),
        Plain::Putfield(f) => Takes::Two(f.of.described(), Ty::class(f.named)),
    }
}

#[tactic(auto, using(crate::specs::Forms::shapes))]
pub fn plain_gives(i: Plain) -> Option<Ty>
    ensures { gives_of result ≡ plain_gives i }
{
    match i {
        Plain::Nop => None,
        Plain::Aconstnull => Some(Ty::null()),
        Plain::Pop => None,
        Plain::Ineg => Some(Ty::int()),
        Plain::Iaload => Some(Ty::int()),
        Plain::Iastore => None,
        Plain::Aastore => None,
        Plain::Iconst(_) => Some(Ty::int()),
        Plain::Ibin(_) => Some(Ty::int()),
        Plain::Idiv(_) => Some(Ty::int()),
        Plain::Newarray(a) => Some(a.as_array()),
        Plain::Checkcast(a) => Some(a.as_reference()),
        Plain::Instanceof(_) => Some(Ty::int()),
        Plain::Getfield(f) => Some(f.of.described()),
        Plain::Putfield(_) => None,
    }
}

// The operands are there and fit, from the top down.
pub fn ask_takes(t: &[u8], kin: Kin, h: Held, k: Takes) -> Result<(), Refusal>
    requires { Placed t.now h }
    ensures { ruled number result ≡ verdict (asked (lineage t.now kin.at kin.count) (operands_of t.now h) (takes_of k)) }
{
    match k {
        Takes::Zero => Ok(()),
        Takes::One(a) => {
            need(h, 1)?;
            fit_operand(t, kin, h, 0, a)
        }
        Takes::Two(a, b) => {
            need(h, 2)?;
            fit_operand(t, kin, h, 0, a)?;
            fit_operand(t, kin, h, 1, b)
        }
        Takes::Three(a, b, c) => {
            need(h, 3)?;
            fit_operand(t, kin, h, 0, a)?;
            fit_operand(t, kin, h, 1, b)?;
            fit_operand(t, kin, h, 2, c)
        }
    }
}

// How many operands come.
pub fn given(g: Option<Ty>) -> usize
    ensures { result ≡ length (gives_of g) }
{
    match g {
        None => 0,
        Some(_) => 1,
    }
}

// All that is asked of a form that takes k and leaves g.
pub fn ask_form(
    t: &[u8],
    kin: Kin,
    h: Held,
    k: Takes,
    g: Option<Ty>,
    most: usize,
) -> Result<(), Refusal>
    requires { Placed t.now h }
    ensures { ruled number result ≡ verdict (form_claims (lineage t.now kin.at kin.count) most (takes_of k) (gives_of g) (held t.now h)) }
{
    ask_takes(t, kin, h, k)?;
    room(h, count(k), given(g), most)
}

// k operands go, g comes.
pub fn leave_form(t: &mut [u8], h: Held, k: usize, g: Option<Ty>) -> Held
    requires { Roomy t.old h × (h.depth ≤ 32) }
    ensures { Kept h result × (held t.new result ≡ turned k (gives_of g) (held t.old h)) × Outside h.at t.old t.new }
{
    match g {
        None => cut(h, k),
        Some(w) => put(t, h, k, w),
    }
}
