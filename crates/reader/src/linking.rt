// Linking's pass over members: per class fields, then methods; each method's types are written as it passes.
ghost use Rattle.std.specs.Prelude.{◌≡◌, true, false, ◌<◌};
ghost use Rattle.reader.specs.Program.{program_of};
ghost use Rattle.reader.specs.Linked.{files_in};
ghost use Rattle.reader.specs.MemberRows.{block_at, row_count};
ghost use Rattle.reader.specs.MemberClaims.{member_known};
ghost use Rattle.reader.specs.MethodTypes.{Ready};
ghost use Rattle.reader.specs.MemberPass.{MethodKnown, MemberRuled, SectionRuled, ClassRuled, MembersRuled};

use crate::link::Refused;
use crate::{overriding, signature, types};
use texts::faults::Refusal;

fn field_known(s: &[u8], t: &[u8], n: usize, c: usize, j: usize) -> bool
    requires { Ready s.now n t.now × (c < n) × (j < row_count (block_at t.now c) false) }
    ensures { result ≡ member_known (program_of (files_in s.now n t.now)) c false j }
{
    let x = signature::member_descriptor(s, t, c, false, j);
    types::is_known(n, types::field_type(s, t, n, x))
}

// All classes of its type known, and static as the one above is.
fn method_known(s: &[u8], t: &mut [u8], n: usize, c: usize, j: usize) -> bool
    requires { Ready s.now n t.old × (c < n) × (j < row_count (block_at t.old c) true) }
    ensures { MethodKnown s.now n c j result t.old t.new }
{
    let x = signature::member_descriptor(s, t, c, true, j);
    if types::describe(s, t, n, x, 64 * c + j) {
        return overriding::agrees(s, t, n, c, j);
    }
    false
}

// Whether a member is there once, and everything that it names is known.
fn member(s: &[u8], t: &mut [u8], n: usize, c: usize, method: bool, j: usize) -> Result<(), Refusal>
    requires { Ready s.now n t.old × (c < n) × (j < row_count (block_at t.old c) method) }
    ensures { MemberRuled s.now n c method j result t.old t.new }
{
    if !signature::is_first(s, t, c, method, j) {
        return Err(Refusal::Twice);
    }
    if method {
        if method_known(s, t, n, c, j) {
            return Ok(());
        }
        return Err(Refusal::Missing);
    }
    if field_known(s, t, n, c, j) {
        return Ok(());
    }
    Err(Refusal::Missing)
}

// The fields or the methods of class c.
fn section(s: &[u8], t: &mut [u8], n: usize, c: usize, method: bool) -> Result<(), Refused>
    requires { Ready s.now n t.old × (c < n) }
    ensures { SectionRuled s.now n c method result t.old t.new }
{
    let k = signature::member_count(t, c, method);
    for j in 0..k {
        if let Err(refusal) = member(s, t, n, c, method, j) {
            return Err(Refused {
                refusal,
                class: c,
                place: signature::member_start(t, c, method, j),
            });
        }
    }
    Ok(())
}

fn class_members(s: &[u8], t: &mut [u8], n: usize, c: usize) -> Result<(), Refused>
    requires { Ready s.now n t.old × (c < n) }
    ensures { ClassRuled s.now n c result t.old t.new }
{
    section(s, t, n, c, false)?;
    section(s, t, n, c, true)
}

// The members of all classes.
pub fn members(s: &[u8], t: &mut [u8], n: usize) -> Result<(), Refused>
    requires { Ready s.now n t.old }
    ensures { MembersRuled s.now n result t.old t.new }
{
    for c in 0..n {
        class_members(s, t, n, c)?;
    }
    Ok(())
}
