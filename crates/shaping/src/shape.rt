// Phase C of one method: 10, all 11, then 12 and 13 in order, then the exception table.
ghost use Rattle.std.specs.Prelude.{◌≡◌, ◌+◌, ◌*◌, ◌^◌, ◌%◌, ◌<◌, ◌≤◌, cond, length, get_or};
ghost use Rattle.reader.specs.TypeCodes.{params_in};
ghost use Rattle.kit.specs.Claims.{verdict};
ghost use Rattle.reader.specs.BuiltIns.{first_class};
ghost use Rattle.rules.specs.Instruction.{targets, resolved};
ghost use Rattle.rules.specs.InstructionWords.{branch_of, instr_of};
ghost use Rattle.rules.specs.Shape.{all_starts, reference_claims, range_ok, catch_ok, table_claims};
ghost use Rattle.rules.specs.Sites.{front, program_at, method_at, Here};
ghost use Rattle.shaping.specs.Asks.{Says, refer_by, name_fault};
ghost use Rattle.texts.specs.Faults.{refused};
ghost use Rattle.shaping.specs.Marks.{ruled_as, lines_at, Ready};
ghost use Rattle.shaping.specs.Shaping.{table_of, Begun, end_claims, Shaped};
ghost use Rattle.rules.specs.Handlers.{entry_at, catch_in};

use crate::{asks, marks};
use reader::types as methods;
use rules::decode::Bytes;
use rules::instruction::{Branch, Instr};
use rules::site::Site;
use rules::types::{self, Kin};
use rules::{decode, opcodes};
use texts::faults::{Fault, Refusal};
use texts::items;

fn branch_leads(s: &[u8], t: &[u8], x: Site, i: Branch) -> bool
    requires { Ready s.now t.now x }
    ensures { result ≡ all_starts (lines_at s.now t.now x) (targets (branch_of i)) }
{
    match i {
        Branch::Goto(l) => marks::is_start(s, t, x, l as usize),
        Branch::Ifint(_, l) => marks::is_start(s, t, x, l as usize),
        Branch::Ificmp(_, l) => marks::is_start(s, t, x, l as usize),
        Branch::Ifacmp(_, l) => marks::is_start(s, t, x, l as usize),
        Branch::Ifnull(_, l) => marks::is_start(s, t, x, l as usize),
    }
}

// Every target is an instruction's start.
fn leads(s: &[u8], t: &[u8], x: Site, i: Instr) -> bool
    requires { Ready s.now t.now x }
    ensures { result ≡ all_starts (lines_at s.now t.now x) (targets (instr_of i)) }
{
    match i {
        Instr::Simple(_) => true,
        Instr::Jump(b) => branch_leads(s, t, x, b),
        Instr::OnLocal(_) => true,
        Instr::OnStack(_) => true,
        Instr::Leaving(_) => true,
        Instr::New(_) => true,
        Instr::Calling(_) => true,
        Instr::Illegal => true,
        Instr::Unresolved => true,
    }
}

// What it names was found.
fn is_resolved(i: Instr) -> bool
    ensures { result ≡ resolved (instr_of i) }
{
    match i {
        Instr::Simple(_) => true,
        Instr::Jump(_) => true,
        Instr::OnLocal(_) => true,
        Instr::OnStack(_) => true,
        Instr::Leaving(_) => true,
        Instr::New(_) => true,
        Instr::Calling(_) => true,
        Instr::Illegal => true,
        Instr::Unresolved => false,
    }
}

// 12 or 13 where the instruction at o has it, 12 before 13.
fn decoded_fault(s: &[u8], t: &[u8], x: Site, code: &[u8], o: usize) -> Option<Refusal>
    requires { Ready s.now t.now x }
    ensures { Says (refer_by (lines_at s.now t.now x)) s.now t.now x.class code.now o (refused result) }
{
    let i = decode::instruction(s, t, x.class, code, o);
    if !leads(s, t, x, i) {
        return Some(Refusal::Target);
    }
    if is_resolved(i) {
        return None;
    }
    Some(Refusal::Named)
}

// Where the branch at o leads.
fn target_at(code: &[u8], o: usize) -> u16
    requires { o < length code.now }
    ensures { result ≡ (o + (get_or code.now (o + 1) 0 * 256 + get_or code.now (o + 2) 0)) % 2 ^ 16 }
{
    let first = kit::byte(code, o + 1) as u8;
    let second = kit::byte(code, o + 2) as u8;
    decode::target(Bytes {
        op: 0,
        first,
        second,
        at: o,
    })
}

// 13 where the instruction of kind k at o names what is not of that kind.
fn name_fault(t: &[u8], c: usize, code: &[u8], o: usize, k: u64) -> Option<Refusal>
    requires { o < length code.now }
    ensures { refused result ≡ name_fault t.now c code.now o k }
{
    let a = kit::byte(code, o + 1);
    let b = kit::byte(code, o + 2);
    let w = decode::named_word(t, c, asks::entry(k, a, b));
    if asks::sort(w) == k {
        return None;
    }
    Some(Refusal::Named)
}

// The same as decoded_fault, by the opcode where that tells.
fn fault_at(s: &[u8], t: &[u8], x: Site, code: &[u8], o: usize) -> Option<Refusal>
    requires { Ready s.now t.now x × (o < length code.now) }
    ensures { Says (refer_by (lines_at s.now t.now x)) s.now t.now x.class code.now o (refused result) }
{
    let op = kit::byte(code, o);
    let k = asks::kind(op);
    if k < 6 {
        return None;
    }
    if k == 6 {
        let l = target_at(code, o);
        if marks::is_start(s, t, x, l as usize) {
            return None;
        }
        return Some(Refusal::Target);
    }
    if k == 7 {
        return decoded_fault(s, t, x, code, o);
    }
    name_fault(t, x.class, code, o, k)
}

// 12 and 13 of the instructions in order.
fn references(s: &[u8], t: &[u8], x: Site) -> Result<(), Fault>
    requires { Ready s.now t.now x }
    ensures { ruled_as result ≡ verdict (reference_claims (lines_at s.now t.now x) (lines_at s.now t.now x)) }
{
    let code = &s[x.start..x.end];
    // No `for`: an instruction's size is the step.
    let mut o = 0;
    while o < code.len() {
        let n = opcodes::size_at(code, o);
        if let Some(refusal) = fault_at(s, t, x, code, o) {
            return Err(Fault(refusal, o));
        }
        if n == 0 {
            return Ok(());
        }
        o += n;
    }
    Ok(())
}

// The class that a handler with this catch_type catches; as many as there are where it names none. No Option: the number is tested in any case.
fn catch_class(t: &[u8], x: Site, c: usize) -> u32
    requires { x.classes ≤ 16 }
    ensures { result ≡ catch_in t.now x.class (first_class + x.classes) c }
{
    if c == 0 {
        return 1;
    }
    let w = decode::named_word(t, x.class, c);
    if w % 64 == 2 {
        return w / 64 % 32;
    }
    11 + x.classes as u32
}

// A handler's range and target, at q.
fn range_ok(s: &[u8], t: &[u8], x: Site, q: usize) -> bool
    requires { Ready s.now t.now x × (q + 8 ≤ 2 ^ 35) }
    ensures { result ≡ range_ok (method_at s.now (front t.now) x) (lines_at s.now t.now x) (entry_at s.now q) }
{
    let from = items::u2_at(s, q);
    let to = items::u2_at(s, q + 2);
    if !marks::is_start(s, t, x, from) {
        return false;
    }
    if !marks::is_start(s, t, x, items::u2_at(s, q + 4)) {
        return false;
    }
    if marks::is_start(s, t, x, to) {
        return from < to;
    }
    if to == x.end - x.start {
        return from < to;
    }
    false
}

// It catches a class that can be thrown.
fn catch_ok(s: &[u8], t: &[u8], x: Site, q: usize) -> bool
    requires { Ready s.now t.now x × (q + 8 ≤ 2 ^ 35) }
    ensures { result ≡ catch_ok (program_at s.now (front t.now) x) (method_at s.now (front t.now) x) (entry_at s.now q) }
{
    let c = catch_class(t, x, items::u2_at(s, q + 6));
    if (c as usize) < 11 + x.classes {
        return types::is_below(
            t,
            Kin {
                at: 25728,
                count: 11 + x.classes,
            },
            c,
            1,
        );
    }
    false
}

// 12 and 13 of the exception table.
fn handlers(s: &[u8], t: &[u8], x: Site) -> Result<(), Fault>
    requires { Ready s.now t.now x }
    ensures { ruled_as result ≡ verdict (table_claims (program_at s.now (front t.now) x) (method_at s.now (front t.now) x) (lines_at s.now t.now x) (table_of s.now x)) }
{
    for k in 0..x.entries {
        let q = x.table + 8 * k;
        if !range_ok(s, t, x, q) {
            return Err(Fault(Refusal::Target, items::u2_at(s, q)));
        }
        if !catch_ok(s, t, x, q) {
            return Err(Fault(Refusal::Named, items::u2_at(s, q)));
        }
    }
    Ok(())
}

// How many locals the parameters take, with the receiver.
fn parameters(t: &[u8], x: Site) -> usize
    requires { (x.class < 16) × (x.method < 64) }
    ensures { result ≡ length (params_in t.now (64 * x.class + x.method)) + cond x.fixed 0 1 }
{
    let n = methods::param_count(t, 64 * x.class + x.method);
    if x.fixed {
        return n;
    }
    n + 1
}

// 10, then 11.
fn begun(s: &[u8], t: &mut [u8], x: Site) -> Result<(), Fault>
    requires { Here s.now t.old x × (262144 ≤ length t.old) }
    ensures { Begun s.now t.old x result t.new }
{
    if x.codes != 1 {
        return Err(Fault(Refusal::CodeShape, 0));
    }
    if 1 < x.tables {
        return Err(Fault(Refusal::CodeShape, 0));
    }
    if x.locals < parameters(t, x) {
        return Err(Fault(Refusal::CodeShape, 0));
    }
    marks::mark(s, t, x)
}

// What follows the marks.
fn ended(s: &[u8], t: &[u8], x: Site) -> Result<(), Fault>
    requires { Ready s.now t.now x }
    ensures { ruled_as result ≡ verdict (end_claims s.now t.now x) }
{
    references(s, t, x)?;
    handlers(s, t, x)
}

// Phase C of a method; where it passes, the scratch has the method's marks.
pub fn shape_of(s: &[u8], t: &mut [u8], x: Site) -> Result<(), Fault>
    requires { Here s.now t.old x × (262144 ≤ length t.old) }
    ensures { Shaped s.now t.old x result t.new }
{
    begun(s, t, x)?;
    ended(s, t, x)
}
