// Where a method's instructions start, a byte an offset: 0 none does, 1 one does, 2 a `new` does. And 11.
ghost use Rattle.std.specs.Prelude.{◌≡◌, cond, ◌-◌, ◌<◌, ◌≤◌, eqb, length};
ghost use Rattle.rules.specs.Instruction.{form_ok, is_new};
ghost use Rattle.rules.specs.InstructionWords.{local_of, instr_of};
ghost use Rattle.rules.specs.Lines.{is_start, is_new_at};
ghost use Rattle.rules.specs.Sites.{Here};
ghost use Rattle.shaping.specs.Asks.{Says, mark_by};
ghost use Rattle.shaping.specs.Marks.{lines_at, Ready, Cleared, Scanned, PassesShape, Restored};

use crate::asks;
use rules::instruction::{Instr, Local};
use rules::site::Site;
use rules::{decode, opcodes};
use texts::faults::{Fault, Refusal};

fn local_ok(i: Local, n: usize) -> bool
    ensures { result ≡ form_ok n (local_of i) }
{
    match i {
        Local::Iload(j) => (j as usize) < n,
        Local::Aload(j) => (j as usize) < n,
        Local::Istore(j) => (j as usize) < n,
        Local::Astore(j) => (j as usize) < n,
        Local::Iinc(j, _) => (j as usize) < n,
    }
}

// Well formed, and its local below n.
fn form_ok(i: Instr, n: usize) -> bool
    ensures { result ≡ form_ok n (instr_of i) }
{
    match i {
        Instr::Simple(_) => true,
        Instr::Jump(_) => true,
        Instr::OnLocal(l) => local_ok(l, n),
        Instr::OnStack(_) => true,
        Instr::Leaving(_) => true,
        Instr::New(_) => true,
        Instr::Calling(_) => true,
        Instr::Illegal => false,
        Instr::Unresolved => true,
    }
}

// The mark of an instruction that starts.
fn mark_of(i: Instr) -> u8
    ensures { result ≡ cond (is_new (instr_of i)) 2 1 }
{
    match i {
        Instr::Simple(_) => 1,
        Instr::Jump(_) => 1,
        Instr::OnLocal(_) => 1,
        Instr::OnStack(_) => 1,
        Instr::Leaving(_) => 1,
        Instr::New(_) => 2,
        Instr::Calling(_) => 1,
        Instr::Illegal => 1,
        Instr::Unresolved => 1,
    }
}

fn clear_marks(t: &mut [u8], n: usize)
    requires { (n ≤ 4096) × (262144 ≤ length t.old) }
    ensures { Cleared n t.old t.new }
{
    kit::clear(&mut t[256640..256640 + n]);
}

// The mark of the instruction at o, none where its form is wrong; n locals.
fn decoded_mark(s: &[u8], t: &[u8], c: usize, code: &[u8], o: usize, n: usize) -> Option<u8>
    ensures { Says (mark_by n) s.now t.now c code.now o result }
{
    let i = decode::instruction(s, t, c, code, o);
    if form_ok(i, n) {
        return Some(mark_of(i));
    }
    None
}

// The same, by its opcode where that tells.
fn mark_at(s: &[u8], t: &[u8], c: usize, code: &[u8], o: usize, n: usize) -> Option<u8>
    requires { o < length code.now }
    ensures { Says (mark_by n) s.now t.now c code.now o result }
{
    let op = kit::byte(code, o);
    let k = asks::kind(op);
    if k == 7 {
        return decoded_mark(s, t, c, code, o, n);
    }
    if asks::needs(k, kit::byte(code, o + 1)) <= n {
        return Some(1);
    }
    None
}

// The instructions in order; the marks are clear before.
fn scan(s: &[u8], t: &mut [u8], x: Site) -> Result<(), Fault>
    requires { Here s.now t.old x × (x.codes ≡ 1) × (262144 ≤ length t.old) × Cleared (x.end - x.start) t.old t.old }
    ensures { Scanned s.now t.old x result t.new }
{
    let code = &s[x.start..x.end];
    // No `for`: an instruction's size is the step.
    let mut o = 0;
    while o < code.len() {
        let n = opcodes::size_at(code, o);
        if n == 0 {
            return Err(Fault(Refusal::Opcode, o));
        }
        if code.len() - o < n {
            return Err(Fault(Refusal::Opcode, o));
        }
        let Some(m) = mark_at(s, t, x.class, code, o, x.locals) else {
            return Err(Fault(Refusal::Opcode, o));
        };
        t[256640 + o] = m;
        o += n;
    }
    Ok(())
}

// All 11 of a method, and its marks.
pub fn mark(s: &[u8], t: &mut [u8], x: Site) -> Result<(), Fault>
    requires { Here s.now t.old x × (x.codes ≡ 1) × (262144 ≤ length t.old) }
    ensures { Scanned s.now t.old x result t.new }
{
    clear_marks(t, x.end - x.start);
    scan(s, t, x)
}

// The mark of an instruction by its opcode, where phase C has passed: then what a `new` names is resolved.
fn opcode_mark(op: usize) -> u8
    ensures { result ≡ cond (eqb op 0xbb) 2 1 }
{
    if op == 0xbb {
        return 2;
    }
    1
}

// The instructions in order, by their opcodes; the marks are clear before.
fn fill(s: &[u8], t: &mut [u8], x: Site)
    requires { Here s.now t.old x × (x.codes ≡ 1) × (262144 ≤ length t.old) × Cleared (x.end - x.start) t.old t.old × PassesShape s.now t.old x }
    ensures { Restored s.now t.old x t.new }
{
    let code = &s[x.start..x.end];
    // No `for`: an instruction's size is the step.
    let mut o = 0;
    while o < x.end - x.start {
        t[256640 + o] = opcode_mark(kit::byte(code, o));
        o += opcodes::size_at(code, o);
    }
}

// The marks of a method that phase C has passed: no form is in doubt.
pub fn restore(s: &[u8], t: &mut [u8], x: Site)
    requires { Here s.now t.old x × (x.codes ≡ 1) × (262144 ≤ length t.old) × PassesShape s.now t.old x }
    ensures { Restored s.now t.old x t.new }
{
    clear_marks(t, x.end - x.start);
    fill(s, t, x);
}

// Whether an instruction starts at o; whether a `new` does.
pub fn is_start(s: &[u8], t: &[u8], x: Site, o: usize) -> bool
    requires { Ready s.now t.now x }
    ensures { result ≡ is_start (lines_at s.now t.now x) o }
{
    if x.end - x.start <= o {
        return false;
    }
    kit::byte(t, 256640 + o) != 0
}

pub fn is_new_at(s: &[u8], t: &[u8], x: Site, o: usize) -> bool
    requires { Ready s.now t.now x }
    ensures { result ≡ is_new_at (lines_at s.now t.now x) o }
{
    if x.end - x.start <= o {
        return false;
    }
    kit::byte(t, 256640 + o) == 2
}
