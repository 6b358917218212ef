// The walk over a method's code: one instruction after another, by offset.
ghost use Rattle.std.specs.Prelude.{◌≡◌, true, false, ◌+◌, ◌*◌, ◌^◌, ◌<◌, ◌≤◌, ◌/◌, IfOk, is_some, length, get_or};
ghost use Rattle.std.proofs.Math.Option.{none};
ghost use Rattle.kit.specs.Claims.{ruled, verdict};
ghost use Rattle.texts.specs.Faults.{number};
ghost use Rattle.classfiles.specs.Attributes.{handlers_from};
ghost use Rattle.reader.specs.BuiltIns.{first_class};
ghost use Rattle.rules.specs.Walk.{frame_at, meets, merged};
ghost use Rattle.rules.specs.Ancestry.{lineage};
ghost use Rattle.rules.specs.Rule.{key_of};
ghost use Rattle.rules.specs.TypeWords.{type_of};
ghost use Rattle.rules.specs.Slots.{held, locals_of, veil, hidden_key, Placed, Roomy, Outside};
ghost use Rattle.rules.specs.FrameRows.{frames_of, Laid};
ghost use Rattle.rules.specs.Handlers.{catch_in, handlers_by};
ghost use Rattle.rules.specs.Sites.{site_code};
ghost use Rattle.rules.specs.Known.{facts_of, instr_after};
ghost use Rattle.rules.specs.StepClaims.{step_by, Going};
ghost use Rattle.rules.specs.Loads.{current};
ghost use Rattle.verifier.specs.Lineup.{Walking, Entered, LineDone};
ghost use Rattle.verifier.specs.Ahead.{Handled, Quiet, Unmet, Scouted};
ghost use Rattle.verifier.specs.Quick.{Open, steady};
ghost use Rattle.verifier.specs.Walks.{Ended, next_at, Walked};
ghost use Rattle.verifier.specs.Legs.{Stretched, LegDone};
ghost use Rattle.verifier.specs.MethodWalks.{Placeable, MethodWalked};

use crate::ahead::{Ahead, scout};
use crate::callees::known;
use crate::quick::{Went, keeps_locals, quick};
use crate::start::start;
use rules::calls::Known;
use rules::decode;
use rules::dispatch::{ask, falls_on, hidden, jump, leave};
use rules::frames::{Rows, find, load};
use rules::handlers::all_handlers;
use rules::instruction::Instr;
use rules::opcodes::size_at;
use rules::site::Site;
use rules::slots::{Held, fit_states, must};
use rules::types::{Kin, Ty};
use texts::faults::{Fault, Refusal};

// What the handlers ask; nothing where they have been asked and nothing is hidden from them.
fn handlers_left(
    s: &[u8],
    t: &[u8],
    x: Site,
    kin: Kin,
    f: Rows,
    h: Held,
    hidden: Option<Ty>,
    o: usize,
    asked: bool,
) -> Result<(), Refusal>
    requires { Handled s.now t.now x kin f h o asked × (x.classes ≤ 16) × Laid t.now f × Placed t.now h × (x.table ≤ 2 ^ 63) × (x.entries ≤ 32) }
    ensures { ruled number result ≡ verdict (handlers_by (lineage t.now kin.at kin.count) (catch_in t.now x.class (first_class + x.classes)) (frames_of t.now f) o h.flag (veil (is_some hidden) (hidden_key hidden) (locals_of t.now h)) (handlers_from s.now x.entries x.table)) }
{
    if asked {
        if hidden.is_none() {
            return Ok(());
        }
    }
    all_handlers(s, t, x, kin, f, h, hidden, o)
}

// All that is asked of the instruction i at o in the state h, and the state after it.
fn one_step(
    s: &[u8],
    t: &mut [u8],
    x: Site,
    kin: Kin,
    f: Rows,
    h: Held,
    i: Instr,
    k: Known,
    o: u16,
    asked: bool,
) -> Result<Held, Refusal>
    requires { Roomy t.old h × (h.depth ≤ 32) × (k.args.at + k.args.count ≤ length t.old / 4) × Laid t.old f × (kin.at + kin.count ≤ h.at) × (f.at + 68 * f.count ≤ h.at) × (x.classes ≤ 16) × (x.stack ≤ 32) × (x.table ≤ 2 ^ 63) × (x.entries ≤ 32) × Handled s.now t.old x kin f h o asked }
    ensures says { ruled number result ≡ verdict (step_by (lineage t.old kin.at kin.count) (catch_in t.old x.class (first_class + x.classes)) (frames_of t.old f) (handlers_from s.now x.entries x.table) x.stack (facts_of t.old k) o i (held t.old h)) }
    ensures leaves { IfOk result (λ g. held t.new g ≡ instr_after (facts_of t.old k) o i (held t.old h)) }
    ensures keeps { IfOk result (λ g. Going h g) × Outside h.at t.old t.new }
{
    ask(t, kin, h, i, k, o, x.stack)?;
    let args = k.args;
    let unseen = hidden(t, h, i, args.count);
    handlers_left(s, t, x, kin, f, h, unseen, o as usize, asked)?;
    let g = leave(t, h, i, k, o);
    jump(t, kin, f, g, i)?;
    Ok(g)
}

// A present state must fit a frame standing at o, which replaces it; neither is 17.
fn enter(t: &mut [u8], kin: Kin, f: Rows, live: bool, h: Held, o: usize) -> Result<Held, Refusal>
    requires { Roomy t.old h × (h.depth ≤ 32) × Laid t.old f × (f.locals ≡ h.locals) × (f.at + 68 * f.count + 68 ≤ h.at) }
    ensures says { ruled number result ≡ verdict (meets (lineage t.old kin.at kin.count) (current live (held t.old h)) (frame_at (frames_of t.old f) o)) }
    ensures leaves { IfOk result (λ g. held t.new g ≡ merged (current live (held t.old h)) (frame_at (frames_of t.old f) o)) }
    ensures keeps { IfOk result (λ g. Going h g) × Outside h.at t.old t.new }
{
    let Some(g) = find(t, f, o) else {
        must(live, Refusal::Flow)?;
        return Ok(h);
    };
    if live {
        fit_states(t, kin, h, g)?;
        return Ok(load(t, g, h.at));
    }
    Ok(load(t, g, h.at))
}

// What a line leaves: whether a state goes on, and where it stands. No Option: the place is there where no state goes on, for the next frame's.
#[derive(Clone, Copy)]
pub struct Turn {
    pub live: bool,
    pub held: Held,
}

// The instruction at o in the state h that it finds there, whatever it is.
fn one_line(
    s: &[u8],
    t: &mut [u8],
    x: Site,
    kin: Kin,
    f: Rows,
    h: Held,
    o: u16,
    asked: bool,
) -> Result<Turn, Refusal>
    requires { Walking s.now t.old x kin f h × Entered t.old f h o × Handled s.now t.old x kin f h o asked }
    ensures { LineDone s.now t.old t.new x f true h o result }
{
    let from = x.start;
    let to = x.end;
    let code = &s[from..to];
    let i = decode::instruction(s, t, x.class, code, o as usize);
    let k = known(s, t, x, h, i);
    let held = one_step(s, t, x, kin, f, h, i, k, o, asked)?;
    Ok(Turn {
        live: falls_on(i),
        held,
    })
}

// The same site, built anew where it is handed on out of line: a copy by assignment takes the loop's own out of registers.
fn anew(x: Site) -> Site
    ensures { result ≡ x }
{
    Site {
        classes: x.classes,
        class: x.class,
        method: x.method,
        codes: x.codes,
        stack: x.stack,
        locals: x.locals,
        start: x.start,
        end: x.end,
        table: x.table,
        entries: x.entries,
        tables: x.tables,
        frames: x.frames,
        last: x.last,
        constructor: x.constructor,
        fixed: x.fixed,
    }
}

// As `enter`, without looking for a frame where none stands at o.
fn arrive(
    t: &mut [u8],
    kin: Kin,
    f: Rows,
    live: bool,
    h: Held,
    o: usize,
    clear: bool,
) -> Result<Held, Refusal>
    requires { Roomy t.old h × (h.depth ≤ 32) × Laid t.old f × (f.locals ≡ h.locals) × (f.at + 68 * f.count + 68 ≤ h.at) × (clear ≡ true → frame_at (frames_of t.old f) o ≡ none) }
    ensures says { ruled number result ≡ verdict (meets (lineage t.old kin.at kin.count) (current live (held t.old h)) (frame_at (frames_of t.old f) o)) }
    ensures leaves { IfOk result (λ g. held t.new g ≡ merged (current live (held t.old h)) (frame_at (frames_of t.old f) o)) }
    ensures keeps { IfOk result (λ g. Going h g) × Outside h.at t.old t.new }
{
    if live {
        if clear {
            return Ok(h);
        }
    }
    enter(t, kin, f, live, h, o)
}

// The handlers ask nothing that fails, whatever is not a constructor's call stands at o.
fn calm(s: &[u8], t: &[u8], x: Site, kin: Kin, f: Rows, h: Held, o: usize, quiet: usize) -> bool
    requires { Walking s.now t.now x kin f h × Quiet s.now x o quiet }
    ensures { Handled s.now t.now x kin f h o result }
{
    if o < quiet {
        return true;
    }
    all_handlers(s, t, anew(x), kin, f, h, None, o).is_ok()
}

// A state at the code's end is 17 there.
fn ended(live: bool, end: usize) -> Result<(), Fault>
    ensures { Ended live end result }
{
    if live {
        return Err(Fault(Refusal::Flow, end));
    }
    Ok(())
}

// The state's place at another depth and flag.
fn placed(h: Held, depth: usize, flag: bool) -> Held
    ensures { result ≡ record { at = h.at; locals = h.locals; depth = depth; flag = flag } }
{
    Held {
        at: h.at,
        locals: h.locals,
        depth,
        flag,
    }
}

// Where the next instruction starts; the code's end where this one has no length.
fn next(code: &[u8], o: usize) -> usize
    requires { o < length code.now }
    ensures { result ≡ next_at code.now o }
{
    let n = size_at(code, o);
    if n == 0 {
        return code.len();
    }
    o + n
}

// Where lines by their opcodes lead: the offset, whether a state goes on and how deep, and whether the line there has to be decoded.
#[derive(Clone, Copy)]
pub struct Stretch {
    pub o: usize,
    pub depth: usize,
    pub live: bool,
    pub stuck: bool,
}

// Where a stretch ends.
fn stopped(o: usize, depth: usize, live: bool, stuck: bool) -> Stretch
    ensures { result ≡ record { o = o; depth = depth; live = live; stuck = stuck } }
{
    Stretch {
        o,
        depth,
        live,
        stuck,
    }
}

// The handlers ask of the next line what they asked of the one at o: none covers it, or the locals are the same.
fn asks_same(code: &[u8], o: usize, loose: bool) -> bool
    ensures { result ≡ true → loose ≡ false → steady (get_or code.now o 0) ≡ true }
{
    if loose {
        return true;
    }
    keeps_locals(kit::byte(code, o))
}

// Lines in a row from o on by their opcodes, as long as they can be typed so and nothing is met.
fn by_opcodes(
    s: &[u8],
    t: &mut [u8],
    x: Site,
    kin: Kin,
    f: Rows,
    h: Held,
    code: &[u8],
    from: usize,
    till: usize,
    loose: bool,
) -> Stretch
    requires { Open s.now t.old x kin f h from × (code.now ≡ site_code s.now x) × (from < length code.now) × Unmet s.now t.old x f from loose till }
    ensures { Stretched s.now t.old t.new x kin f h from result }
{
    // No `for`: an instruction's size is the step.
    let mut o = from;
    let mut depth = h.depth;
    while o < code.len() {
        let g = placed(h, depth, h.flag);
        let Some(went) = quick(s, t, x, kin, f, g, code, o as u16) else {
            return stopped(o, depth, true, true);
        };
        let same = asks_same(code, o, loose);
        o = next(code, o);
        let Went::On(left) = went else {
            return stopped(o, depth, false, false);
        };
        depth = left;
        if !same {
            return stopped(o, depth, true, false);
        }
        if till <= o {
            return stopped(o, depth, true, false);
        }
    }
    stopped(o, depth, true, false)
}

// What lines in a row leave: the next offset and the state that goes on there, if one is live.
#[derive(Clone, Copy)]
pub struct Leg {
    pub o: usize,
    pub live: bool,
    pub held: Held,
}

// The one line at o, decoded.
fn decoded(
    s: &[u8],
    t: &mut [u8],
    x: Site,
    kin: Kin,
    f: Rows,
    h: Held,
    code: &[u8],
    o: usize,
    asked: bool,
) -> Result<Leg, Fault>
    requires { Walking s.now t.old x kin f h × Entered t.old f h o × Handled s.now t.old x kin f h o asked × (code.now ≡ site_code s.now x) × (o < length code.now) }
    ensures { LegDone s.now t.old t.new x f true h o result }
{
    match one_line(s, t, x, kin, f, h, o as u16, asked) {
        Ok(turn) => Ok(Leg {
            o: next(code, o),
            live: turn.live,
            held: turn.held,
        }),
        Err(refusal) => Err(Fault(refusal, o)),
    }
}

// Lines from o on, one at least, from the state h where one is live.
fn leg_from(
    s: &[u8],
    t: &mut [u8],
    x: Site,
    kin: Kin,
    f: Rows,
    live: bool,
    h: Held,
    code: &[u8],
    o: usize,
    z: Ahead,
) -> Result<Leg, Fault>
    requires { Walking s.now t.old x kin f h × (code.now ≡ site_code s.now x) × (o < length code.now) × Scouted s.now t.old x f o z }
    ensures { LegDone s.now t.old t.new x f live h o result }
{
    let g = match arrive(t, kin, f, live, h, o, z.clear) {
        Ok(g) => g,
        Err(refusal) => return Err(Fault(refusal, o)),
    };
    if !calm(s, t, x, kin, f, g, o, z.quiet) {
        return decoded(s, t, anew(x), kin, f, g, code, o, false);
    }
    let k = by_opcodes(s, t, x, kin, f, g, code, o, z.till, z.loose);
    let q = placed(g, k.depth, g.flag);
    if k.stuck {
        return decoded(s, t, anew(x), kin, f, q, code, k.o, true);
    }
    Ok(Leg {
        o: k.o,
        live: k.live,
        held: q,
    })
}

// The walk over the code at x from the state h: lines in order, by offset.
fn over_lines(s: &[u8], t: &mut [u8], x: Site, kin: Kin, f: Rows, h: Held) -> Result<(), Fault>
    requires { Walking s.now t.old x kin f h }
    ensures { Walked s.now t.old t.new x f h result }
{
    let from = x.start;
    let to = x.end;
    let code = &s[from..to];
    let end = code.len();
    // No `for`: an instruction's size is the step.
    let mut o = 0;
    let mut live = true;
    let mut depth = h.depth;
    let mut flag = h.flag;
    let mut row = 0;
    let mut quiet = 0;
    while o < end {
        let z = scout(s, t, x, f, o, end, row, quiet);
        row = z.row;
        quiet = z.quiet;
        let g = placed(h, depth, flag);
        let r = leg_from(s, t, x, kin, f, live, g, code, o, z)?;
        o = r.o;
        live = r.live;
        let q = r.held;
        depth = q.depth;
        flag = q.flag;
    }
    ended(live, end)
}

// The walk of the method at x from its start, with its frames at f.
pub fn walk_method(s: &[u8], t: &mut [u8], x: Site, f: Rows) -> Result<(), Fault>
    requires { Placeable s.now t.old x f }
    ensures { MethodWalked s.now t.old t.new x f result }
{
    let h = start(t, x);
    let kin = Kin {
        at: 25728,
        count: 11 + x.classes,
    };
    over_lines(s, t, x, kin, f, h)
}
