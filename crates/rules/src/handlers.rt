// What a handler gets must fit its frame, for each entry of the exception table that covers an instruction.
ghost use Rattle.std.specs.Prelude.{is_some, ◌≡◌, ◌+◌, ◌^◌, ◌<◌, ◌≤◌, length};
ghost use Rattle.kit.specs.Claims.{ruled, verdict};
ghost use Rattle.texts.specs.Faults.{number};
ghost use Rattle.texts.specs.Reading.{u2_at};
ghost use Rattle.classfiles.specs.Attributes.{handlers_from};
ghost use Rattle.reader.specs.BuiltIns.{first_class};
ghost use Rattle.classfiles.specs.Descriptors.{cls};
ghost use Rattle.rules.specs.Types.{ini};
ghost use Rattle.rules.specs.Walk.{covers};
ghost use Rattle.rules.specs.TypeWords.{type_of};
ghost use Rattle.rules.specs.Ancestry.{lineage};
ghost use Rattle.rules.specs.Slots.{locals_of, veil, hidden_key, Placed};
ghost use Rattle.rules.specs.FrameRows.{frames_of, Laid};
ghost use Rattle.rules.specs.Handlers.{entry_at, catch_in, handler_by, handlers_by};

use crate::decode::named_word;
use crate::frames::{Rows, into_handler};
use crate::site::Site;
use crate::slots::{Held, must};
use crate::types::{Kin, Ty};
use texts::faults::Refusal;
use texts::items::u2_at;

// The class that catch_type i stands for: Throwable for 0, and past all classes where it names none.
fn catch_type(t: &[u8], x: Site, i: usize) -> Ty
    requires { x.classes ≤ 16 }
    ensures { type_of result.word ≡ ini (cls (catch_in t.now x.class (first_class + x.classes) i)) }
{
    if i == 0 {
        return Ty::class(1);
    }
    let w = named_word(t, x.class, i);
    if w % 64 == 2 {
        return Ty {
            word: Ty::CLASS + 64 * (w / 64 % 32),
        };
    }
    Ty {
        word: Ty::CLASS + 64 * ((11 + x.classes) as u32),
    }
}

// Two bytes that are there, high byte first.
fn two(s: &[u8], q: usize) -> usize
    requires { q + 1 < length s.now }
    ensures { result ≡ u2_at s.now q }
{
    s[q] as usize * 256 + s[q + 1] as usize
}

// The entry at q covers the offset o; one test of the bundle's end serves for both bounds.
fn covers(s: &[u8], q: usize, o: usize) -> bool
    requires { q ≤ 2 ^ 63 + 256 }
    ensures { result ≡ covers o (entry_at s.now q) }
{
    if q + 4 <= s.len() {
        if two(s, q) <= o {
            return o < two(s, q + 2);
        }
        return false;
    }
    if u2_at(s, q) <= o {
        return o < u2_at(s, q + 2);
    }
    false
}

// What the state h gives to the entry at q; copies of the hidden object count as top.
fn one_handler(
    s: &[u8],
    t: &[u8],
    x: Site,
    kin: Kin,
    f: Rows,
    h: Held,
    hidden: Option<Ty>,
    q: usize,
    o: usize,
) -> Result<(), Refusal>
    requires { (x.classes ≤ 16) × Laid t.now f × Placed t.now h × (q ≤ 2 ^ 63 + 256) }
    ensures { ruled number result ≡ verdict (handler_by (lineage t.now kin.at kin.count) (catch_in t.now x.class (first_class + x.classes)) (frames_of t.now f) o h.flag (veil (is_some hidden) (hidden_key hidden) (locals_of t.now h)) (entry_at s.now q)) }
{
    if !covers(s, q, o) {
        return Ok(());
    }
    must(!h.flag, Refusal::Construction)?;
    let w = catch_type(t, x, u2_at(s, q + 6));
    into_handler(t, kin, f, h, u2_at(s, q + 4), hidden, w)
}

// All entries of the method's table, in order.
pub fn all_handlers(
    s: &[u8],
    t: &[u8],
    x: Site,
    kin: Kin,
    f: Rows,
    h: Held,
    hidden: Option<Ty>,
    o: usize,
) -> Result<(), Refusal>
    requires { (x.classes ≤ 16) × Laid t.now f × Placed t.now h × (x.table ≤ 2 ^ 63) × (x.entries ≤ 32) }
    ensures { ruled number result ≡ verdict (handlers_by (lineage t.now kin.at kin.count) (catch_in t.now x.class (first_class + x.classes)) (frames_of t.now f) o h.flag (veil (is_some hidden) (hidden_key hidden) (locals_of t.now h)) (handlers_from s.now x.entries x.table)) }
{
    for i in 0..x.entries {
        one_handler(s, t, x, kin, f, h, hidden, x.table + 8 * i, o)?;
    }
    Ok(())
}
