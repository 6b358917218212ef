// The handler of a method that catches a thrown class.
ghost use Rattle.std.specs.Prelude.{◌≡◌, ◌+◌, ◌*◌, ◌^◌, ◌<◌, ◌≤◌};
ghost use Rattle.classfiles.specs.Attributes.{handlers_from};
ghost use Rattle.rules.specs.Ancestry.{lineage};
ghost use Rattle.rules.specs.Walk.{covers};
ghost use Rattle.plain.specs.Catching.{named_in, caught_in, entry_at, catches_by, caught_of, catcher_by};

use rules::types::{self, Kin};
use texts::items::u2_at;

// A method's exception table: its entries' number and the first one's place in the bundle; the method's class, and how many there are.
#[derive(Clone, Copy)]
pub struct Table {
    pub at: usize,
    pub entries: usize,
    pub class: usize,
    pub classes: u32,
}

// The word of entry i of the class's pool; 0 where there is none.
fn named(t: &[u8], k: usize, i: usize) -> u32
    ensures { result ≡ named_in t.now k i }
{
    if 16 <= k {
        return 0;
    }
    if 1024 <= i {
        return 0;
    }
    kit::word(t, 25760 + 1024 * k + i)
}

// The class that catch_type i stands for: Throwable for 0, and past all classes where it names none.
fn catch_class(t: &[u8], k: usize, classes: u32, i: usize) -> u32
    ensures { result ≡ caught_in t.now k classes i }
{
    if i == 0 {
        return 1;
    }
    let w = named(t, k, i);
    if w % 64 == 2 {
        return w / 64 % 32;
    }
    classes
}

fn covers(s: &[u8], q: usize, o: usize) -> bool
    requires { q < 2 ^ 63 }
    ensures { result ≡ covers o (entry_at s.now q) }
{
    if u2_at(s, q) <= o {
        return o < u2_at(s, q + 2);
    }
    false
}

// The entry at q covers the offset o and catches the class c.
fn catches(s: &[u8], t: &[u8], kin: Kin, x: Table, q: usize, o: usize, c: u32) -> bool
    requires { q < 2 ^ 63 }
    ensures { result ≡ catches_by (lineage t.now kin.at kin.count) (caught_in t.now x.class x.classes) o c (entry_at s.now q) }
{
    if covers(s, q, o) {
        let e = catch_class(t, x.class, x.classes, u2_at(s, q + 6));
        return types::is_below(t, kin, c, e);
    }
    false
}

// The first such entry's target.
pub fn catcher(s: &[u8], t: &[u8], kin: Kin, x: Table, o: usize, c: u32) -> Option<u32>
    requires { (x.at < 2 ^ 62) × (x.entries < 65536) }
    ensures { caught_of result ≡ catcher_by (lineage t.now kin.at kin.count) (caught_in t.now x.class x.classes) o c (handlers_from s.now x.entries x.at) }
{
    for i in 0..x.entries {
        let q = x.at + 8 * i;
        if catches(s, t, kin, x, q, o, c) {
            return Some(u2_at(s, q + 4) as u32);
        }
    }
    None
}
