// The table of virtual calls: for an object's class and a method found by name, the method that runs. Classes are counted in the bundle.
ghost use Rattle.std.specs.Prelude.{IfSome, ◌≡◌, ◌+◌, ◌^◌, ◌<◌};
ghost use Rattle.reader.specs.Lookup.{hit_of};
ghost use Rattle.reader.specs.Prints.{Printed};
ghost use Rattle.rules.specs.Sites.{front};
ghost use Rattle.shaping.specs.Phases.{Readied};
ghost use Rattle.running.specs.Dispatching.{spot_word, spot_of, Dispatch};
ghost use Rattle.machine.specs.Filling.{SmallHit, Asks, Chosen, table_at, table_size, Puts, Filled, Filling, Tabled};
ghost use Rattle.verifier.specs.Besides.{Besides};

use reader::lookup::Hit;
use reader::{lookup, printing, prints, signature};
use rules::types;
use rules::types::Kin;

// 0 for nowhere, or 1 + 64 * class + index.
fn packed(sought: Option<Hit>) -> u32
    requires { IfSome sought SmallHit }
    ensures { (spot_of result ≡ hit_of sought) × (result < 2 ^ 32) }
{
    let Some(h) = sought else {
        return 0;
    };
    (1 + 64 * h.class + h.index) as u32
}

// The method that runs for an object of class c where method i of class o is called.
fn chosen(s: &[u8], t: &[u8], n: usize, c: usize, o: usize, i: usize) -> u32
    requires { Asks s.now n t.now c o i }
    ensures { Chosen s.now n t.now c o i result × (result < 2 ^ 32) }
{
    let x = signature::member_name(s, t, o, true, i);
    let y = signature::member_descriptor(s, t, o, true, i);
    let p = prints::print_at(t, o, true, i);
    packed(lookup::seek_by(s, t, n, 11 + c, true, x, y, p))
}

// It is put where it belongs.
fn put_chosen(s: &[u8], t: &mut [u8], n: usize, c: usize, o: usize, i: usize)
    requires { Puts s.now n t.old c o i }
    ensures { Filling s.now n t.old (spot_word c o (i + 1)) t.new }
{
    let w = chosen(s, &t[0..195200], n, c, o, i);
    kit::put_word(t, 48800 + 1024 * c + 64 * o + i, w);
}

// All methods of class o, for objects of class c.
fn row(s: &[u8], t: &mut [u8], n: usize, c: usize, o: usize)
    requires { Readied s.now n t.old × Printed s.now n t.old × (c < n) × (o < n) × Filled s.now n (front t.old) (spot_word c o 0) t.old }
    ensures { Filling s.now n t.old (spot_word c (o + 1) 0) t.new }
{
    let k = signature::member_count(&t[0..187008], o, true);
    for i in 0..k {
        put_chosen(s, t, n, c, o, i);
    }
}

// The same where c is o or below it; others are never asked for.
fn row_below(s: &[u8], t: &mut [u8], n: usize, c: usize, o: usize)
    requires { Readied s.now n t.old × Printed s.now n t.old × (c < n) × (o < n) × Filled s.now n (front t.old) (spot_word c o 0) t.old }
    ensures { Filling s.now n t.old (spot_word c (o + 1) 0) t.new }
{
    let kin = Kin {
        at: 25728,
        count: 11 + n,
    };
    if !types::is_below(&t[0..187008], kin, (11 + c) as u32, (11 + o) as u32) {
        return;
    }
    row(s, t, n, c, o);
}

// The methods of all classes, for objects of class c.
fn rows(s: &[u8], t: &mut [u8], n: usize, c: usize)
    requires { Readied s.now n t.old × Printed s.now n t.old × (c < n) × Filled s.now n (front t.old) (spot_word c 0 0) t.old }
    ensures { Filling s.now n t.old (spot_word (c + 1) 0 0) t.new }
{
    for o in 0..n {
        row_below(s, t, n, c, o);
    }
}

// Those of all classes, by the members' prints.
fn fill_all(s: &[u8], t: &mut [u8], n: usize)
    requires { Readied s.now n t.old × Printed s.now n t.old }
    ensures { Dispatch s.now n t.new × Besides table_at table_size t.old t.new }
{
    for c in 0..n {
        rows(s, t, n, c);
    }
}

// The whole table. The prints that it needs are written once more, since phase C keeps the scratch's front alone.
pub fn fill(s: &[u8], t: &mut [u8], n: usize)
    requires { Readied s.now n t.old }
    ensures { Tabled s.now n t.old t.new }
{
    printing::print_all(s, t, n);
    fill_all(s, t, n);
}
