// The reader for other languages: no `requires`, and everything that is lent has a fixed end.
ghost use Rattle.std.specs.Prelude.{◌≡◌, [], ◌∷◌, ◌%◌, ◌^◌, length};
ghost use Rattle.texts.specs.Faults.{number};
ghost use Rattle.classfiles.specs.Limits.{unnamed};
ghost use Rattle.reader.specs.Outlet.{answer, IsOutcome, result_size, result_bytes, exported, read_export};

use crate::link::Refused;
use crate::whole;

// A verdict's four numbers, as C gets them; class and method 65535 where none is named.
#[derive(Clone, Copy)]
pub struct Answer {
    pub number: usize,
    pub class: usize,
    pub method: usize,
    pub place: usize,
}

// Phase B names no method.
impl From<Refused> for Answer {
    ghost from_gives = { λ e a. a ≡ answer (number e.refusal) e.class unnamed e.place };

    fn from(e: Refused) -> Answer {
        Answer {
            number: e.refusal.number() as usize,
            class: e.class,
            method: 65535,
            place: e.place,
        }
    }
}

// Phases A and B; the scratch ends all zero, unless it is too short (20).
pub fn judge(s: &[u8], t: &mut [u8]) -> Answer
    ensures { IsOutcome s.now t.old result t.new }
{
    if t.len() < 262144 {
        return Answer {
            number: 20,
            class: 65535,
            method: 65535,
            place: 0,
        };
    }
    let r = whole::read(s, t);
    kit::clear(t);
    match r {
        Ok(_) => Answer {
            number: 0,
            class: 65535,
            method: 65535,
            place: 0,
        },
        Err(e) => Answer::from(e),
    }
}

fn low(n: usize) -> u32
    ensures { result ≡ n % 2 ^ 32 }
{
    (n % 4294967296) as u32
}

// Four numbers and twelve zeros as words of the result.
pub fn put_result(res: &mut [u8], a: usize, b: usize, c: usize, d: usize)
    requires { length res.old ≡ result_size }
    ensures { res.new ≡ result_bytes (a ∷ b ∷ c ∷ d ∷ []) }
{
    kit::clear(res);
    kit::put_word(res, 0, low(a));
    kit::put_word(res, 1, low(b));
    kit::put_word(res, 2, low(c));
    kit::put_word(res, 3, low(d));
}

#[unsafe(no_mangle)]
pub extern "C" fn flosquedo_read(bundle: &[u8], scratch: &mut [u8], res: &mut [u8]) -> u32
    ensures { exported result scratch.new res.new ≡ read_export bundle.now scratch.old res.old }
{
    if res.len() != 64 {
        return 20;
    }
    let a = judge(bundle, scratch);
    put_result(res, a.number, a.class, a.method, a.place);
    a.number as u32
}
