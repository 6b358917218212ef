// All phases in order, and what others call.
ghost use Rattle.std.specs.Prelude.{◌≡◌};
ghost use Rattle.reader.specs.Outlet.{exported};
ghost use Rattle.shaping.specs.Verified.{IsVerified, verify_export};

use crate::typing;
use reader::outlet;
use reader::outlet::Answer;
use shaping::whole::read_shaped;
use texts::faults::Refusal;

// The bundle's verdict; the scratch ends all zero, unless it is too short (20).
pub fn verify(s: &[u8], t: &mut [u8]) -> Answer
    ensures { IsVerified s.now t.old result t.new }
{
    if t.len() < 262144 {
        return Answer {
            number: Refusal::Lent.number() as usize,
            class: 65535,
            method: 65535,
            place: 0,
        };
    }
    let n = match read_shaped(s, t) {
        Ok(n) => n,
        Err(answer) => {
            kit::clear(t);
            return answer;
        }
    };
    let typed = typing::type_all(s, t, n);
    kit::clear(t);
    match typed {
        Ok(()) => Answer {
            number: 0,
            class: 65535,
            method: 65535,
            place: 0,
        },
        Err(e) => Answer::from(e),
    }
}

#[unsafe(no_mangle)]
pub extern "C" fn flosquedo_scratch_size() -> usize
    ensures { result ≡ 262144 }
{
    262144
}

#[unsafe(no_mangle)]
pub extern "C" fn flosquedo_verify(bundle: &[u8], scratch: &mut [u8], res: &mut [u8]) -> u32
    ensures { exported result scratch.new res.new ≡ verify_export bundle.now scratch.old res.old }
{
    if res.len() != 64 {
        return 20;
    }
    let a = verify(bundle, scratch);
    outlet::put_result(res, a.number, a.class, a.method, a.place);
    a.number as u32
}
