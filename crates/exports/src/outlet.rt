// What other languages call: a run, and the verdict of the crate below.
ghost use Rattle.std.specs.Prelude.{◌≡◌, ◌%◌, ◌^◌, length};
ghost use Rattle.reader.specs.Outlet.{result_size, exported};
ghost use Rattle.shaping.specs.Verified.{verify_export};
ghost use Rattle.machine.specs.Outcomes.{lent, nine, told_numbers};
ghost use Rattle.exports.specs.Exports.{refusal_of, run_bytes, ran_export, run_export};

use machine::run::{self, Told};
use reader::outlet::{self, Answer};
use verifier::verify;

fn low(n: usize) -> u32
    ensures { result ≡ n % 2 ^ 32 }
{
    (n % 4294967296) as u32
}

// Nine numbers and seven zeros as words of the result.
fn put_nine(res: &mut [u8], refusal: usize, end: u32, value: u32, count: u32, used: u32, v: Answer)
    requires { length res.old ≡ result_size }
    ensures { res.new ≡ run_bytes (nine refusal end value count used v) }
{
    outlet::put_result(res, refusal, end as usize, value as usize, count as usize);
    kit::put_word(res, 4, used);
    kit::put_word(res, 5, low(v.number));
    kit::put_word(res, 6, low(v.class));
    kit::put_word(res, 7, low(v.method));
    kit::put_word(res, 8, low(v.place));
}

// The answer, and its refusal: 0 for none.
fn put_told(res: &mut [u8], r: Told) -> u32
    requires { length res.old ≡ result_size }
    ensures { (res.new ≡ run_bytes (told_numbers r)) × (result ≡ refusal_of r) }
{
    match r {
        Ok(q) => {
            put_nine(
                res,
                0,
                q.end_number(),
                q.value(),
                q.count,
                q.used,
                run::no_verdict(),
            );
            0
        }
        Err(e) => {
            let code = e.number();
            put_nine(res, code as usize, 0, 0, 0, 0, e.verdict());
            code
        }
    }
}

#[unsafe(no_mangle)]
pub extern "C" fn flosquedo_run(
    bundle: &[u8],
    scratch: &mut [u8],
    heap: &mut [u32],
    slots: &mut [u32],
    tags: &mut [u8],
    class: u32,
    method: u32,
    args: &[u32],
    budget: u32,
    res: &mut [u8],
) -> u32
    ensures { ran_export result (lent scratch.new heap.new slots.new tags.new) res.new ≡ run_export bundle.now (lent scratch.old heap.old slots.old tags.old) class method args.now budget res.old }
{
    if res.len() != 64 {
        return 20;
    }
    let a = run::run(
        bundle, scratch, heap, slots, tags, class, method, args, budget,
    );
    put_told(res, a)
}

#[unsafe(no_mangle)]
pub extern "C" fn flosquedo_verify(bundle: &[u8], scratch: &mut [u8], res: &mut [u8]) -> u32
    ensures { exported result scratch.new res.new ≡ verify_export bundle.now scratch.old res.old }
{
    verify::flosquedo_verify(bundle, scratch, res)
}

#[unsafe(no_mangle)]
pub extern "C" fn flosquedo_scratch_size() -> usize
    ensures { result ≡ 262144 }
{
    verify::flosquedo_scratch_size()
}
