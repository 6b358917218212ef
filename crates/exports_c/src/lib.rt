// The archive for other languages: each function of the crate below, by its C name.
#![tactic(auto)]

ghost use Rattle.std.specs.Prelude.{◌≡◌};
ghost use Rattle.shaping.specs.Verified.{verify_export};
ghost use Rattle.reader.specs.Outlet.{exported};
ghost use Rattle.machine.specs.Outcomes.{lent};
ghost use Rattle.exports.specs.Exports.{ran_export, run_export};

use exports::outlet;

#[unsafe(no_mangle)]
pub extern "C" fn flosquedo_run(
    bundle: &[u8],
    scratch: &mut [u8],
    heap: &mut [u32],
    slots: &mut [u32],
    tags: &mut [u8],
    class: u32,
    method: u32,
    args: &[u32],
    budget: u32,
    res: &mut [u8],
) -> u32
    ensures { ran_export result (lent scratch.new heap.new slots.new tags.new) res.new ≡ run_export bundle.now (lent scratch.old heap.old slots.old tags.old) class method args.now budget res.old }
{
    outlet::flosquedo_run(
        bundle, scratch, heap, slots, tags, class, method, args, budget, res,
    )
}

#[unsafe(no_mangle)]
pub extern "C" fn flosquedo_verify(bundle: &[u8], scratch: &mut [u8], res: &mut [u8]) -> u32
    ensures { exported result scratch.new res.new ≡ verify_export bundle.now scratch.old res.old }
{
    outlet::flosquedo_verify(bundle, scratch, res)
}

#[unsafe(no_mangle)]
pub extern "C" fn flosquedo_scratch_size() -> usize
    ensures { result ≡ 262144 }
{
    outlet::flosquedo_scratch_size()
}
