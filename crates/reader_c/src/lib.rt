// The archive of phases A and B alone: the reader's export by its C name.
#![tactic(auto)]

ghost use Rattle.std.specs.Prelude.{◌≡◌};
ghost use Rattle.reader.specs.Outlet.{exported, read_export};

use reader::outlet;

#[unsafe(no_mangle)]
pub extern "C" fn flosquedo_read(bundle: &[u8], scratch: &mut [u8], res: &mut [u8]) -> u32
    ensures { exported result scratch.new res.new ≡ read_export bundle.now scratch.old res.old }
{
    outlet::flosquedo_read(bundle, scratch, res)
}
