// The entry of a run: a static method whose parameters are all int; and its first call.
ghost use Rattle.std.specs.Prelude.{◌≡◌, true, ◌+◌, ◌*◌, ◌<◌, ◌≤◌, length};
ghost use Rattle.kit.specs.Claims.{pass};
ghost use Rattle.reader.specs.BuiltIns.{first_class};
ghost use Rattle.classfiles.specs.Blocks.{block_size};
ghost use Rattle.reader.specs.Linked.{files_in};
ghost use Rattle.reader.specs.Program.{method, program_of};
ghost use Rattle.reader.specs.TypeCodes.{params_in};
ghost use Rattle.reader.specs.Whole.{Tables};
ghost use Rattle.shaping.specs.Phases.{Readied, program_now, shape_by, of_all};
ghost use Rattle.plain.specs.Run.{all_ints, is_entry};
ghost use Rattle.running.specs.Entry.{Laid, Emptied, Starts};

use plain::frames::Frame;
use plain::values::Value;
use reader::{access, overriding, signature, types};
use texts::items;

// Whether all parameters of the method of entry k are int.
fn all_ints(t: &[u8], k: usize) -> bool
    requires { k < 1024 }
    ensures { result ≡ all_ints (params_in t.now k) }
{
    for i in 0..types::param_count(t, k) {
        if types::param_at(t, k, i) != 248 {
            return false;
        }
    }
    true
}

// Whether method j of class i, both counted in the bundle, can be run.
pub fn is_entry(b: &[u8], t: &[u8], n: usize, i: usize, j: usize) -> bool
    requires { Tables b.now n t.now × (16 * block_size ≤ length t.now) }
    ensures { result ≡ is_entry (program_of (files_in b.now n t.now)) i j }
{
    if n <= i {
        return false;
    }
    if signature::member_count(t, i, true) <= j {
        return false;
    }
    if !overriding::is_static(b, t, n, 11 + i, j) {
        return false;
    }
    all_ints(t, 64 * i + j)
}

// The arguments as numbers, from the first slot on. One by one: a slice copied whole would have the archive for C ask for memmove.
fn lay(s: &mut [u32], g: &mut [u8], args: &[u32])
    requires { (length args.now ≤ length s.old) × (length args.now ≤ length g.old) }
    ensures { Laid args.now s.new g.new (length args.now) }
{
    for i in 0..args.len() {
        s[i] = args[i];
        g[i] = Value::NUM;
    }
}

// Empty locals behind them: the tag alone says so.
fn empty_from(g: &mut [u8], from: usize)
    requires { (from ≤ 32) × (32 ≤ length g.old) }
    ensures { Emptied g.old g.new from 32 }
{
    g[from..32].fill(Value::EMPTY);
}

// The first call, of method j of class i.
pub fn start(
    b: &[u8],
    t: &[u8],
    s: &mut [u32],
    g: &mut [u8],
    n: usize,
    i: usize,
    j: usize,
    args: &[u32],
) -> Frame
    requires { Readied b.now n t.now × (of_all shape_by b.now n t.now ≡ pass) × (length s.old ≡ 4096) × (length g.old ≡ 4096) × (is_entry (program_now b.now n t.now) i j ≡ true) × (length args.now ≡ length (method (program_now b.now n t.now) (first_class + i) j).params) }
    ensures { Starts b.now n t.now s.new g.new i j args.now result }
{
    let q = access::method_word(&t[0..187008], i, j, 2);
    let locals = items::u2_at(b, q + 2);
    lay(s, g, args);
    empty_from(g, args.len());
    Frame {
        class: (11 + i) as u32,
        method: j as u32,
        offset: 0,
        own: 0,
        operands: 0,
        locals: locals as u32,
    }
}
