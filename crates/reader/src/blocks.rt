// The blocks that phase A leaves, one a class, and the tags in each.
ghost use Rattle.std.specs.Prelude.{◌≡◌, ◌*◌, ◌<◌, ◌≤◌, length, take};
ghost use Rattle.kit.specs.Words.{word};
ghost use Rattle.classfiles.specs.Blocks.{block_size, pool_word};
ghost use Rattle.reader.specs.MemberRows.{block_at};

use classfiles::pool;

// Block c.
pub fn block(t: &[u8], c: usize) -> &[u8]
    requires { (c < 16) × (16 * block_size ≤ length t.now) }
    ensures { result.now ≡ block_at t.now c }
{
    let a = 6432 * c;
    &t[a..a + 6432]
}

// The tags of a block's pool.
pub fn tags(b: &[u8]) -> &[u8]
    ensures { result.now ≡ take (4 * word b.now pool_word) b.now }
{
    pool::cut(b, 0, 4 * kit::word(b, 1025) as usize)
}
