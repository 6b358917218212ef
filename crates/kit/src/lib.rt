// Total reads and stores of a lent byte buffer, by bytes and by 32-bit words (low byte first): past the end a read is 0 and a store does nothing.
#![tactic(auto)]

ghost use Rattle.std.specs.Prelude.{◌≡◌, ◌<◌, length, get_or, replicate};
ghost use Rattle.kit.specs.Words.{word, put_word};

// A byte that is there, at a word's width.
fn wide(s: &[u8], i: usize) -> u32
    requires { i < length s.now }
    ensures { (result ≡ get_or s.now i 0) × (result < 256) }
{
    s[i] as u32
}

pub fn byte(s: &[u8], i: usize) -> usize
    ensures { (result ≡ get_or s.now i 0) × (result < 256) }
{
    if i < s.len() {
        return wide(s, i) as usize;
    }
    0
}

pub fn word(s: &[u8], k: usize) -> u32
    ensures { result ≡ word s.now k }
{
    if k < s.len() / 4 {
        let a = 4 * k;
        return wide(s, a)
            + 256 * wide(s, a + 1)
            + 65536 * wide(s, a + 2)
            + 16777216 * wide(s, a + 3);
    }
    0
}

pub fn put_word(s: &mut [u8], k: usize, v: u32)
    ensures { s.new ≡ put_word s.old k v }
{
    if s.len() / 4 <= k {
        return;
    }
    let a = 4 * k;
    s[a] = (v % 256) as u8;
    s[a + 1] = (v / 256 % 256) as u8;
    s[a + 2] = (v / 65536 % 256) as u8;
    s[a + 3] = (v / 16777216 % 256) as u8;
}

// Every byte becomes 0.
pub fn clear(s: &mut [u8])
    ensures { s.new ≡ replicate (length s.old) 0 }
{
    s.fill(0);
}
