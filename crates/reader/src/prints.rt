// A member's print: a word made of its name and descriptor, so that a search compares words before texts.
ghost use Rattle.std.specs.Prelude.{◌≡◌, true, cond, ◌+◌, ◌/◌, ◌*◌, ◌^◌, ◌<◌, ◌≤◌, eqb, length, take, drop};
ghost use Rattle.kit.specs.Words.{word};
ghost use Rattle.reader.specs.Program.{signature};
ghost use Rattle.reader.specs.Prints.{print_from, print_of, has_word, prints_word, prints_end};

// Text x on top of h, four bytes at a time.
fn text_print(h: usize, x: &[u8]) -> usize
    requires { h < 2 ^ 32 }
    ensures { (result ≡ print_from h x.now) × (result < 2 ^ 32) }
{
    let n = x.len() / 4;
    let mut v = h;
    for i in 0..n {
        v = (16777619 * v + kit::word(x, i) as usize) % 4294967296;
    }
    let a = 4 * n;
    (16777619 * v + kit::byte(x, a) + 256 * kit::byte(x, a + 1) + 65536 * kit::byte(x, a + 2))
        % 4294967296
}

// The print of name x and descriptor y.
pub fn print(x: &[u8], y: &[u8]) -> u32
    ensures { result ≡ print_of (signature x.now y.now) }
{
    let h = text_print(0, y);
    text_print(h, x) as u32
}

// Whether p is among the words of w. It does not stop at the first, so that several words are compared at once.
pub fn has(w: &[u8], p: u32) -> bool
    ensures { result ≡ has_word w.now p (length w.now / 4) }
{
    let mut hit = false;
    for i in 0..w.len() / 4 {
        hit |= kit::word(w, i) == p;
    }
    hit
}

// The word of the first print of class c's methods or fields.
pub fn first_word(c: usize, method: bool) -> usize
    requires { c < 16 }
    ensures { (result ≡ prints_word c method) × (result < 48800) }
{
    if method {
        return 46816 + 128 * c;
    }
    46752 + 128 * c
}

// The prints of class c's first n methods or fields.
pub fn first_prints(t: &[u8], c: usize, method: bool, n: usize) -> &[u8]
    requires { (c < 16) × (n ≤ 64) × (prints_end ≤ length t.now) }
    ensures { result.now ≡ take (4 * n) (drop (4 * prints_word c method) t.now) }
{
    let f = 4 * first_word(c, method);
    &t[f..f + 4 * n]
}

// The print that stands for member j of class c.
pub fn print_at(t: &[u8], c: usize, method: bool, j: usize) -> u32
    requires { (c < 16) × (j < 2 ^ 32) }
    ensures { result ≡ word t.now (prints_word c method + j) }
{
    let w = first_word(c, method);
    kit::word(t, w + j)
}
