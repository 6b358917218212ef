// Names of classes and members.
ghost use Rattle.std.specs.Prelude.{◌≡◌, ◌<◌, length};
ghost use Rattle.kit.specs.Lists.{eq_list, alike};
ghost use Rattle.texts.specs.Names.{plain, plain_at, unqualified, class_byte, class_name, is_init, method_name};

// None of . ; [ / < >
pub fn plain(b: usize) -> bool
    ensures { result ≡ plain b }
{
    if b == 46 {
        return false;
    }
    if b == 59 {
        return false;
    }
    if b == 91 {
        return false;
    }
    if b == 47 {
        return false;
    }
    if b == 60 {
        return false;
    }
    if b == 62 {
        return false;
    }
    true
}

fn plain_at(t: &[u8], i: usize) -> bool
    ensures { result ≡ plain_at t.now i }
{
    plain(kit::byte(t, i))
}

pub fn unqualified(t: &[u8]) -> bool
    ensures { result ≡ unqualified t.now }
{
    if t.len() == 0 {
        return false;
    }
    for i in 0..t.len() {
        if !plain_at(t, i) {
            return false;
        }
    }
    true
}

// A / between two parts that are not empty, or a plain byte.
fn class_byte(t: &[u8], i: usize) -> bool
    requires { i < length t.now }
    ensures { result ≡ class_byte t.now i }
{
    let b = kit::byte(t, i);
    if b == 47 {
        if i == 0 {
            return false;
        }
        if kit::byte(t, i - 1) == 47 {
            return false;
        }
        return i + 1 < t.len();
    }
    plain(b)
}

pub fn class_name(t: &[u8]) -> bool
    ensures { result ≡ class_name t.now }
{
    if t.len() == 0 {
        return false;
    }
    for i in 0..t.len() {
        if !class_byte(t, i) {
            return false;
        }
    }
    true
}

// Two texts, byte by byte.
pub fn same_text(x: &[u8], y: &[u8]) -> bool
    ensures { result ≡ eq_list x.now y.now }
{
    x == y
}

pub fn is_init(t: &[u8]) -> bool
    ensures { result ≡ is_init t.now }
{
    same_text(t, b"<init>")
}

pub fn method_name(t: &[u8]) -> bool
    ensures { result ≡ method_name t.now }
{
    if is_init(t) {
        return true;
    }
    unqualified(t)
}
