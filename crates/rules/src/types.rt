// Verification types, each in one word, and which fits which.
ghost use Rattle.std.specs.Prelude.{◌≡◌, ◌+◌, ◌*◌, ◌<◌, ◌/◌, ◌%◌};
ghost use Rattle.classfiles.specs.Descriptors.{cls, arr};
ghost use Rattle.reader.specs.Program.{class, below};
ghost use Rattle.rules.specs.Types.{top, int, null, ini, uninit, at, self, is_int, is_null, is_top, is_reference, is_array, is_uninit, element_ty, ty_of, desc_fits, fits_ref, fits};
ghost use Rattle.rules.specs.Rule.{key_of};
ghost use Rattle.rules.specs.TypeWords.{nest, base_of, type_of};
ghost use Rattle.rules.specs.InstructionWords.{ref_of, desc_of, element_of};
ghost use Rattle.rules.specs.Ancestry.{lineage};

// A type as the view of a word: kind + 8 * depth + 64 * number. The number is a class's, an array's base or a new's offset; the depth is
// that of an array's elements. It stays packed: states and frames are words of the lent scratch.
#[derive(Clone, Copy, Debug, PartialEq, Eq)]
pub struct Ty {
    pub word: u32,
}

impl Ty {
    pub const TOP: u32 = 0;

    pub const INT: u32 = 1;

    pub const NULL: u32 = 2;

    pub const CLASS: u32 = 3;

    pub const ARRAY: u32 = 4;

    pub const UNINIT: u32 = 5;

    pub const UNINIT_THIS: u32 = 6;

    // An array's base that is int: past every class's number.
    pub const INT_BASE: u32 = 65535;

    pub fn kind(self) -> u32
        ensures { result ≡ self.word % 8 }
    {
        self.word % 8
    }

    pub fn depth(self) -> u32
        ensures { result ≡ self.word / 8 % 8 }
    {
        self.word / 8 % 8
    }

    pub fn number(self) -> u32
        ensures { result ≡ self.word / 64 }
    {
        self.word / 64
    }

    pub fn top() -> Ty
        ensures { type_of result.word ≡ top }
    {
        Ty { word: Ty::TOP }
    }

    pub fn int() -> Ty
        ensures { type_of result.word ≡ int }
    {
        Ty { word: Ty::INT }
    }

    pub fn null() -> Ty
        ensures { type_of result.word ≡ null }
    {
        Ty { word: Ty::NULL }
    }

    pub fn class(c: u16) -> Ty
        ensures { type_of result.word ≡ ini (cls c) }
    {
        Ty {
            word: Ty::CLASS + 64 * (c as u32),
        }
    }

    // The array whose elements are the base under d brackets.
    pub fn array(base: u16, d: u8) -> Ty
        ensures { type_of result.word ≡ ini (arr (nest base (d % 8))) }
    {
        Ty {
            word: Ty::ARRAY + 8 * ((d % 8) as u32) + 64 * (base as u32),
        }
    }

    pub fn uninit(l: u16) -> Ty
        ensures { type_of result.word ≡ uninit (at l) }
    {
        Ty {
            word: Ty::UNINIT + 64 * (l as u32),
        }
    }

    pub fn uninit_this() -> Ty
        ensures { type_of result.word ≡ uninit self }
    {
        Ty {
            word: Ty::UNINIT_THIS,
        }
    }

    pub fn is_top(self) -> bool
        ensures { result ≡ is_top (type_of self.word) }
    {
        self.word % 8 == Ty::TOP
    }

    pub fn is_int(self) -> bool
        ensures { result ≡ is_int (type_of self.word) }
    {
        self.word % 8 == Ty::INT
    }

    pub fn is_null(self) -> bool
        ensures { result ≡ is_null (type_of self.word) }
    {
        self.word % 8 == Ty::NULL
    }

    // Initialised or not.
    pub fn is_reference(self) -> bool
        ensures { result ≡ is_reference (type_of self.word) }
    {
        Ty::NULL <= self.word % 8
    }

    // Of arrays; null counts as one.
    pub fn is_array(self) -> bool
        ensures { result ≡ is_array (type_of self.word) }
    {
        if self.word % 8 == Ty::NULL {
            return true;
        }
        self.word % 8 == Ty::ARRAY
    }

    // Whether it is the uninitialised object that the key is; a key of another kind is uninitThis.
    pub fn is_uninit(self, key: Ty) -> bool
        ensures { result ≡ is_uninit (key_of (type_of key.word)) (type_of self.word) }
    {
        if self.word % 8 < Ty::UNINIT {
            return false;
        }
        if self.word % 8 == Ty::UNINIT {
            if key.word % 8 == Ty::UNINIT {
                return self.word / 64 == key.word / 64;
            }
            return false;
        }
        key.word % 8 != Ty::UNINIT
    }

    // An array's element: one bracket less, or the base.
    fn inner(self) -> Ty
        requires { self.word % 8 ≡ 4 }
        ensures { type_of result.word ≡ element_ty (type_of self.word) }
    {
        if 0 < self.word / 8 % 8 {
            return Ty {
                word: self.word - 8,
            };
        }
        if self.word / 64 == Ty::INT_BASE {
            return Ty::int();
        }
        Ty {
            word: self.word - 1,
        }
    }

    // What is loaded from an array; null gives null.
    pub fn element(self) -> Ty
        ensures { type_of result.word ≡ element_ty (type_of self.word) }
    {
        let k = self.word % 8;
        if k == Ty::NULL {
            return self;
        }
        if k == Ty::ARRAY {
            return self.inner();
        }
        Ty::top()
    }

    // The array with this base and depth.
    pub fn as_array(self) -> Ty
        ensures { type_of result.word ≡ ini (arr (element_of self.word)) }
    {
        Ty {
            word: self.word / 8 * 8 + Ty::ARRAY,
        }
    }

    // An array, or the class with this number.
    pub fn as_reference(self) -> Ty
        ensures { type_of result.word ≡ ini (ref_of self.word) }
    {
        if self.word % 8 == Ty::ARRAY {
            return self;
        }
        Ty {
            word: self.word / 64 * 64 + Ty::CLASS,
        }
    }

    // A type that is written down: int, or one of those.
    pub fn described(self) -> Ty
        ensures { type_of result.word ≡ ty_of (desc_of self.word) }
    {
        if self.word % 8 == Ty::INT {
            return self;
        }
        self.as_reference()
    }
}

// Where the classes' parents stand in a table of words: class 0's, and how many there are. What the functions below answer is so of every
// program with these parents.
#[derive(Clone, Copy)]
pub struct Kin {
    pub at: usize,
    pub count: usize,
}

// Object where there is no such class.
pub fn parent(t: &[u8], kin: Kin, c: u32) -> u32
    ensures { result ≡ (class (lineage t.now kin.at kin.count) c).parent }
{
    let i = c as usize;
    if kin.count <= i {
        return 0;
    }
    if t.len() / 4 <= kin.at {
        return 0;
    }
    kit::word(t, kin.at + i)
}

// Whether d is c or an ancestor of it.
pub fn is_below(t: &[u8], kin: Kin, c: u32, d: u32) -> bool
    ensures { result ≡ below (lineage t.now kin.at kin.count) c d }
{
    let mut at = c;
    for _ in 0..kin.count {
        if at == d {
            return true;
        }
        at = parent(t, kin, at);
    }
    at == d
}

// Whether what has the base b fits where the base e is asked.
fn base_fits(t: &[u8], kin: Kin, b: u32, e: u32) -> bool
    ensures { result ≡ desc_fits (lineage t.now kin.at kin.count) (base_of b) (base_of e) }
{
    if e == Ty::INT_BASE {
        return b == Ty::INT_BASE;
    }
    if b == Ty::INT_BASE {
        return false;
    }
    is_below(t, kin, b, e)
}

// The same under brackets: as deep, or deeper where Object is asked.
fn nest_fits(t: &[u8], kin: Kin, a: Ty, b: Ty) -> bool
    ensures { result ≡ desc_fits (lineage t.now kin.at kin.count) (nest (a.word / 64) (a.word / 8 % 8)) (nest (b.word / 64) (b.word / 8 % 8)) }
{
    if a.word / 8 % 8 == b.word / 8 % 8 {
        return base_fits(t, kin, a.word / 64, b.word / 64);
    }
    if b.word / 8 % 8 < a.word / 8 % 8 {
        return b.word / 64 == 0;
    }
    false
}

fn fits_class(t: &[u8], kin: Kin, a: Ty, c: u32) -> bool
    ensures { result ≡ fits_ref (lineage t.now kin.at kin.count) (cls c) (type_of a.word) }
{
    let k = a.word % 8;
    if k == Ty::NULL {
        return true;
    }
    if k == Ty::CLASS {
        return is_below(t, kin, a.word / 64, c);
    }
    if k == Ty::ARRAY {
        return c == 0;
    }
    false
}

fn fits_array(t: &[u8], kin: Kin, a: Ty, b: Ty) -> bool
    ensures { result ≡ fits_ref (lineage t.now kin.at kin.count) (arr (nest (b.word / 64) (b.word / 8 % 8))) (type_of a.word) }
{
    let k = a.word % 8;
    if k == Ty::NULL {
        return true;
    }
    if k == Ty::ARRAY {
        return nest_fits(t, kin, a, b);
    }
    false
}

// Whether a may stand where b is asked.
pub fn assignable(t: &[u8], kin: Kin, a: Ty, b: Ty) -> bool
    ensures { result ≡ fits (lineage t.now kin.at kin.count) (type_of a.word) (type_of b.word) }
{
    let k = b.word % 8;
    if k == Ty::INT {
        return a.is_int();
    }
    if k == Ty::NULL {
        return a.is_null();
    }
    if k == Ty::CLASS {
        return fits_class(t, kin, a, b.word / 64);
    }
    if k == Ty::ARRAY {
        return fits_array(t, kin, a, b);
    }
    if k == Ty::TOP {
        return true;
    }
    a.is_uninit(b)
}

// The same, at once where both are one type, as they mostly are.
pub fn same_or_assignable(t: &[u8], kin: Kin, a: Ty, b: Ty) -> bool
    ensures { result ≡ fits (lineage t.now kin.at kin.count) (type_of a.word) (type_of b.word) }
{
    if a == b {
        return true;
    }
    assignable(t, kin, a, b)
}
