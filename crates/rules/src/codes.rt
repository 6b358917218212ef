// Types that are written down as one byte, as words.
ghost use Rattle.std.specs.Prelude.{◌≡◌, ◌/◌, ◌<◌};
ghost use Rattle.classfiles.specs.Descriptors.{dref};
ghost use Rattle.reader.specs.TypeCodes.{desc_of as code_desc};
ghost use Rattle.rules.specs.Types.{ini, ty_of};
ghost use Rattle.rules.specs.TypeWords.{type_of};
ghost use Rattle.rules.specs.InstructionWords.{ref_of, desc_of, element_of};
ghost use Rattle.rules.specs.TypeCodes.{code_base, code_ref};

use crate::types::Ty;

fn base(k: u8) -> u32
    ensures { (result ≡ code_base (k / 8)) × (result < 65536) }
{
    if k / 8 == 31 {
        return Ty::INT_BASE;
    }
    (k / 8) as u32
}

// A class or an array.
pub fn reference(k: u8) -> Ty
    ensures { (ref_of result.word ≡ code_ref k) × (type_of result.word ≡ ini (code_ref k)) }
{
    if k % 8 == 0 {
        return Ty {
            word: Ty::CLASS + 64 * ((k / 8) as u32),
        };
    }
    Ty {
        word: Ty::ARRAY + 8 * ((k % 8 - 1) as u32) + 64 * base(k),
    }
}

// The array of those.
pub fn array_of(k: u8) -> Ty
    ensures { element_of result.word ≡ dref (code_ref k) }
{
    if k % 8 == 0 {
        return Ty {
            word: Ty::ARRAY + 64 * ((k / 8) as u32),
        };
    }
    Ty {
        word: Ty::ARRAY + 8 * ((k % 8) as u32) + 64 * base(k),
    }
}

// Any type.
pub fn described(k: u8) -> Ty
    ensures { (desc_of result.word ≡ code_desc k) × (type_of result.word ≡ ty_of (code_desc k)) }
{
    if k == 248 {
        return Ty { word: Ty::INT };
    }
    reference(k)
}
