// Why bytes are refused, and where.
ghost use Rattle.std.specs.Prelude.{◌≡◌, ℕ};
ghost use Rattle.texts.specs.Faults.{number};

// What is wrong, in the order of the verdicts' numbers.
#[derive(Clone, Copy, Debug, PartialEq, Eq)]
pub enum Refusal {
    Size,
    CutShort,
    Version,
    Limit,
    Constant,
    Access,
    Malformed,
    Twice,
    Missing,
    CodeShape,
    Opcode,
    Target,
    Named,
    FrameTable,
    Depth,
    Operand,
    Flow,
    Construction,
    Lent,
}

impl Refusal {
    // The verdict's number.
    pub fn number(self) -> u32
        ensures { result ≡ number self }
    {
        match self {
            Refusal::Size => 1,
            Refusal::CutShort => 2,
            Refusal::Version => 3,
            Refusal::Limit => 4,
            Refusal::Constant => 5,
            Refusal::Access => 6,
            Refusal::Malformed => 7,
            Refusal::Twice => 8,
            Refusal::Missing => 9,
            Refusal::CodeShape => 10,
            Refusal::Opcode => 11,
            Refusal::Target => 12,
            Refusal::Named => 13,
            Refusal::FrameTable => 14,
            Refusal::Depth => 15,
            Refusal::Operand => 16,
            Refusal::Flow => 17,
            Refusal::Construction => 18,
            Refusal::Lent => 20,
        }
    }
}

// What a reading that fails hands on: it stands for a number and a place.
pub trait Reason: Copy {
    ghost number: { Self → ℕ };

    ghost place: { Self → ℕ };

    // Too much of what stands at q.
    fn past_limit(q: usize) -> Self
        ensures { (number result ≡ 4) × (place result ≡ q) };
}

// The first thing that is wrong, and its place.
#[derive(Clone, Copy, Debug, PartialEq, Eq)]
pub struct Fault(pub Refusal, pub usize);

impl Reason for Fault {
    ghost number = { λ f. number f.0 };

    ghost place = { λ f. f.1 };

    fn past_limit(q: usize) -> Fault {
        Fault(Refusal::Limit, q)
    }
}

// Any number with any place.
impl Reason for (usize, usize) {
    ghost number = { λ f. f.0 };

    ghost place = { λ f. f.1 };

    fn past_limit(q: usize) -> (usize, usize) {
        (4, q)
    }
}

// What was read, and the position past it.
#[derive(Clone, Copy)]
pub struct Got<T> {
    pub val: T,
    pub at: usize,
}
