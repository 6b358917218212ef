// Instructions by their forms, names resolved to numbers, in groups by what they do to a state.
ghost use Rattle.std.specs.Prelude.{◌≡◌};
ghost use Rattle.rules.specs.Instruction as rule;
ghost use Rattle.rules.specs.InstructionWords.{op_of, op_by, division_of, division_by, asked_of};
ghost use Rattle.rules.specs.Known.{callee_in};
ghost use Rattle.rules.specs.Opcodes.{test_of};

use crate::types::Ty;

// A field: the class that the reference names, the class that has it, its place among an object's fields, its type.
#[derive(Clone, Copy)]
pub struct Field {
    pub named: u16,
    pub owner: u16,
    pub slot: u16,
    pub of: Ty,
}

// A method: the class that the reference names, the class that has it, its number there.
#[derive(Clone, Copy)]
pub struct Callee {
    pub named: u16,
    pub owner: u16,
    pub index: u16,
}

// What two integers are put together by.
#[derive(Clone, Copy, Debug, PartialEq, Eq)]
pub enum Op {
    Add,
    Sub,
    Mul,
    Shl,
    Shr,
    Ushr,
    And,
    Or,
    Xor,
}

// What stands for an operation: itself or its number, any that is not listed for addition.
pub trait Operation: Copy {
    ghost means: { Self → rule.Op };

    fn op(self) -> Op
        ensures { op_of result ≡ means self };
}

impl Operation for Op {
    ghost means = { op_of };

    fn op(self) -> Op {
        self
    }
}

impl Operation for u8 {
    ghost means = { op_by };

    fn op(self) -> Op {
        match self {
            1 => Op::Sub,
            2 => Op::Mul,
            3 => Op::Shl,
            4 => Op::Shr,
            5 => Op::Ushr,
            6 => Op::And,
            7 => Op::Or,
            8 => Op::Xor,
            _ => Op::Add,
        }
    }
}

#[derive(Clone, Copy, Debug, PartialEq, Eq)]
pub enum Division {
    Quotient,
    Remainder,
}

// What stands for a division: itself or its number, any but 0 for the remainder.
pub trait Dividing: Copy {
    ghost means: { Self → rule.Division };

    fn division(self) -> Division
        ensures { division_of result ≡ means self };
}

impl Dividing for Division {
    ghost means = { division_of };

    fn division(self) -> Division {
        self
    }
}

impl Dividing for u8 {
    ghost means = { division_by };

    fn division(self) -> Division {
        match self {
            0 => Division::Quotient,
            _ => Division::Remainder,
        }
    }
}

// What a branch asks of two integers, or of one and 0.
#[derive(Clone, Copy, Debug, PartialEq, Eq)]
pub enum Test {
    Eq,
    Ne,
    Lt,
    Ge,
    Gt,
    Le,
}

// What stands for a test: itself or its number, any that is not listed for equality.
pub trait Asking: Copy {
    ghost means: { Self → rule.Test };

    fn test(self) -> Test
        ensures { asked_of result ≡ means self };
}

impl Asking for Test {
    ghost means = { asked_of };

    fn test(self) -> Test {
        self
    }
}

impl Asking for u8 {
    ghost means = { test_of };

    fn test(self) -> Test {
        match self {
            1 => Test::Ne,
            2 => Test::Lt,
            3 => Test::Ge,
            4 => Test::Gt,
            5 => Test::Le,
            _ => Test::Eq,
        }
    }
}

// What is taken and left is known from the form alone. Newarray holds the array's type.
#[derive(Clone, Copy)]
pub enum Plain {
    Nop,
    Aconstnull,
    Pop,
    Ineg,
    Iaload,
    Iastore,
    Aastore,
    Iconst(u32),
    Ibin(Op),
    Idiv(Division),
    Newarray(Ty),
    Checkcast(Ty),
    Instanceof(Ty),
    Getfield(Field),
    Putfield(Field),
}

// The test and the target; of two references or one with null, whether equal ones branch.
#[derive(Clone, Copy)]
pub enum Branch {
    Goto(u16),
    Ifint(Test, u16),
    Ificmp(Test, u16),
    Ifacmp(bool, u16),
    Ifnull(bool, u16),
}

#[derive(Clone, Copy)]
pub enum Local {
    Iload(u16),
    Aload(u16),
    Istore(u16),
    Astore(u16),
    Iinc(u16, u32),
}

// What is left depends on what is taken.
#[derive(Clone, Copy)]
pub enum Stack {
    Dup,
    Dupx1,
    Swap,
    Arraylength,
    Aaload,
}

#[derive(Clone, Copy)]
pub enum Leave {
    Athrow,
    Ireturn,
    Areturn,
    Return,
}

#[derive(Clone, Copy)]
pub enum Call {
    Virtual(Callee),
    Special(Callee),
    Static(Callee),
}

impl Call {
    // The method, however it is called.
    pub fn callee(self) -> Callee
        ensures { result ≡ callee_in self }
    {
        match self {
            Call::Virtual(m) => m,
            Call::Special(m) => m,
            Call::Static(m) => m,
        }
    }
}

#[derive(Clone, Copy)]
pub enum Instr {
    Simple(Plain),
    Jump(Branch),
    OnLocal(Local),
    OnStack(Stack),
    Leaving(Leave),
    New(u16),
    Calling(Call),
    Illegal,
    Unresolved,
}
