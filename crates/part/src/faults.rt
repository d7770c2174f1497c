// Why a part is refused, and the byte that a refusal points at.
ghost use Rattle.std.specs.Prelude.{◌≡◌, ◌≤◌};
ghost use Rattle.part.specs.Code.{fault_code, place_of};

// Document 01's refusals of a part, in the order of their codes.
#[derive(Clone, Copy, PartialEq, Eq, Debug)]
pub enum Fault {
    // An area not of 4,096 bytes, or not of 1,024 widths.
    WrongSizes,
    // A state out of range.
    WrongState,
    // A descriptor out of range.
    WrongDescriptor,
    // A part above 8,192 bytes.
    LongPart,
    // The part ends in the middle of a sequence.
    CutSequence,
    // X'2B' is followed by another byte than X'D3'.
    NoClass,
    WrongLength,
    UnknownType,
    // The first parameter.
    WrongValue,
    // The second parameter of SIA, STO, and DIR and DBR.
    WrongSecond,
    WrongFont,
    // A BSU while one is open, or an ESU of another than the open one.
    WrongSuppression,
    OffSheet,
    OutOfRange,
    NoRoom,
}

impl Fault {
    // Its code in an answer.
    pub fn code(self) -> u32
        ensures { result ≡ fault_code self }
    {
        match self {
            Fault::WrongSizes => 10,
            Fault::WrongState => 12,
            Fault::WrongDescriptor => 15,
            Fault::LongPart => 19,
            Fault::CutSequence => 20,
            Fault::NoClass => 21,
            Fault::WrongLength => 22,
            Fault::UnknownType => 23,
            Fault::WrongValue | Fault::WrongSecond => 24,
            Fault::WrongFont => 25,
            Fault::WrongSuppression => 26,
            Fault::OffSheet => 27,
            Fault::OutOfRange => 28,
            Fault::NoRoom => 29,
        }
    }

    // The byte that it points at, from the element's first on, where characters or parameters begin at `from`: LENGTH and TYPE stand in front of these.
    pub fn place(self, from: u32) -> u32
        requires { from ≤ 4 }
        ensures { (result ≡ place_of from self) × (result ≤ 6) }
    {
        match self {
            Fault::NoClass => 1,
            Fault::WrongLength => from.saturating_sub(2),
            Fault::UnknownType => from.saturating_sub(1),
            Fault::WrongValue | Fault::WrongFont => from,
            Fault::WrongSecond => from + 2,
            _ => 0,
        }
    }
}

// A fault, and the byte that it points at.
#[derive(Clone, Copy, PartialEq, Eq, Debug)]
pub struct Refusal {
    pub why: Fault,
    pub at: u32,
}
