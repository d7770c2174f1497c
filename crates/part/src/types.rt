// The table of types: each TYPE without its low bit, and the LENGTHs that it takes.
ghost use Rattle.std.specs.Prelude.{◌≡◌, ◌+◌, ◌≤◌, ℕ};
ghost use Rattle.part.specs.Ranges.{◌to◌, ◌∈◌};
ghost use Rattle.part.specs.Types.{all, ◌takes◌};
ghost use Rattle.part.specs.Code.{verdict, refused_from, Typed, suited, lengths_of, lengths_in, cut_short};

use super::faults::Fault;

// The nineteen types, in the paper's order.
#[derive(Clone, Copy, PartialEq, Eq, Debug)]
pub enum Kind {
    Ami,
    Amb,
    Rmi,
    Rmb,
    Bln,
    Sim,
    Sbi,
    Sia,
    Svi,
    Scfl,
    Stc,
    Sto,
    Bsu,
    Esu,
    Dir,
    Dbr,
    Trn,
    Rps,
    Nop,
}

// LENGTHs from the least to the greatest, but for those of a hole (0 and 0: none, as in the rule book's row).
#[derive(Clone, Copy, PartialEq, Eq, Debug)]
pub struct Span {
    pub least: u8,
    pub greatest: u8,
    pub hole_from: u8,
    pub hole_to: u8,
}

// All LENGTHs from one to another.
const fn all(least: u8, greatest: u8) -> Span
    ensures { lengths_in result ≡ all least greatest }
{
    Span {
        least,
        greatest,
        hole_from: 0,
        hole_to: 0,
    }
}

// DIR and DBR: with no width, or with all of it.
const FOUR_OR_SEVEN: Span = Span {
    least: 4,
    greatest: 7,
    hole_from: 5,
    hole_to: 6,
};

impl TryFrom<u8> for Kind {
    type Error = Fault;

    ghost try_from_gives = { Typed };

    // The type of a function code.
    #[tactic(auto, unfolding(crate::specs::Types::types))]
    #[inline(always)]
    fn try_from(function: u8) -> Result<Kind, Fault> {
        match function {
            0xC6 => Ok(Kind::Ami),
            0xD2 => Ok(Kind::Amb),
            0xC8 => Ok(Kind::Rmi),
            0xD4 => Ok(Kind::Rmb),
            0xD8 => Ok(Kind::Bln),
            0xC0 => Ok(Kind::Sim),
            0xD0 => Ok(Kind::Sbi),
            0xC2 => Ok(Kind::Sia),
            0xC4 => Ok(Kind::Svi),
            0xF0 => Ok(Kind::Scfl),
            0x74 => Ok(Kind::Stc),
            0xF6 => Ok(Kind::Sto),
            0xF2 => Ok(Kind::Bsu),
            0xF4 => Ok(Kind::Esu),
            0xE4 => Ok(Kind::Dir),
            0xE6 => Ok(Kind::Dbr),
            0xDA => Ok(Kind::Trn),
            0xEE => Ok(Kind::Rps),
            0xF8 => Ok(Kind::Nop),
            _ => Err(Fault::UnknownType),
        }
    }
}

impl Kind {
    // The table: the LENGTHs that it takes. An array of these rows, indexed by the type, made real parts a third slower.
    #[tactic(auto, unfolding(crate::specs::Types::types))]
    fn lengths(self) -> Span
        ensures { lengths_in result ≡ lengths_of self }
    {
        match self {
            Kind::Ami => all(4, 4),
            Kind::Amb => all(4, 4),
            Kind::Rmi => all(4, 4),
            Kind::Rmb => all(4, 4),
            Kind::Bln => all(2, 2),
            Kind::Sim => all(4, 4),
            Kind::Sbi => all(4, 4),
            Kind::Sia => all(4, 5),
            Kind::Svi => all(4, 4),
            Kind::Scfl => all(3, 3),
            Kind::Stc => all(4, 5),
            Kind::Sto => all(6, 6),
            Kind::Bsu => all(3, 3),
            Kind::Esu => all(3, 3),
            Kind::Dir => FOUR_OR_SEVEN,
            Kind::Dbr => FOUR_OR_SEVEN,
            Kind::Trn => all(2, 255),
            Kind::Rps => all(4, 255),
            Kind::Nop => all(2, 255),
        }
    }

    // Whether it takes a LENGTH.
    fn takes(self, n: usize) -> bool
        ensures { result ≡ (lengths_of self takes n) }
    {
        let row = self.lengths();
        lies(n, row.least, row.greatest) & !lies(n, row.hole_from, row.hole_to)
    }

    // 22 where it doesn't take the LENGTH of these parameters, which counts itself, TYPE and the parameters.
    pub fn suits(self, p: &[u8]) -> Result<(), Fault>
        ensures { verdict result tt ≡ suited self p.now }
    {
        if !self.takes(2 + p.len()) {
            return Err(Fault::WrongLength);
        }
        Ok(())
    }
}

// Whether a LENGTH lies from one to another.
fn lies(n: usize, first: u8, last: u8) -> bool
    ensures { result ≡ (n ∈ first to last) }
{
    (usize::from(first) <= n) & (n <= usize::from(last))
}

// Why a sequence with a cut body is refused: 23, 22, or else 20.
#[tactic(auto, using(crate::proofs::Rows::has_row))]
#[cold]
#[inline(never)]
pub fn misfit(function: u8, n: usize) -> Fault
    ensures { (at : ℕ) → at ≤ 2 → refused_from (at + 2) result ≡ cut_short at function n }
{
    match Kind::try_from(function) {
        Err(unknown) => unknown,
        Ok(kind) => if kind.takes(n) {
            Fault::CutSequence
        } else {
            Fault::WrongLength
        },
    }
}
