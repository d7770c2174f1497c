// Why a request was refused, before a part's own elements. The names are those of the C header.
ghost use Rattle.std.specs.Prelude.{◌≡◌};
ghost use Rattle.part.specs.Checks.{require};
ghost use Rattle.hub.specs.Requests.{refusal};
ghost use Rattle.hub.specs.Code.{code_for, tested};

use part::shapes::Answer;

// Each with the code that is answered for it.
#[derive(Clone, Copy, PartialEq, Eq, Debug)]
pub enum Refusal {
    AlreadyTaken = 1,
    LentLength = 10,
    NoSlot = 11,
    Damaged = 12,
    Busy = 13,
    OldKey = 14,
    BadDescriptor = 15,
    NoJob = 16,
    BadNumber = 17,
    Gap = 18,
    BadTotal = 30,
    StoredNumber = 32,
}

impl From<Refusal> for Answer {
    ghost from_gives = { λ why a. a ≡ refusal (code_for why) };

    fn from(why: Refusal) -> Answer {
        Answer {
            code: why as u32,
            first: 0,
            second: 0,
        }
    }
}

// One test of a check.
pub fn require(ok: bool, why: Refusal) -> Result<(), Refusal>
    ensures { tested result ≡ require ok (code_for why) }
{
    if ok { Ok(()) } else { Err(why) }
}
