// The request that takes a part: the entry, and the area of its slot.
ghost use Rattle.std.specs.Prelude.{◌≡◌};
ghost use Rattle.hub.specs.Requests.{judged, may_submit, submitting, area_filled};
ghost use Rattle.hub.specs.Code.{tested, replied};

use super::jobs::Entry;
use super::refusal::{Refusal, require};
use part::interpret::interpret;
use part::shapes::Answer;

// A part's number against the next one.
#[tactic(auto, unfolding(crate::specs::Requests::judged))]
fn judge(next: u32, number: u32) -> Result<(), Refusal>
    ensures { tested result ≡ judged next number }
{
    require((1..=65535).contains(&number), Refusal::BadNumber)?;
    require(next <= number, Refusal::AlreadyTaken)?;
    require(number <= next, Refusal::Gap)
}

impl Entry {
    // A submit's checks, in their order.
    #[tactic(auto, unfolding(crate::specs::Requests::may_submit))]
    fn may_submit(&self, key: u32, number: u32) -> Result<(), Refusal>
        ensures { tested result ≡ may_submit key number self.now }
    {
        require(!self.is_damaged(), Refusal::Damaged)?;
        require(self.is_open_under(key), Refusal::NoJob)?;
        judge(self.next, number)
    }

    // Takes a part, and its records into the area. The answer is the part's own; where its elements all pass, its state is the entry's, and next grows.
    #[tactic(auto, using(crate::proofs::Passing::next_low), unfolding(crate::specs::Requests::submitting, crate::specs::Requests::area_filled))]
    pub(crate) fn submit(
        &mut self,
        area: &mut [u8],
        widths: &[u16],
        key: u32,
        number: u32,
        part: &[u8],
    ) -> Result<Answer, Refusal>
        ensures entry { self.new ≡ (submitting widths.now key number part.now area.old self.old).entry }
        ensures answer { replied result ≡ (submitting widths.now key number part.now area.old self.old).answer }
        ensures area_after { area.new ≡ area_filled widths.now key number part.now area.old self.old }
    {
        self.may_submit(key, number)?;
        let r = interpret(part, widths, area, self.descriptor, self.state);
        // a part's answer has C's numbers
        if r.answer.code == 0 {
            self.state = r.state;
            self.next += 1;
        }
        Ok(r.answer)
    }
}
