// The requests that change an entry and the stored number of open jobs: open and close.
ghost use Rattle.std.specs.Prelude.{◌≡◌, true};
ghost use Rattle.part.specs.Ranges.{hold, descriptor_fields};
ghost use Rattle.hub.specs.Entries.{is_open, is_open_under, damaged, first_state};
ghost use Rattle.hub.specs.Requests.{may_open, may_close, opening, closing, one_more, one_less};
ghost use Rattle.hub.specs.Code.{tested, replied};

use super::jobs::Entry;
use super::refusal::{Refusal, require};
use part::numbers::{ONES, ORIGIN};
use part::ranges::{descriptor_holds, state_holds};
use part::shapes::{Answer, Descriptor, Point, State};

// The answer of an open, a take and a close that were done.
pub const DONE: Answer = Answer {
    code: 0,
    first: 0,
    second: 0,
};

// The state that a job begins in.
#[tactic(auto, using(crate::proofs::Ranging::initial_low))]
fn first_state(d: Descriptor) -> State
    requires { hold (descriptor_fields d) ≡ true }
    ensures { result ≡ first_state d }
{
    let i = ORIGIN + d.initial.i;
    let b = ORIGIN + d.initial.b;
    State {
        at: Point { i, b },
        margin: d.margin,
        increment: d.increment,
        adjustment: d.adjustment,
        direction: d.direction,
        font: d.font,
        colour: d.colour,
        space: ONES,
        suppression: 0,
        chain: 0,
        used: 0,
    }
}

impl Entry {
    // Any mark but 0 is an open job's.
    pub(crate) fn is_open(&self) -> bool
        ensures { result ≡ is_open self.now }
    {
        self.mark != 0
    }

    // Whether it is open with a number out of its range.
    #[tactic(auto, using(crate::proofs::Ranging::entry_holds))]
    pub(crate) fn is_damaged(&self) -> bool
        ensures { result ≡ damaged self.now }
    {
        let whole = (self.mark <= 1)
            & descriptor_holds(self.descriptor)
            & state_holds(self.state)
            & (1..=65536).contains(&self.next);
        self.is_open() & !whole
    }

    pub(crate) fn is_open_under(&self, key: u32) -> bool
        ensures { result ≡ is_open_under self.now key }
    {
        self.is_open() & (self.key == key)
    }

    // An open's checks, in their order.
    #[tactic(auto, unfolding(crate::specs::Requests::may_open))]
    fn may_open(&self, key: u32, d: Descriptor, stored: u32) -> Result<(), Refusal>
        ensures { tested result ≡ may_open key d stored self.now }
    {
        require(!self.is_damaged(), Refusal::Damaged)?;
        require(!self.is_open_under(key), Refusal::AlreadyTaken)?;
        require(!self.is_open(), Refusal::Busy)?;
        require(self.key < key, Refusal::OldKey)?;
        require(descriptor_holds(d), Refusal::BadDescriptor)?;
        require(stored <= 15, Refusal::StoredNumber)
    }

    // Opens a job, and counts it.
    #[tactic(auto, using(crate::proofs::Passing::opens), unfolding(crate::specs::Requests::opening, crate::specs::Requests::one_more))]
    pub(crate) fn open(
        &mut self,
        open_jobs: &mut u32,
        key: u32,
        d: Descriptor,
    ) -> Result<Answer, Refusal>
        ensures entry { self.new ≡ (opening key d open_jobs.old self.old).entry }
        ensures answer { replied result ≡ (opening key d open_jobs.old self.old).answer }
        ensures number { open_jobs.new ≡ one_more key d open_jobs.old self.old }
    {
        self.may_open(key, d, *open_jobs)?;
        *self = Entry {
            key,
            mark: 1,
            descriptor: d,
            state: first_state(d),
            next: 1,
            taken: 0,
        };
        *open_jobs += 1;
        Ok(DONE)
    }

    // A close's checks, in their order.
    #[tactic(auto, unfolding(crate::specs::Requests::may_close))]
    fn may_close(&self, key: u32, stored: u32) -> Result<(), Refusal>
        ensures { tested result ≡ may_close key stored self.now }
    {
        require(!self.is_damaged(), Refusal::Damaged)?;
        require(
            !(!self.is_open() & (self.key == key) & (0 < key)),
            Refusal::AlreadyTaken,
        )?;
        require(self.is_open_under(key), Refusal::NoJob)?;
        require((1..=16).contains(&stored), Refusal::StoredNumber)
    }

    // Closes the job, and counts it no more.
    #[tactic(auto, using(crate::proofs::Passing::falls), unfolding(crate::specs::Requests::closing, crate::specs::Requests::one_less))]
    pub(crate) fn close(&mut self, open_jobs: &mut u32, key: u32) -> Result<Answer, Refusal>
        ensures entry { self.new ≡ (closing key open_jobs.old self.old).entry }
        ensures answer { replied result ≡ (closing key open_jobs.old self.old).answer }
        ensures number { open_jobs.new ≡ one_less key open_jobs.old self.old }
    {
        self.may_close(key, *open_jobs)?;
        self.mark = 0;
        *open_jobs -= 1;
        Ok(DONE)
    }
}
