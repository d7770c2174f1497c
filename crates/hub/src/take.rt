// The request that takes records out of a job's area: the entry, and the area of its slot.
ghost use Rattle.std.specs.Prelude.{◌≡◌, length};
ghost use Rattle.hub.specs.Entries.{all_written};
ghost use Rattle.hub.specs.Requests.{may_take, taking, area_left};
ghost use Rattle.hub.specs.Code.{tested, replied};

use super::drain::{meets, move_down};
use super::entries::DONE;
use super::jobs::Entry;
use super::refusal::{Refusal, require};
use part::shapes::Answer;

impl Entry {
    // The record bytes that were written since the job was opened.
    fn all_written(&self) -> u64
        ensures { result ≡ all_written self.now }
    {
        self.taken as u64 + self.state.used as u64
    }

    // A take's checks, in their order.
    #[tactic(auto, unfolding(crate::specs::Requests::may_take))]
    fn may_take(&self, area: &[u8], key: u32, total: u64) -> Result<(), Refusal>
        requires { length area.now ≡ 4096 }
        ensures { tested result ≡ may_take key total area.now self.now }
    {
        let taken = self.taken as u64;
        require(!self.is_damaged(), Refusal::Damaged)?;
        require(self.is_open_under(key), Refusal::NoJob)?;
        require(taken < total, Refusal::AlreadyTaken)?;
        require(total <= 4294967295, Refusal::BadTotal)?;
        require(total <= self.all_written(), Refusal::BadTotal)?;
        let used = self.state.used as usize;
        require(
            meets(&area[..used], (total - taken) as usize),
            Refusal::BadTotal,
        )
    }

    // Takes records out of the area, and notes how many bytes were taken.
    #[tactic(auto, using(crate::proofs::Passing::takes), unfolding(crate::specs::Requests::taking, crate::specs::Requests::area_left))]
    pub(crate) fn take(&mut self, area: &mut [u8], key: u32, total: u64) -> Result<Answer, Refusal>
        requires { length area.old ≡ 4096 }
        ensures entry { self.new ≡ (taking key total area.old self.old).entry }
        ensures answer { replied result ≡ (taking key total area.old self.old).answer }
        ensures area_after { area.new ≡ area_left key total area.old self.old }
    {
        self.may_take(area, key, total)?;
        let more = (total - self.taken as u64) as usize;
        move_down(area, more, self.state.used as usize);
        self.state.used = (self.all_written() - total) as u32;
        self.taken = total as u32;
        Ok(DONE)
    }
}
