// The requests over a lent table of entries: each tests what is lent, then the slot, and changes one entry in place.
// Each contract says that the function is its request's step: the result is the step's answer, and what is lent is left as the step leaves it.
// What a function is not lent may be anything: the step leaves it alone. Open and close are lent no widths and no record bytes, submit and take no number of open
// jobs, a take no widths.
ghost use Rattle.std.specs.Prelude.{◌≡◌, List, ℕ};
ghost use Rattle.hub.specs.Requests.{hub, Open, Submit, Take, Close, step, count_open};
ghost use Rattle.hub.specs.Code.{entry_place, replied};

use super::jobs::Entry;
use super::refusal::{Refusal, require};
use part::shapes::{Answer, Descriptor};

// Where a slot's entry stands, if what is lent has the right lengths.
fn place(lent: bool, slot: u32) -> Result<usize, Refusal>
    ensures { result ≡ entry_place lent slot }
{
    require(lent, Refusal::LentLength)?;
    require(slot < 16, Refusal::NoSlot)?;
    Ok(slot as usize)
}

// A request's answer, done or refused. The four share this and `place`; of one function with the change as a closure (tried) nothing is known of the table afterwards.
fn answer(done: Result<Answer, Refusal>) -> Answer
    ensures { result ≡ replied done }
{
    done.unwrap_or_else(Answer::from)
}

// Opens a job under a key, with a descriptor; beside the table is lent the stored number of open jobs.
pub fn halviruso_open(
    table: &mut [Entry],
    open_jobs: &mut u32,
    slot: u32,
    key: u32,
    d: Descriptor,
) -> Answer
    ensures { (widths records : List ℕ) →
        let s = step widths (hub table.old records open_jobs.old) (Open slot key d) in
        (result ≡ s.answer) × (table.new ≡ s.after.table) × (records ≡ s.after.records) × (open_jobs.new ≡ s.after.stored) }
{
    match place(table.len() == 16, slot) {
        Ok(at) => answer(table[at].open(open_jobs, key, d)),
        Err(why) => why.into(),
    }
}

// Submits a part; the records it makes go to the slot's own 4,096 bytes.
pub fn halviruso_submit(
    table: &mut [Entry],
    records: &mut [u8],
    widths: &[u16],
    slot: u32,
    key: u32,
    number: u32,
    part: &[u8],
) -> Answer
    ensures { (stored : ℕ) →
        let s = step widths.now (hub table.old records.old stored) (Submit slot key number part.now) in
        (result ≡ s.answer) × (table.new ≡ s.after.table) × (records.new ≡ s.after.records) × (stored ≡ s.after.stored) }
{
    match place(
        (table.len() == 16) & (records.len() == 65536) & (widths.len() == 1024),
        slot,
    ) {
        Ok(at) => {
            let from = 4096 * slot as usize;
            answer(table[at].submit(&mut records[from..from + 4096], widths, key, number, part))
        }
        Err(why) => why.into(),
    }
}

// Takes records out of a job's area: so many bytes were read since it was opened. The unread ones move down to the start of the slot's own 4,096 bytes.
pub fn halviruso_take(
    table: &mut [Entry],
    records: &mut [u8],
    slot: u32,
    key: u32,
    total: u64,
) -> Answer
    ensures { (widths : List ℕ) (stored : ℕ) →
        let s = step widths (hub table.old records.old stored) (Take slot key total) in
        (result ≡ s.answer) × (table.new ≡ s.after.table) × (records.new ≡ s.after.records) × (stored ≡ s.after.stored) }
{
    match place((table.len() == 16) & (records.len() == 65536), slot) {
        Ok(at) => {
            let from = 4096 * slot as usize;
            answer(table[at].take(&mut records[from..from + 4096], key, total))
        }
        Err(why) => why.into(),
    }
}

// Closes the job of this key; beside the table is lent the stored number of open jobs.
pub fn halviruso_close(table: &mut [Entry], open_jobs: &mut u32, slot: u32, key: u32) -> Answer
    ensures { (widths records : List ℕ) →
        let s = step widths (hub table.old records open_jobs.old) (Close slot key) in
        (result ≡ s.answer) × (table.new ≡ s.after.table) × (records ≡ s.after.records) × (open_jobs.new ≡ s.after.stored) }
{
    match place(table.len() == 16, slot) {
        Ok(at) => answer(table[at].close(open_jobs, key)),
        Err(why) => why.into(),
    }
}

// Counts the open jobs, damaged ones too; 0 for a table of another length.
pub fn halviruso_count(table: &[Entry]) -> u32
    ensures { result ≡ count_open table.now }
{
    if table.len() != 16 {
        return 0;
    }
    // a sum without a branch, which a filter's count has for each entry
    let mut n: u32 = 0;
    for e in table {
        n += u32::from(e.is_open());
    }
    n
}
