// The requests over a lent table, and a fresh one.
ghost use Rattle.std.specs.Prelude.{◌≡◌, List, ℕ};
ghost use Rattle.hub.specs.Entries.{fresh_table};
ghost use Rattle.hub.specs.Requests.{hub, Open, Submit, Take, Close, step, count_open};

use host::fresh::Table;
use hub::jobs::Entry;
use part::shapes::{Answer, Descriptor};

// A fresh table: every slot closed, every last key 0.
#[unsafe(no_mangle)]
pub extern "C" fn halviruso_fresh() -> Table
    ensures { result.entries ≡ fresh_table }
{
    host::fresh::halviruso_fresh()
}

// Opens a job under a key, with a descriptor; beside the table is lent the stored number of open jobs.
#[unsafe(no_mangle)]
pub extern "C" fn halviruso_open(
    table: &mut [Entry],
    open_jobs: &mut u32,
    slot: u32,
    key: u32,
    d: Descriptor,
) -> Answer
    ensures { (widths records : List ℕ) →
        let s = step widths (hub table.old records open_jobs.old) (Open slot key d) in
        (result ≡ s.answer) × (table.new ≡ s.after.table) × (records ≡ s.after.records) × (open_jobs.new ≡ s.after.stored) }
{
    hub::table::halviruso_open(table, open_jobs, slot, key, d)
}

// Submits a part; the records it makes go to the slot's own 4,096 bytes.
#[unsafe(no_mangle)]
pub extern "C" fn halviruso_submit(
    table: &mut [Entry],
    records: &mut [u8],
    widths: &[u16],
    slot: u32,
    key: u32,
    number: u32,
    part: &[u8],
) -> Answer
    ensures { (stored : ℕ) →
        let s = step widths.now (hub table.old records.old stored) (Submit slot key number part.now) in
        (result ≡ s.answer) × (table.new ≡ s.after.table) × (records.new ≡ s.after.records) × (stored ≡ s.after.stored) }
{
    hub::table::halviruso_submit(table, records, widths, slot, key, number, part)
}

// Takes records out of a job's area: so many bytes were read since it was opened.
#[unsafe(no_mangle)]
pub extern "C" fn halviruso_take(
    table: &mut [Entry],
    records: &mut [u8],
    slot: u32,
    key: u32,
    total: u64,
) -> Answer
    ensures { (widths : List ℕ) (stored : ℕ) →
        let s = step widths (hub table.old records.old stored) (Take slot key total) in
        (result ≡ s.answer) × (table.new ≡ s.after.table) × (records.new ≡ s.after.records) × (stored ≡ s.after.stored) }
{
    hub::table::halviruso_take(table, records, slot, key, total)
}

// Closes the job of this key; beside the table is lent the stored number of open jobs.
#[unsafe(no_mangle)]
pub extern "C" fn halviruso_close(
    table: &mut [Entry],
    open_jobs: &mut u32,
    slot: u32,
    key: u32,
) -> Answer
    ensures { (widths records : List ℕ) →
        let s = step widths (hub table.old records open_jobs.old) (Close slot key) in
        (result ≡ s.answer) × (table.new ≡ s.after.table) × (records ≡ s.after.records) × (open_jobs.new ≡ s.after.stored) }
{
    hub::table::halviruso_close(table, open_jobs, slot, key)
}

// Counts the open jobs, damaged ones too; 0 for a table of another length.
#[unsafe(no_mangle)]
pub extern "C" fn halviruso_count(table: &[Entry]) -> u32
    ensures { result ≡ count_open table.now }
{
    hub::table::halviruso_count(table)
}
