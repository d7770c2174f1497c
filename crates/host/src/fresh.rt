// Where a table begins its life.
ghost use Rattle.std.specs.Prelude.{◌≡◌};
ghost use Rattle.hub.specs.Entries.{fresh as fresh_entry, fresh_table};

use hub::jobs::Entry;
use part::numbers::{ONES, ORIGIN};
use part::shapes::{Descriptor, Point, State};

// The entries that a host lends, laid out as C has them.
#[repr(C)]
#[derive(Drop)]
pub struct Table {
    pub entries: [Entry; 16],
}

// Closed, with last key 0. A state has no default: its place is kept from ORIGIN, and an absent space is all ones.
#[tactic(auto, unfolding(hub::specs::Entries::fresh))]
fn fresh_entry() -> Entry
    ensures { result ≡ fresh_entry }
{
    Entry {
        key: 0,
        mark: 0,
        descriptor: Descriptor::default(),
        state: State {
            at: Point {
                i: ORIGIN,
                b: ORIGIN,
            },
            margin: 0,
            increment: 0,
            adjustment: 0,
            direction: 0,
            font: 0,
            colour: 0,
            space: ONES,
            suppression: 0,
            chain: 0,
            used: 0,
        },
        next: 1,
        taken: 0,
    }
}

// A fresh table: every slot closed, every last key 0.
pub fn halviruso_fresh() -> Table
    ensures { result.entries ≡ fresh_table }
{
    let entries = [fresh_entry(); 16];
    Table { entries }
}
