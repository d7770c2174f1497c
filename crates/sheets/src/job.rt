// A job on the paper's sheet, and the parts that it is given.
ghost use Rattle.std.specs.Prelude.{◌≡◌, ◌+◌, ◌-◌, ◌/◌, min, length, take, replicate};
ghost use Rattle.arrayvec.specs.ArrayVec.{array_vec_len};
ghost use Rattle.part.specs.Part.{interpreted, area_after};
ghost use Rattle.part.specs.Sheets.{lined, begun};
ghost use Rattle.sheets.specs.Hex.{Spelled};

use super::hex::{Hex, decode};
use arrayvec::ArrayVec;
use part::shapes::{Answer, State};
use part::sheet::{on_sheet, sheet_state};
use std::fmt;

// Six lines to the inch.
const INCREMENT: u32 = 240;

// The bytes that are printed are those that are run, so a part that was read wrong shows.
#[derive(Drop)]
pub struct Part {
    pub bytes: ArrayVec<u8, 64>,
}

impl Part {
    pub fn read(hex: &str) -> Part
        ensures end { array_vec_len result.bytes ≡ min (length hex.now / 2) 64 }
        ensures spelled { Spelled hex.now 0 (array_vec_len result.bytes) result.bytes.items }
    {
        let mut part = Part {
            bytes: ArrayVec::new(),
        };
        part.add(hex);
        part
    }

    pub fn add(&mut self, hex: &str)
        ensures kept { take (array_vec_len self.old.bytes) self.new.bytes.items ≡ self.old.bytes.items }
        ensures end { array_vec_len self.new.bytes ≡ array_vec_len self.old.bytes + min (length hex.now / 2) (64 - array_vec_len self.old.bytes) }
        ensures spelled { Spelled hex.now (array_vec_len self.old.bytes) (array_vec_len self.new.bytes - array_vec_len self.old.bytes) self.new.bytes.items }
    {
        decode(hex.as_bytes(), &mut self.bytes);
    }
}

impl fmt::Display for Part {
    fn fmt<W: fmt::Write>(&self, f: &mut fmt::Formatter<W>) -> fmt::Result {
        let bytes = self.bytes.as_slice();
        if bytes.is_empty() {
            return write!(f, "empty");
        }
        write!(f, "{}", Hex(bytes))
    }
}

// Its characters all have one width.
#[derive(Drop)]
pub struct Job {
    pub width: u16,
    pub state: State,
    pub area: [u8; 4096],
}

impl Job {
    pub fn new(width: u16) -> Job
        ensures width { result.width ≡ width }
        ensures state { result.state ≡ begun 240 }
        ensures area { result.area ≡ replicate 4096 0 }
    {
        Job {
            width,
            state: sheet_state(INCREMENT),
            area: [0; 4096],
        }
    }

    // The next part goes on from the state that this one left.
    pub fn submit(&mut self, part: &Part) -> Answer
        ensures answered { let r = interpreted (replicate 1024 self.old.width) (lined 240) self.old.state part.now.bytes.items self.old.area in
            (result ≡ r.answer) × (self.new.state ≡ r.state) }
        ensures area { self.new.area ≡ area_after (replicate 1024 self.old.width) (lined 240) self.old.state part.now.bytes.items self.old.area }
        ensures width { self.new.width ≡ self.old.width }
    {
        let part = part.bytes.as_slice();
        let r = on_sheet(part, self.width, INCREMENT, &mut self.area, self.state);
        self.state = r.state;
        r.answer
    }
}
