// The sheet that the paper tries parts on, at some increment: a job of its own for one part, with one width for all characters.
ghost use Rattle.std.specs.Prelude.{◌≡◌, replicate};
ghost use Rattle.part.specs.Part.{interpreted, area_after};
ghost use Rattle.part.specs.Sheets.{lined, begun};

use super::interpret::interpret;
use super::shapes::{Descriptor, Interpreted, Point, State};

// 12,240 by 15,840, rule width 14, colour X'FF07', all else 0.
fn descriptor(increment: u32) -> Descriptor
    ensures { result ≡ lined increment }
{
    Descriptor {
        size: Point { i: 12240, b: 15840 },
        initial: Point { i: 0, b: 0 },
        margin: 0,
        increment,
        adjustment: 0,
        direction: 0,
        font: 0,
        colour: 0xFF07,
        rule: 14,
        hidden: 0,
    }
}

// The state of a fresh job under that descriptor.
pub fn sheet_state(increment: u32) -> State
    ensures { result ≡ begun increment }
{
    State {
        at: Point { i: 32768, b: 32768 },
        margin: 0,
        increment,
        adjustment: 0,
        direction: 0,
        font: 0,
        colour: 0xFF07,
        space: 65535,
        suppression: 0,
        chain: 0,
        used: 0,
    }
}

// A part on that sheet, where the job stands at `s` and all widths are the same.
pub fn on_sheet(part: &[u8], width: u16, increment: u32, area: &mut [u8], s: State) -> Interpreted
    ensures value { result ≡ interpreted (replicate 1024 width) (lined increment) s part.now area.old }
    ensures area_after { area.new ≡ area_after (replicate 1024 width) (lined increment) s part.now area.old }
{
    let widths = [width; 1024];
    interpret(part, &widths, area, descriptor(increment), s)
}
