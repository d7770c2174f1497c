// The elements of a part one after the other, into a working state and an area that may be left half changed.
ghost use Rattle.std.specs.Prelude.{◌≡◌, true, ◌≤◌, IfOk, IfErr, length};
ghost use Rattle.part.specs.Ranges.{hold, descriptor_fields};
ghost use Rattle.part.specs.Reading.{cut};
ghost use Rattle.part.specs.Code.{elements_in, Ready, Ran};

use super::faults::Refusal;
use super::perform::perform;
use super::reader::{What, first_parameter, read_element};
use super::shapes::{Descriptor, State};
use super::show::show_plain;

// How many elements there are, where all passed. Widths, area, descriptor and state go one by one: of a struct that lends all four each contract would have to say which of them stay.
pub fn run(
    part: &[u8],
    widths: &[u16],
    area: &mut [u8],
    d: &Descriptor,
    s: &mut State,
) -> Result<u32, Refusal>
    requires { Ready widths.now area.old s.old × (hold (descriptor_fields d.now) ≡ true) × (length part.now ≤ 8192) }
    ensures { Ran (elements_in (length area.old) widths.now d.now s.old (cut s.old.chain part.now)) (length (cut s.old.chain part.now)) s.old.used area.old result s.new area.new }
{
    let mut at: usize = 0;
    let mut count: u32 = 0;
    // A loop by offset, since that is what a refusal says; each step is as long as the element, which no iterator of std gives.
    while at < part.len() {
        let rest = &part[at..];
        let from = first_parameter(s.chain);
        let found = match read_element(rest, s.chain) {
            Ok(found) => found,
            Err(why) => return Err(Refusal {
                why,
                at: at as u32 + why.place(from),
            }),
        };
        let body = &rest[found.from..found.size];
        let done = match found.what {
            What::Characters => show_plain(body, widths, area, d, s),
            What::Sequence(function) => perform(function, body, widths, area, d, s),
        };
        if let Err(why) = done {
            return Err(Refusal {
                why,
                at: at as u32 + why.place(found.from as u32),
            });
        }
        s.chain = found.chains;
        at += found.size;
        count += 1;
    }
    Ok(count)
}
