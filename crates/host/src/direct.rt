// The interpreter, asked directly by a host that keeps its own table.
ghost use Rattle.std.specs.Prelude.{◌≡◌};
ghost use Rattle.part.specs.Part.{interpreted, area_after};

use part::interpret::interpret;
use part::shapes::{Descriptor, Interpreted, State};

// Interprets a part from a state; its records are added to the area.
// All that a part needs is passed one by one, as C's export of this name has it.
pub fn halviruso_interpret(
    part: &[u8],
    widths: &[u16],
    area: &mut [u8],
    d: Descriptor,
    s: State,
) -> Interpreted
    ensures value { result ≡ interpreted widths.now d s part.now area.old }
    ensures area_after { area.new ≡ area_after widths.now d s part.now area.old }
{
    interpret(part, widths, area, d, s)
}
