// One part alone: the interpreter itself, and the check of a part.
ghost use Rattle.std.specs.Prelude.{◌≡◌};
ghost use Rattle.part.specs.Part.{interpreted, area_after};
ghost use Rattle.host.specs.Checked.{checked_at, checked};

use part::shapes::{Descriptor, Interpreted, State};

// Interprets a part from a state; its records are added to the area.
#[unsafe(no_mangle)]
pub extern "C" fn halviruso_interpret(
    part: &[u8],
    widths: &[u16],
    area: &mut [u8],
    d: Descriptor,
    s: State,
) -> Interpreted
    ensures value { result ≡ interpreted widths.now d s part.now area.old }
    ensures area_after { area.new ≡ area_after widths.now d s part.now area.old }
{
    host::direct::halviruso_interpret(part, widths, area, d, s)
}

// 0 where the rules accept the part on the paper's sheet at some increment; else 19 to 29. 15 where no descriptor has such an increment.
#[unsafe(no_mangle)]
pub extern "C" fn halviruso_check_at(part: &[u8], increment: u32) -> u32
    ensures { result ≡ checked_at increment part.now }
{
    host::check::halviruso_check_at(part, increment)
}

// The same at eight lines to the inch.
#[unsafe(no_mangle)]
pub extern "C" fn halviruso_check(part: &[u8]) -> u32
    ensures { result ≡ checked part.now }
{
    host::check::halviruso_check(part)
}
