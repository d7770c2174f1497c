// What lies on the sheet, and what is hidden.
ghost use Rattle.std.specs.Prelude.{◌≡◌, ◌&&◌, ◌+◌, leb};
ghost use Rattle.part.specs.Numbers.{origin};
ghost use Rattle.part.specs.Presenting.{hides};

use super::numbers::ORIGIN;
use super::shapes::{Descriptor, State};

// Whether the open suppression, if any, is the hidden one.
pub fn is_hidden(d: &Descriptor, s: &State) -> bool
    ensures { result ≡ hides d.now s.now }
{
    (s.suppression != 0) & (s.suppression == d.hidden)
}

// Whether what starts at a number and reaches so far lies in 0 to a size.
pub fn within(start: u32, reach: u32, size: u32) -> bool
    ensures { result ≡ (leb origin start && leb (start + reach) (origin + size)) }
{
    let end = u64::from(start) + u64::from(reach);
    (ORIGIN <= start) & (end <= u64::from(ORIGIN) + u64::from(size))
}
