// The ranges of the descriptor's and the state's numbers.
ghost use Rattle.std.specs.Prelude.{◌≡◌, ◌&&◌, leb};
ghost use Rattle.part.specs.Ranges.{colours, ◌∈◌, hold, descriptor_fields, state_fields};

use super::numbers::ONES;
use super::shapes::{Descriptor, State};

// Whether a number lies from 1 to 32,767.
fn is_size(n: u32) -> bool
    ensures { result ≡ (leb 1 n && leb n 32767) }
{
    (1 <= n) & (n <= 32767)
}

// Whether a number is a colour of the descriptor's range.
pub fn is_colour(v: u32) -> bool
    ensures { result ≡ (v ∈ colours) }
{
    (v == 0) | (v == 0xFF00) | (v == 0xFF07)
}

// Whether every number of a descriptor is in its range. Tested from the last to the first, which the back end makes better code of.
pub fn descriptor_holds(d: Descriptor) -> bool
    ensures { result ≡ hold (descriptor_fields d) }
{
    (d.hidden <= 127)
        & (d.rule <= 192)
        & is_colour(d.colour)
        & (d.font <= 3)
        & (d.direction <= 1)
        & (d.adjustment <= 4095)
        & (d.increment <= 32767)
        & (d.margin <= 32767)
        & (d.initial.b <= 32767)
        & (d.initial.i <= 32767)
        & is_size(d.size.b)
        & is_size(d.size.i)
}

// The same for a state.
pub fn state_holds(s: State) -> bool
    ensures { result ≡ hold (state_fields s) }
{
    (s.used <= 4096)
        & (s.chain <= 1)
        & (s.suppression <= 127)
        & ((s.space <= 4095) | (s.space == ONES))
        & is_colour(s.colour)
        & (s.font <= 3)
        & (s.direction <= 1)
        & (s.adjustment <= 4095)
        & (s.increment <= 32767)
        & (s.margin <= 32767)
        & (s.at.b <= 65535)
        & (s.at.i <= 65535)
}
