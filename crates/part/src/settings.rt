// Modal values, and suppressions.
ghost use Rattle.std.specs.Prelude.{◌≡◌};
ghost use Rattle.part.specs.Ranges.{up_to, colours};
ghost use Rattle.part.specs.Code.{valued, verdict, sized, chosen};
ghost use Rattle.part.specs.Working.{setting, font_setting, adjusting, oriented, identified, beginning, ending};

use super::faults::Fault;
use super::numbers::ONES;
use super::ranges::is_colour;
use super::shapes::{Descriptor, State};
use super::types::Kind;
use super::values::{byte_at, or_default, word_at};

// A number that fits its range, or all ones for the other value.
fn chosen(all: u32, v: u32, fits: bool, other: u32, why: Fault) -> Result<u32, Fault>
    ensures { valued result ≡ chosen all v fits other why }
{
    if fits | (v == all) {
        return Ok(or_default(all, v, other));
    }
    Err(why)
}

// SIM, SBI, SVI: a number up to `most`, or all ones for the other value.
pub fn set_number(kind: Kind, place: &mut u32, p: &[u8], most: u32, other: u32) -> Result<(), Fault>
    ensures { verdict result place.new ≡ sized kind p.now (setting p.now (up_to most) other) }
{
    kind.suits(p)?;
    let v = word_at(p, 0, 0);
    *place = chosen(ONES, v, v <= most, other, Fault::WrongValue)?;
    Ok(())
}

// STC: a function beside `set_number`, as a closure for the range in the place of a number is no plainer.
pub fn set_color(kind: Kind, colour: &mut u32, p: &[u8], other: u32) -> Result<(), Fault>
    ensures { verdict result colour.new ≡ sized kind p.now (setting p.now colours other) }
{
    kind.suits(p)?;
    let v = word_at(p, 0, 0);
    *colour = chosen(ONES, v, is_colour(v), other, Fault::WrongValue)?;
    Ok(())
}

// SCFL.
pub fn set_font(kind: Kind, font: &mut u32, p: &[u8], other: u32) -> Result<(), Fault>
    ensures { verdict result font.new ≡ sized kind p.now (font_setting p.now other) }
{
    kind.suits(p)?;
    let f = byte_at(p, 0, 0);
    *font = chosen(0xFF, f, f <= 3, other, Fault::WrongFont)?;
    Ok(())
}

// SIA: amount and direction default each alone.
pub fn set_adjustment(kind: Kind, s: &mut State, p: &[u8], d: &Descriptor) -> Result<(), Fault>
    ensures { verdict result s.new ≡ sized kind p.now (adjusting d.now s.old p.now) }
{
    kind.suits(p)?;
    let v = word_at(p, 0, 0);
    let to = byte_at(p, 2, 0);
    let amount = chosen(ONES, v, v <= 0xFFF, d.adjustment, Fault::WrongValue)?;
    s.direction = chosen(0xFF, to, to <= 1, d.direction, Fault::WrongSecond)?;
    s.adjustment = amount;
    Ok(())
}

// STO has no effect: its one orientation is taken.
pub fn orientation(kind: Kind, p: &[u8]) -> Result<(), Fault>
    ensures { verdict result tt ≡ sized kind p.now (oriented p.now) }
{
    kind.suits(p)?;
    let i = word_at(p, 0, 0);
    let b = word_at(p, 2, 0);
    let _ = chosen(ONES, i, i == 0, 0, Fault::WrongValue)?;
    let _ = chosen(ONES, b, b == 0x2D00, 0, Fault::WrongSecond)?;
    Ok(())
}

// A suppression's id, 1 to X'7F'.
fn local_id(p: &[u8]) -> Result<u32, Fault>
    ensures { valued result ≡ identified p.now }
{
    let id = byte_at(p, 0, 0);
    if (1 <= id) & (id <= 0x7F) {
        return Ok(id);
    }
    Err(Fault::WrongValue)
}

// BSU: while one is open, 26. It and ESU differ in the test and in what is left; both handed in are no plainer.
pub fn begin_suppression(kind: Kind, current: &mut u32, p: &[u8]) -> Result<(), Fault>
    ensures { verdict result current.new ≡ sized kind p.now (beginning current.old p.now) }
{
    kind.suits(p)?;
    let id = local_id(p)?;
    if *current != 0 {
        return Err(Fault::WrongSuppression);
    }
    *current = id;
    Ok(())
}

// ESU: of another than the open one, 26.
pub fn end_suppression(kind: Kind, current: &mut u32, p: &[u8]) -> Result<(), Fault>
    ensures { verdict result current.new ≡ sized kind p.now (ending current.old p.now) }
{
    kind.suits(p)?;
    let id = local_id(p)?;
    if *current != id {
        return Err(Fault::WrongSuppression);
    }
    *current = 0;
    Ok(())
}
