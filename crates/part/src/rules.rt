// Rules: DIR and DBR.
ghost use Rattle.std.specs.Prelude.{◌≡◌, ◌≤◌, length};
ghost use Rattle.part.specs.Elements.{rule_width};
ghost use Rattle.part.specs.Presenting.{on_sheet};
ghost use Rattle.part.specs.Place.{along, place_rule, shown_rule};
ghost use Rattle.part.specs.Code.{Does, recorded, roomed_in, ruled, sized};

use super::faults::Fault;
use super::numbers::{ONES, ORIGIN};
use super::presenting::{is_hidden, within};
use super::record::{Head, put_head};
use super::shapes::{Descriptor, State};
use super::types::Kind;
use super::values::{byte_at, or_default, word_at};

// Whether a rule's width and fraction are in range.
fn is_width(width: u32, fraction: u32) -> bool
    ensures { result ≡ rule_width width fraction }
{
    let given = (width <= 0xC0) & (fraction == 0);
    let default = (width == ONES) & (fraction == 0xFF);
    given | default
}

// How far a rule reaches along I: DIR its length, DBR its width; along B the other way round.
fn reach(mark: u32, len: u32, width: u32) -> u32
    ensures { result ≡ along mark len width }
{
    if mark == 1 { width } else { len }
}

// Whether a rule at I and B starts and ends on the sheet.
fn fits_sheet(d: &Descriptor, s: &State, mark: u32, len: u32, width: u32) -> bool
    ensures { result ≡ on_sheet d.now s.now.at (along mark len width) (along mark width len) }
{
    let across = within(s.at.i, reach(mark, len, width), d.size.i);
    let down = within(s.at.b, reach(mark, width, len), d.size.b);
    across & down
}

// The record of a rule at the working state's place, if there is room.
#[tactic(auto, unfolding(crate::specs::Records::bytes_of))]
fn record_rule(area: &mut [u8], s: &mut State, mark: u32, len: u32, width: u32) -> Result<(), Fault>
    requires { length area.old ≤ 4096 }
    ensures { Does (λ s. recorded (length area.old) s (shown_rule s mark len width)) result s area }
{
    let used = s.used as usize;
    let end = used + 16;
    if area.len() < end {
        return Err(Fault::NoRoom);
    }
    let h = Head {
        len: 16,
        kind: 2,
        i: (s.at.i & 0xFFFF) + ORIGIN,
        b: (s.at.b & 0xFFFF) + ORIGIN,
        first: mark,
        second: s.colour,
        third: len,
        fourth: width,
    };
    put_head(area, used, h);
    s.used = end as u32;
    Ok(())
}

// A rule of a length and a width: 27, and with ink 29.
#[tactic(auto, unfolding(crate::specs::Place::place_rule))]
fn place_rule(
    area: &mut [u8],
    d: &Descriptor,
    s: &mut State,
    mark: u32,
    len: u32,
    width: u32,
) -> Result<(), Fault>
    requires { length area.old ≤ 4096 }
    ensures { Does (λ s. roomed_in (length area.old) s (place_rule d.now s mark len width)) result s area }
{
    if is_hidden(d, s) {
        return Ok(());
    }
    if !fits_sheet(d, s, mark, len, width) {
        return Err(Fault::OffSheet);
    }
    // a rule of no length or no width makes no marks
    if (len == 0) | (width == 0) {
        return Ok(());
    }
    record_rule(area, s, mark, len, width)
}

// DIR, DBR: 24, and then the rule. The mark is the record's own number, 0 or 1.
#[inline(always)]
pub fn draw_rule(
    kind: Kind,
    mark: u32,
    p: &[u8],
    area: &mut [u8],
    d: &Descriptor,
    s: &mut State,
) -> Result<(), Fault>
    requires { length area.old ≤ 4096 }
    ensures { Does (λ s. sized kind p.now (ruled (length area.old) d.now s mark p.now)) result s area }
{
    kind.suits(p)?;
    let len = word_at(p, 0, 0);
    let given = word_at(p, 2, 0xFF);
    // one test where both are right, which a test for each would slow
    if !((len <= 0x7FFF) & is_width(given, byte_at(p, 4, 0xFF))) {
        if 0x7FFF < len {
            return Err(Fault::WrongValue);
        }
        return Err(Fault::WrongSecond);
    }
    place_rule(area, d, s, mark, len, or_default(ONES, given, d.rule))
}
