// Text as it is shown: along its line, and then its record.
ghost use Rattle.std.specs.Prelude.{◌≡◌, true, ◌≤◌, ◌<◌, length};
ghost use Rattle.part.specs.Ranges.{hold, state_fields};
ghost use Rattle.part.specs.Presenting.{hides};
ghost use Rattle.part.specs.Text.{characters, cycle};
ghost use Rattle.part.specs.Place.{place_text};
ghost use Rattle.part.specs.Code.{Does, advanced, valued, row_in, line_in, Plain, Ready, head_of, roomed_in};

use super::faults::Fault;
use super::numbers::{LAST, ONES, ORIGIN};
use super::presenting::{is_hidden, within};
use super::record::{Head, draw, put_head};
use super::shapes::{Descriptor, State};
use super::text::{Line, Row, plain_end, present};
use super::values::or_default;

// The widths of the state's font.
#[tactic(auto, using(crate::proofs::Bytes::tail_of))]
fn row_of<'a>(widths: &'a [u16], s: &State) -> &'a Row
    requires { (length widths.now ≡ 1024) × (s.now.font ≤ 3) }
    ensures { result.now ≡ row_in widths.now s.now }
{
    let from = 256 * s.font as usize;
    widths[from..].first_chunk().unwrap()
}

// The line of a state whose font has `own` for X'40'.
fn line_of(d: &Descriptor, s: &State, own: u16, hidden: bool) -> Line
    ensures value { result ≡ line_in d.now s.now own hidden }
    ensures bounded { result.limit < 8589934592 }
{
    let back = s.direction == 1;
    Line {
        space: or_default(ONES, s.space, u32::from(own)),
        shown: !hidden,
        limit: ORIGIN as usize + d.size.i as usize,
        plus: if back { 0 } else { s.adjustment },
        minus: if back { s.adjustment } else { 0 },
    }
}

// The head of the record of so many characters at the state's place.
fn text_head(s: &State, n: usize) -> Head
    requires { (s.now.adjustment ≤ 4095) × (s.now.at.i ≤ 65535) × (s.now.at.b ≤ 65535) × (n < 65536) }
    ensures { result ≡ head_of s.now n }
{
    Head {
        len: 16 + n as u32,
        kind: 1,
        i: s.at.i + ORIGIN,
        b: s.at.b + ORIGIN,
        first: s.font,
        second: s.colour,
        third: if s.direction == 1 {
            65536 - s.adjustment
        } else {
            s.adjustment
        },
        fourth: s.space,
    }
}

// The record of a text that leaves I at a place, if there is room.
#[inline(always)]
fn record_text(t: &[u8], count: usize, area: &mut [u8], s: &mut State, i: u32) -> Result<(), Fault>
    requires sizes { (length area.old ≤ 4096) × (0 < length t.now) × (count < 65536) }
    requires in_range { hold (state_fields s.old) ≡ true }
    ensures { Does (λ s. advanced (length area.old) s i (cycle t.now 0 count)) result s area }
{
    let used = s.used as usize;
    let end = used + 16 + count;
    if area.len() < end {
        return Err(Fault::NoRoom);
    }
    put_head(area, used, text_head(s, count));
    draw(area, used + 16, t, count);
    s.at.i = i;
    s.used = end as u32;
    Ok(())
}

// Where text leaves I, from the state's place on: 27 and 28.
fn walk_line(
    t: &[u8],
    count: usize,
    widths: &[u16],
    d: &Descriptor,
    s: &State,
    hidden: bool,
) -> Result<u32, Fault>
    requires sizes { (0 < count) × (0 < length t.now) × (length t.now < 65536) × (count < 65536) }
    requires fonts { (length widths.now ≡ 1024) × (s.now.font ≤ 3) }
    requires known { hidden ≡ hides d.now s.now }
    ensures { valued result ≡ characters widths.now d.now s.now s.now.at.i (cycle t.now 0 count) }
{
    if !(hidden | within(s.at.b, 0, d.size.b)) {
        return Err(Fault::OffSheet);
    }
    let row = row_of(widths, s);
    present(t, count, row, line_of(d, s, row[0x40], hidden), s.at.i)
}

// Text of `count` characters that begins again at its end: 27 and 28, and where it is shown 29.
#[tactic(auto, using(crate::proofs::Shown::shown))]
pub fn show_text(
    t: &[u8],
    count: usize,
    widths: &[u16],
    area: &mut [u8],
    d: &Descriptor,
    s: &mut State,
) -> Result<(), Fault>
    requires { Ready widths.now area.old s.old × (0 < count → 0 < length t.now) × (length t.now < 65536) × (count < 65536) }
    ensures { Does (λ s. roomed_in (length area.old) s (place_text widths.now d.now s (cycle t.now 0 count))) result s area }
{
    if count == 0 {
        return Ok(());
    }
    let hidden = is_hidden(d, s);
    let i = walk_line(t, count, widths, d, s, hidden)?;
    if hidden {
        s.at.i = i;
        return Ok(());
    }
    record_text(t, count, area, s, i)
}

// Whether text that ends at a place is plain: nothing hidden, nothing subtracted, and all of it on the sheet.
fn is_plain(d: &Descriptor, s: &State, end: usize) -> bool
    ensures { result ≡ true → Plain s.now d.now.size.i d.now.size.b end }
{
    let shown = (s.suppression == 0) & within(s.at.b, 0, d.size.b);
    let level = (s.direction == 0) & (ORIGIN <= s.at.i);
    let most = LAST.min(32768 + d.size.i as usize + s.adjustment as usize);
    shown & level & (end <= most)
}

// A text as it is, from its first character to its last. Where it is plain, its end decides for all of them.
#[tactic(auto, using(crate::proofs::Shown::shown))]
pub fn show_plain(
    t: &[u8],
    widths: &[u16],
    area: &mut [u8],
    d: &Descriptor,
    s: &mut State,
) -> Result<(), Fault>
    requires { Ready widths.now area.old s.old × (length t.now < 65536) }
    ensures { Does (λ s. roomed_in (length area.old) s (place_text widths.now d.now s t.now)) result s area }
{
    if t.is_empty() {
        return Ok(());
    }
    let row = row_of(widths, s);
    let space = or_default(ONES, s.space, u32::from(row[0x40]));
    let end = plain_end(t, row, space, s.at.i, s.adjustment);
    if is_plain(d, s, end) {
        return record_text(t, t.len(), area, s, end as u32);
    }
    show_text(t, t.len(), widths, area, d, s)
}
