// A control sequence performed: its LENGTH and its values tested, and its effect on the state and the records.
ghost use Rattle.std.specs.Prelude.{◌≡◌, ◌<◌, length};
ghost use Rattle.part.specs.Code.{sized, Does, repeating, performed, Ready};

use super::faults::Fault;
use super::moves::{absolute_move, begin_line, relative_move};
use super::numbers::ONES;
use super::rules::draw_rule;
use super::settings::{
    begin_suppression, end_suppression, orientation, set_adjustment, set_color, set_font,
    set_number,
};
use super::shapes::{Descriptor, State};
use super::show::show_text;
use super::types::Kind;
use super::values::word_at;

// RPS: a count, then the text that begins again at its end. Without text it is the count that is wrong.
#[tactic(auto, unfolding(crate::specs::Place::place_text, crate::specs::Text::characters, crate::specs::Text::cycle))]
fn repeat_string(
    kind: Kind,
    p: &[u8],
    widths: &[u16],
    area: &mut [u8],
    d: &Descriptor,
    s: &mut State,
) -> Result<(), Fault>
    requires { Ready widths.now area.old s.old × (length p.now < 65536) }
    ensures { Does (λ s. sized kind p.now (repeating (length area.old) widths.now d.now s p.now)) result s area }
{
    kind.suits(p)?;
    let count = word_at(p, 0, 0);
    if count == 0 {
        return Ok(());
    }
    if (p.len() <= 2) | (0x7FFF < count) {
        return Err(Fault::WrongValue);
    }
    show_text(&p[2..], count as usize, widths, area, d, s)
}

// One sequence whose body is whole, by its function code, with the bytes of its parameters. A TRN is text, and doesn't come here.
#[tactic(auto, unfolding(crate::specs::Types::types, crate::specs::Code::placed_in, crate::specs::Place::place, crate::specs::Presenting::moved))]
pub fn perform(
    function: u8,
    p: &[u8],
    widths: &[u16],
    area: &mut [u8],
    d: &Descriptor,
    s: &mut State,
) -> Result<(), Fault>
    requires { Ready widths.now area.old s.old × (length p.now < 65536) × (function ≡ 0xDA → ⊥) }
    ensures { Does (λ s. performed (length area.old) widths.now d.now s function p.now) result s area }
{
    // A match and no closures or dyn: the types are a closed list, and it becomes one jump.
    let kind = Kind::try_from(function)?;
    match kind {
        Kind::Ami => absolute_move(kind, &mut s.at.i, p),
        Kind::Amb => absolute_move(kind, &mut s.at.b, p),
        Kind::Rmi => relative_move(kind, &mut s.at.i, p),
        Kind::Rmb => relative_move(kind, &mut s.at.b, p),
        Kind::Bln => begin_line(kind, s, p),
        Kind::Sim => set_number(kind, &mut s.margin, p, 0x7FFF, d.margin),
        Kind::Sbi => set_number(kind, &mut s.increment, p, 0x7FFF, d.increment),
        Kind::Sia => set_adjustment(kind, s, p, d),
        Kind::Svi => set_number(kind, &mut s.space, p, 0xFFF, ONES),
        Kind::Scfl => set_font(kind, &mut s.font, p, d.font),
        Kind::Stc => set_color(kind, &mut s.colour, p, d.colour),
        Kind::Sto => orientation(kind, p),
        Kind::Bsu => begin_suppression(kind, &mut s.suppression, p),
        Kind::Esu => end_suppression(kind, &mut s.suppression, p),
        Kind::Dir => draw_rule(kind, 0, p, area, d, s),
        Kind::Dbr => draw_rule(kind, 1, p, area, d, s),
        Kind::Rps => repeat_string(kind, p, widths, area, d, s),
        // TRN is text, which doesn't come here
        Kind::Trn | Kind::Nop => kind.suits(p),
    }
}
