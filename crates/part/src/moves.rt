// Moves of I and B.
ghost use Rattle.std.specs.Prelude.{◌≡◌};
ghost use Rattle.part.specs.Numbers.{origin, word, signed};
ghost use Rattle.part.specs.Presenting.{moved};
ghost use Rattle.part.specs.Code.{valued, verdict, sized};
ghost use Rattle.part.specs.Working.{absolute, line};

use super::faults::Fault;
use super::numbers::{LAST, ORIGIN};
use super::shapes::State;
use super::types::Kind;
use super::values::word_at;

// A kept number moved forth and back; 28 beyond the range.
#[tactic(auto, unfolding(crate::specs::Presenting::moved))]
fn moved(n: u32, forth: u32, back: u32) -> Result<u32, Fault>
    ensures { valued result ≡ moved n forth back }
{
    let to = n as usize + forth as usize;
    let at = to.checked_sub(back as usize).ok_or(Fault::OutOfRange)?;
    if LAST < at {
        return Err(Fault::OutOfRange);
    }
    Ok(at as u32)
}

// AMI, AMB: I, or B, becomes the number. This function and the next ones ask the type first: 22 where it doesn't take the LENGTH.
pub fn absolute_move(kind: Kind, axis: &mut u32, p: &[u8]) -> Result<(), Fault>
    ensures { verdict result axis.new ≡ sized kind p.now (absolute p.now) }
{
    kind.suits(p)?;
    let v = word_at(p, 0, 0);
    if 0x7FFF < v {
        return Err(Fault::WrongValue);
    }
    *axis = ORIGIN + v;
    Ok(())
}

// RMI, RMB: the signed number is added to I, or B.
pub fn relative_move(kind: Kind, axis: &mut u32, p: &[u8]) -> Result<(), Fault>
    ensures { verdict result axis.new ≡ sized kind p.now (moved axis.old (signed (word 0 p.now 0)) origin) }
{
    kind.suits(p)?;
    let forth = (word_at(p, 0, 0) + ORIGIN) % 65536;
    *axis = moved(*axis, forth, ORIGIN)?;
    Ok(())
}

// BLN: I becomes the margin, B grows by the increment.
pub fn begin_line(kind: Kind, s: &mut State, p: &[u8]) -> Result<(), Fault>
    ensures { verdict result s.new ≡ sized kind p.now (line s.old) }
{
    kind.suits(p)?;
    let i = moved(ORIGIN, s.margin, 0)?;
    s.at.b = moved(s.at.b, s.increment, 0)?;
    s.at.i = i;
    Ok(())
}
