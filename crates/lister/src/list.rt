// The listing of one part.
ghost use Rattle.std.specs.Prelude.{◌≡◌, ◌+◌, ◌<◌, ◌≤◌, length, take};
ghost use Rattle.lister.specs.Listing.{position as position_number, part_line, end_line, refused_line, listing};
ghost use Rattle.lister.specs.Code.{plus_middle, HasRoom, Grown, EndFits, RefusedFits};

use super::records::put_records;
use super::text::{Listing, Number};
use part::numbers::ORIGIN;
use part::shapes::Interpreted;
use part::sheet::{on_sheet, sheet_state};

// The code of a part that was interpreted to its end; any other refuses it. C has codes as numbers, in `Answer`.
const DONE: u32 = 0;

// A position of a state, which keeps it plus ORIGIN, as C has it.
fn position(p: u32) -> Number
    requires { p < 65536 }
    ensures { plus_middle result ≡ position_number p }
{
    Number::Signed((p as i32 - ORIGIN as i32) as i16)
}

// How many bytes were read.
fn put_part(out: &mut Listing, n: usize)
    requires { (n ≤ 8193) × HasRoom out.old 12 }
    ensures { Grown out.old out.new (part_line n) }
{
    out.line(b"PART", &[Number::Plain(n as u16)]);
}

// Where the part ended, its elements and its record bytes.
fn put_end(out: &mut Listing, r: Interpreted)
    requires { EndFits r × HasRoom out.old 32 }
    ensures { Grown out.old out.new (end_line r) }
{
    let ns = [
        position(r.state.at.i),
        position(r.state.at.b),
        Number::Plain(r.answer.first as u16),
        Number::Plain(r.answer.second as u16),
    ];
    out.line(b"END", &ns);
}

// A refusal's code and offset.
fn put_refused(out: &mut Listing, r: Interpreted)
    requires { RefusedFits r × HasRoom out.old 22 }
    ensures { Grown out.old out.new (refused_line r) }
{
    let ns = [
        Number::Plain(r.answer.code as u16),
        Number::Plain(r.answer.first as u16),
    ];
    out.line(b"REFUSED", &ns);
}

// The listing of a part that was read.
fn put_listing(out: &mut Listing, part: &[u8], increment: u32)
    requires { (length part.now ≤ 8193) × HasRoom out.old 16384 }
    ensures { Grown out.old out.new (listing increment part.now) }
{
    let mut area = [0u8; 4096];
    let r = on_sheet(part, 144, increment, &mut area, sheet_state(increment));
    put_part(out, part.len());
    if r.answer.code != DONE {
        put_refused(out, r);
        return;
    }
    put_records(out, &area[..r.state.used as usize]);
    put_end(out, r);
}

// Lists a part that was read, into a buffer that holds every listing, and answers how many bytes that are.
// The buffer and its length stay two: docs/READING.md names this contract.
pub fn list(part: &[u8], increment: u32, out: &mut [u8]) -> usize
    requires { (length part.now ≤ 8193) × (16384 ≤ length out.old) }
    ensures within { (result ≤ length out.new) × (result ≡ length (take result out.new)) }
    ensures listed { take result out.new ≡ listing increment part.now }
{
    let mut listing = Listing::new(out);
    put_listing(&mut listing, part, increment);
    listing.len()
}
