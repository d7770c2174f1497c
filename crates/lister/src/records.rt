// Records as lines.
ghost use Rattle.std.specs.Prelude.{◌≡◌, ◌+◌, ◌*◌, ◌≤◌, ◌∷◌, [], length, map};
ghost use Rattle.lister.specs.Listing.{plain_at, signed_at, record_line, record_lines};
ghost use Rattle.lister.specs.Code.{plus_middle, HasRoom, Grown, kind_of};

use super::text::{Listing, Number};
use part::whole::{is_whole, little_at};

// What a record shows.
enum Kind {
    Text,
    Rule,
}

impl Kind {
    // A whole record has one of the two, as a number, since printers read its bytes.
    fn of(r: &[u8]) -> Self
        ensures { result ≡ kind_of r.now }
    {
        if little_at(r, 2) == 1 {
            Kind::Text
        } else {
            Kind::Rule
        }
    }
}

// Two bytes of a record.
fn plain_at(r: &[u8], k: u32) -> Number
    ensures { plus_middle result ≡ plain_at r.now k }
{
    Number::Plain(little_at(r, k) as u16)
}

// The same with a sign. They stay two: the rules have `plain_at` and `signed_at`, and one with a flag is no plainer.
fn signed_at(r: &[u8], k: u32) -> Number
    ensures { plus_middle result ≡ signed_at r.now k }
{
    Number::Signed((little_at(r, k) as u16).cast_signed())
}

// I, B, font and colour of a text, or I, B, 0 or 1 and colour of a rule; what the kind has fifth; variable space or width.
fn numbers(r: &[u8], fifth: Number) -> [Number; 6]
    ensures { map plus_middle result ≡ signed_at r.now 4 ∷ signed_at r.now 6 ∷ plain_at r.now 8 ∷ plain_at r.now 10 ∷ plus_middle fifth ∷ plain_at r.now 14 ∷ [] }
{
    [
        signed_at(r, 4),
        signed_at(r, 6),
        plain_at(r, 8),
        plain_at(r, 10),
        fifth,
        plain_at(r, 14),
    ]
}

// A record's line: of a text its numbers and its characters, of a rule its numbers.
fn put_record(out: &mut Listing, r: &[u8])
    requires { (16 ≤ length r.now) × HasRoom out.old (3 * length r.now) }
    ensures { Grown out.old out.new (record_line r.now) }
{
    match Kind::of(r) {
        Kind::Text => {
            out.fields(b"T", &numbers(r, signed_at(r, 12)));
            out.characters(&r[16..]);
        }
        Kind::Rule => out.line(b"R", &numbers(r, plain_at(r, 12))),
    }
}

// The lines of some records, as long as they are whole.
pub fn put_records(out: &mut Listing, bytes: &[u8])
    requires { (length bytes.now ≤ 4096) × HasRoom out.old (3 * length bytes.now) }
    ensures lines { Grown out.old out.new (record_lines 256 bytes.now) }
    ensures short { out.new.len ≤ out.old.len + 3 * length bytes.now }
{
    let mut rest = bytes;
    // what is left is split off by the record's own length, which no iterator of std does
    while is_whole(rest) {
        let (record, later) = rest.split_at(little_at(rest, 0) as usize);
        put_record(out, record);
        rest = later;
    }
}
