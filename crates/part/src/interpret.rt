// One part of presentation text, all of it or nothing.
ghost use Rattle.std.specs.Prelude.{◌≡◌, true, ◌+◌, ◌≤◌, IfSome, IfNone, length};
ghost use Rattle.part.specs.Checks.{fine};
ghost use Rattle.part.specs.Ranges.{hold, descriptor_fields};
ghost use Rattle.part.specs.Reading.{cut};
ghost use Rattle.part.specs.Part.{interpreted, area_after};
ghost use Rattle.part.specs.Code.{fault_code, verdict, refused_from, elements_in, Ready, Added, admitted_by};

use super::faults::{Fault, Refusal};
use super::ranges::{descriptor_holds, state_holds};
use super::record::store;
use super::run::run;
use super::shapes::{Answer, Descriptor, Interpreted, State};

// The tests before any element: 10, 12, 15, 19.
fn admit(part: usize, widths: usize, area: usize, d: Descriptor, s: State) -> Result<(), Fault>
    ensures { verdict result tt ≡ admitted_by part widths area d s }
{
    if !((area == 4096) & (widths == 1024)) {
        return Err(Fault::WrongSizes);
    }
    if !state_holds(s) {
        return Err(Fault::WrongState);
    }
    if !descriptor_holds(d) {
        return Err(Fault::WrongDescriptor);
    }
    if 8192 < part {
        return Err(Fault::LongPart);
    }
    Ok(())
}

// A refusal hands the starting state back.
fn refused(r: Refusal, s: State) -> Interpreted
    ensures { result ≡ record { answer = record { code = fault_code r.why; first = r.at; second = 0 }; state = s } }
{
    Interpreted {
        answer: Answer {
            code: r.why.code(),
            first: r.at,
            second: 0,
        },
        state: s,
    }
}

// Runs a part on a scratch area, and where all passes adds its records to the area from a place on: how many elements.
fn added(
    part: &[u8],
    widths: &[u16],
    area: &mut [u8],
    from: usize,
    scratch: &mut [u8],
    d: &Descriptor,
    s: &mut State,
) -> Result<u32, Refusal>
    requires { Ready widths.now scratch.old s.old × (hold (descriptor_fields d.now) ≡ true) × (length part.now ≤ 8192) × (from + length scratch.old ≤ length area.old + s.old.used) }
    ensures { Added (elements_in (length scratch.old) widths.now d.now s.old (cut s.old.chain part.now)) (length (cut s.old.chain part.now)) area.old from result s.new area.new }
{
    let low = s.used as usize;
    let count = run(part, widths, scratch, d, s)?;
    let high = s.used as usize;
    store(area, from, &scratch[low..high]);
    Ok(count)
}

// A part that the tests before any element let pass, by a scratch area as large as the job's.
fn at_length(part: &[u8], widths: &[u16], area: &mut [u8], d: &Descriptor, s: State) -> Interpreted
    requires { fine tt ≡ admitted_by (length part.now) (length widths.now) (length area.old) d.now s }
    ensures value { result ≡ interpreted widths.now d.now s part.now area.old }
    ensures area_after { area.new ≡ area_after widths.now d.now s part.now area.old }
{
    let mut scratch = [0u8; 4096];
    let mut state = s;
    match added(
        part,
        widths,
        area,
        s.used as usize,
        &mut scratch,
        d,
        &mut state,
    ) {
        Ok(first) => Interpreted {
            answer: Answer {
                code: 0,
                first,
                second: state.used - s.used,
            },
            state,
        },
        Err(r) => refused(r, s),
    }
}

// The same by a small scratch area, as if nothing were used yet; None where it was not enough, or a refusal. Bytes used and answer differ, so the two stay two.
fn briefly(
    part: &[u8],
    widths: &[u16],
    area: &mut [u8],
    d: &Descriptor,
    s: State,
) -> Option<Interpreted>
    requires { (fine tt ≡ admitted_by (length part.now) (length widths.now) (length area.old) d.now s) × (s.used ≤ 3584) }
    ensures done { IfSome result (λ r. (r ≡ interpreted widths.now d.now s part.now area.old) × (area.new ≡ area_after widths.now d.now s part.now area.old)) }
    ensures not_enough { IfNone result (area.new ≡ area.old) }
{
    let mut few = [0u8; 512];
    let mut state = State { used: 0, ..s };
    let first = added(part, widths, area, s.used as usize, &mut few, d, &mut state).ok()?;
    let second = state.used;
    state.used = s.used + second;
    Some(Interpreted {
        answer: Answer {
            code: 0,
            first,
            second,
        },
        state,
    })
}

// Interprets a part from a state. Its records are added to the area, and the answer counts elements and record bytes; a refusal leaves the area.
pub fn interpret(
    part: &[u8],
    widths: &[u16],
    area: &mut [u8],
    d: Descriptor,
    s: State,
) -> Interpreted
    ensures value { result ≡ interpreted widths.now d s part.now area.old }
    ensures area_after { area.new ≡ area_after widths.now d s part.now area.old }
{
    if let Err(why) = admit(part.len(), widths.len(), area.len(), d, s) {
        return refused(Refusal { why, at: 0 }, s);
    }
    if part.is_empty() {
        return Interpreted {
            answer: Answer {
                code: 0,
                first: 0,
                second: 0,
            },
            state: s,
        };
    }
    if (part.len() <= 64) & (s.used <= 3584) {
        if let Some(done) = briefly(part, widths, area, &d, s) {
            return done;
        }
    }
    at_length(part, widths, area, &d, s)
}
