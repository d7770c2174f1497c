// The element reader: what stands at the start of the bytes that are left.
ghost use Rattle.std.specs.Prelude.{◌≡◌, ◌+◌, ◌≤◌, ◌<◌, IfOk, length};
ghost use Rattle.part.specs.Reading.{stretch, sequence, element};
ghost use Rattle.part.specs.Code.{first_parameter, found_by, Within};

use super::faults::Fault;
use super::types::misfit;

// What an element is.
#[derive(Clone, Copy, PartialEq, Eq, Debug)]
pub enum What {
    // A free run, or a TRN.
    Characters,
    // Any other control sequence, by its function code.
    Sequence(u8),
}

// An element. All numbers count from its first byte.
#[derive(Clone, Copy, PartialEq, Eq, Debug)]
pub struct Read {
    pub what: What,
    // Where its characters or parameters begin.
    pub from: usize,
    pub size: usize,
    // 1 where it chains the next, a number as the state's chain is.
    pub chains: u32,
}

// Where a sequence's parameters begin: behind 2B D3, LENGTH and TYPE; in a chain behind LENGTH and TYPE alone.
pub fn first_parameter(chain: u32) -> u32
    ensures { (result ≡ first_parameter chain) × (result ≤ 4) }
{
    if chain == 1 { 2 } else { 4 }
}

// How many bytes come before the next X'2B': blocks of sixteen without one, and then byte by byte.
fn run_length(bytes: &[u8]) -> usize
    ensures { result ≡ stretch bytes.now }
{
    let (blocks, _) = bytes.as_chunks::<16>();
    let clear = 16
        * blocks
            .iter()
            .take_while(|block| !block.contains(&0x2B))
            .count();
    clear
        + bytes[clear..]
            .iter()
            .position(|b| *b == 0x2B)
            .unwrap_or(bytes.len() - clear)
}

// The sequence whose LENGTH and TYPE stand at `at`, behind the prefix or in a chain. Its row is asked where it is performed, and here where its body is cut.
fn read_sequence(bytes: &[u8], at: usize) -> Result<Read, Fault>
    requires { at ≤ 2 }
    ensures found { found_by bytes.now (at + 2) result ≡ sequence at bytes.now }
    ensures within { IfOk result (Within (length bytes.now)) }
{
    let from = at + 2;
    if bytes.len() < from {
        return Err(Fault::CutSequence);
    }
    let n = usize::from(bytes[at]);
    if n < 2 {
        return Err(Fault::WrongLength);
    }
    let function = bytes[at + 1] & 0xFE;
    let size = at + n;
    if bytes.len() < size {
        return Err(misfit(function, n));
    }
    let what = if function == 0xDA {
        What::Characters
    } else {
        What::Sequence(function)
    };
    Ok(Read {
        what,
        from,
        size,
        chains: u32::from(bytes[at + 1] & 1),
    })
}

// The element at the start of some bytes.
pub fn read_element(bytes: &[u8], chain: u32) -> Result<Read, Fault>
    requires { 0 < length bytes.now }
    ensures found { found_by bytes.now (first_parameter chain) result ≡ element chain bytes.now }
    ensures within { IfOk result (Within (length bytes.now)) }
{
    if chain == 1 {
        return read_sequence(bytes, 0);
    }
    if bytes[0] != 0x2B {
        return Ok(Read {
            what: What::Characters,
            from: 0,
            size: run_length(bytes),
            chains: 0,
        });
    }
    if 1 < bytes.len() {
        if bytes[1] != 0xD3 {
            return Err(Fault::NoClass);
        }
    }
    read_sequence(bytes, 2)
}
