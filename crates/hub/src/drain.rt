// An area that is drained: the places where its records end, and its unread bytes moved down to the start.
ghost use Rattle.std.specs.Prelude.{◌≡◌, ◌≤◌, length};
ghost use Rattle.part.specs.Records.{boundaries};
ghost use Rattle.hub.specs.Requests.{is_one_of, moved_down};

// Whether stepping over record lengths from the start meets a place. Each step is as long as its record says, which no iterator of std gives: so a loop.
pub fn meets(bytes: &[u8], place: usize) -> bool
    ensures { result ≡ is_one_of place (boundaries bytes.now) }
{
    let mut at: usize = 0;
    while at < place {
        let left = bytes.len() - at;
        if left < 16 {
            return false;
        }
        let n = u16::from_le_bytes([bytes[at], bytes[at + 1]]) as usize;
        if !(16..=left).contains(&n) {
            return false;
        }
        at += n;
    }
    at == place
}

// Moves the bytes from one place up to another down to the start.
pub fn move_down(area: &mut [u8], from: usize, to: usize)
    requires { (from ≤ to) × (to ≤ length area.old) }
    ensures { area.new ≡ moved_down area.old from to }
{
    let n = to - from;
    let mut k: usize = 0;
    // By blocks, each read before it is stored, as the two may overlap: `copy_within` alone goes byte by byte, 275 ns for 4,080 bytes, this 110 to 130.
    while 64 <= n - k {
        let mut block = [0u8; 64];
        block.copy_from_slice(&area[from + k..from + k + 64]);
        area[k..k + 64].copy_from_slice(&block);
        k += 64;
    }
    area.copy_within(from + k..to, k);
}
