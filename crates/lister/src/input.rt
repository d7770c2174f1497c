// The part from standard input.
ghost use Rattle.std.specs.Prelude.{◌≡◌, ℕ, ◌<◌, ◌≤◌, IfOk, OnErr, length, take};
ghost use Rattle.std.specs.Io.KnownBytes.{Consumes, IsAtEnd};

use std::io;
use std::io::Read;

// Reads until the buffer is full or the input ends, and answers how many bytes it put at its start. Where a read fails, those before it stand there.
pub fn read_part<R: Read>(input: &mut R, part: &mut [u8]) -> io::Result<usize>
    ensures within { IfOk result (λ n. n ≤ length part.new) }
    ensures bytes { IfOk result (λ n. Consumes (R.remaining input.old) (R.remaining input.new) (take n part.new)) }
    ensures ended { IfOk result (λ n. n < length part.new → IsAtEnd (R.remaining input.new)) }
    ensures failed { OnErr result ((n : ℕ) × (n < length part.new) × Consumes (R.remaining input.old) (R.remaining input.new) (take n part.new)) }
    ensures len { length part.new ≡ length part.old }
{
    // It counts what is answered: `read_exact` says no count, and `read_to_end` takes a heap.
    let mut done: usize = 0;
    while done < part.len() {
        let n = input.read(&mut part[done..])?;
        if n == 0 {
            return Ok(done);
        }
        done += n;
    }
    Ok(done)
}
