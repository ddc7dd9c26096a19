// The input, as far as a buffer has room.
ghost use Rattle.std.specs.Prelude.{ℕ, ◌<◌, length, take, IfOk};
ghost use Rattle.std.specs.Io.{ReadsAtMost};
ghost use Rattle.std.specs.Io.KnownBytes.{Consumes, IsAtEnd};

use std::io;
use std::io::Read;

// Reads until the buffer is full or the input ends, and answers how many bytes it put at the front. A read that fails is an error, not an
// end.
pub fn read_front<R: Read>(input: &mut R, out: &mut [u8]) -> io::Result<usize>
    ensures bound { ReadsAtMost result out.new }
    ensures bytes { IfOk result (λ n. Consumes (R.remaining input.old) (R.remaining input.new) (take n out.new)) }
    ensures end { IfOk result (λ n. n < length out.new → IsAtEnd (R.remaining input.new)) }
{
    let mut n = 0;
    // By hand: no range says how many reads it takes.
    while n < out.len() {
        let more = input.read(&mut out[n..])?;
        if more == 0 {
            return Ok(n);
        }
        n += more;
    }
    Ok(n)
}
