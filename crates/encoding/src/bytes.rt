// Numbers as bytes, eight to a number, lowest first.
ghost use Rattle.std.specs.Prelude.{◌≡◌, ◌+◌, ◌*◌, ◌/◌, ◌≤◌, min, length, take, drop, ◌++◌};
ghost use Rattle.lists.specs.Slices.{laid, cleared};
ghost use Rattle.encoding.specs.Bytes.{number_bytes, numbers, bytes_of};

// The bytes of a number.
pub const NUMBER: usize = 8;

// Reads each whole number of the bytes.
pub fn decode(bytes: &[u8], out: &mut [i64])
    requires { length bytes.now / number_bytes ≤ length out.old }
    ensures { out.new ≡ laid (numbers bytes.now) out.old }
{
    let (words, _) = bytes.as_chunks::<NUMBER>();
    for (k, word) in words.iter().enumerate() {
        out[k] = i64::from_le_bytes(*word);
    }
}

// The numbers that a lent slice of so many bytes has room for, as far as a scene can fill them.
pub fn places(len: usize, limit: usize) -> usize
    ensures { result ≡ min (len / number_bytes) limit }
{
    (len / NUMBER).min(limit)
}

// Writes the bytes of each number at the front of a slice.
pub fn encode(values: &[u64], out: &mut [u8])
    requires { length values.now * number_bytes ≤ length out.old }
    ensures { out.new ≡ laid (bytes_of values.now) out.old }
{
    // By slices: what `as_chunks_mut` or `chunks_exact_mut` lent leaves `out` unknown ("not proved that what the function ensures holds").
    for (k, value) in values.iter().enumerate() {
        let start = k * NUMBER;
        out[start..start + NUMBER].copy_from_slice(&value.to_le_bytes());
    }
}

// Writes the bytes of each number from a place of a slice on.
pub fn encode_at(values: &[u64], out: &mut [u8], at: usize)
    requires { at + length values.now * number_bytes ≤ length out.old }
    ensures { out.new ≡ take at out.old ++ laid (bytes_of values.now) (drop at out.old) }
{
    encode(values, &mut out[at..]);
}

// Sets every byte to 0. It stands beside `fill`, since its contract says `cleared`, as the contracts of those who call it do.
pub fn wipe(out: &mut [u8])
    ensures { out.new ≡ cleared out.old }
{
    out.fill(0);
}
