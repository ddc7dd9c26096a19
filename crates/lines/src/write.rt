// A line written over the front of a buffer. Each writer asks for room and answers how many bytes it wrote.
ghost use Rattle.std.specs.Prelude.{◌≡◌, ◌≤◌, length, [], ◌∷◌, pos};
ghost use Rattle.lines.specs.Decimal.{digits, line_of};
ghost use Rattle.lines.specs.Wrote.{Wrote};

// How many decimal digits a number has.
#[tactic(auto, using(crate::proofs::Digits::digits_counted))]
pub fn digit_count(n: u64) -> usize
    ensures { result ≡ length (digits n []) }
{
    match n.checked_ilog10() {
        Some(k) => k as usize + 1,
        None => 1,
    }
}

pub fn put_byte(out: &mut [u8], b: u8) -> usize
    requires { 1 ≤ length out.old }
    ensures { Wrote (b ∷ []) out.old out.new result }
{
    out[0] = b;
    1
}

// Copies a slice of equal length. A loop: std's own copy has an archive for C need memmove from outside.
fn copy(from: &[u8], to: &mut [u8])
    requires { length from.now ≡ length to.old }
    ensures { to.new ≡ from.now }
{
    for (k, slot) in to.iter_mut().enumerate() {
        *slot = from[k];
    }
}

pub fn put_bytes(out: &mut [u8], bytes: &[u8]) -> usize
    requires { length bytes.now ≤ length out.old }
    ensures { Wrote bytes.now out.old out.new result }
{
    copy(bytes, &mut out[..bytes.len()]);
    bytes.len()
}

#[tactic(auto, using(crate::proofs::Writing::digits_back))]
pub fn put_digits(out: &mut [u8], n: u64) -> usize
    requires { length (digits n []) ≤ length out.old }
    ensures { Wrote (digits n []) out.old out.new result }
{
    let k = digit_count(n);
    let mut rest = n;
    for i in (0..k).rev() {
        out[i] = b'0' + (rest % 10) as u8;
        rest /= 10;
    }
    k
}

// How many bytes the line of a key and a value takes.
#[tactic(auto, using(crate::proofs::Writing::line_sizes))]
pub fn line_length(key: &[u8], value: u64) -> usize
    ensures { result ≡ length (line_of key.now (pos value)) }
{
    key.len() + digit_count(value) + 2
}

// Writes the line of a key and a value at the front of `out`, and answers how many bytes it took.
pub fn write_line(out: &mut [u8], key: &[u8], value: u64) -> usize
    requires { length (line_of key.now (pos value)) ≤ length out.old }
    ensures { Wrote (line_of key.now (pos value)) out.old out.new result }
{
    let a = put_bytes(out, key);
    let b = a + put_byte(&mut out[a..], b'=');
    let c = b + put_digits(&mut out[b..], value);
    c + put_byte(&mut out[c..], b'\n')
}
