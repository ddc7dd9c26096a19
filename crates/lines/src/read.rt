// A line read from a text: each reader answers what it read, and the position behind it.
ghost use Rattle.std.specs.Prelude.{◌≡◌, ◌≤◌, length, drop};
ghost use Rattle.lines.specs.Decimal.{limit};
ghost use Rattle.lines.specs.Line.{read_digits, read_magnitude, read_number, read_line, natural, taken_in, after_key};

// The largest magnitude of a number.
const LARGEST: u64 = 4294967295;

// The digits at `at`, which follow those of `first`.
#[tactic(auto, using(crate::proofs::Reading::digits_at))]
fn read_digits(text: &[u8], at: usize, first: u64) -> Option<(u64, usize)>
    requires { first ≤ limit }
    ensures { result ≡ taken_in (length text.now) (read_digits first (drop at text.now)) }
{
    let mut value = first;
    for i in at..text.len() {
        let b = text[i];
        if b == b'\n' {
            return Some((value, i + 1));
        }
        if !b.is_ascii_digit() {
            return None;
        }
        value = value * 10 + u64::from(b - b'0');
        if LARGEST < value {
            return None;
        }
    }
    None // it ends with no LF
}

// A number with no sign and no leading zero at `at`.
#[tactic(auto, using(crate::proofs::Reading::magnitude_at))]
pub fn read_magnitude(text: &[u8], at: usize) -> Option<(u64, usize)>
    ensures { result ≡ taken_in (length text.now) (read_magnitude (drop at text.now)) }
{
    let b = *text.get(at)?;
    if b == b'0' {
        if *text.get(at + 1)? != b'\n' {
            return None;
        }
        return Some((0, at + 2));
    }
    if !b.is_ascii_digit() {
        return None;
    }
    read_digits(text, at + 1, u64::from(b - b'0'))
}

// A number with its sign at `at`.
#[tactic(auto, using(crate::proofs::Placed::number_at))]
pub fn read_number(text: &[u8], at: usize) -> Option<(i64, usize)>
    ensures { result ≡ taken_in (length text.now) (read_number (drop at text.now)) }
{
    if *text.get(at)? != b'-' {
        let (m, end) = read_magnitude(text, at)?;
        return Some((m as i64, end));
    }
    let (m, end) = read_magnitude(text, at + 1)?;
    if m == 0 {
        return None;
    }
    Some((-(m as i64), end))
}

// The position after the key at `at` and the `=` behind it.
#[tactic(auto, using(crate::proofs::Reading::keys_at))]
pub fn skip_key(text: &[u8], at: usize, key: &[u8]) -> Option<usize>
    requires { at ≤ length text.now }
    ensures { result ≡ after_key text.now at key.now }
{
    let rest = &text[at..];
    if *rest.get(key.len())? != b'=' {
        return None;
    }
    if !rest.starts_with(key) {
        return None;
    }
    Some(at + key.len() + 1)
}

// The line of a count, which has no minus.
#[tactic(auto, using(crate::proofs::Counting::count_at))]
pub fn read_count(text: &[u8], at: usize, key: &[u8]) -> Option<(u64, usize)>
    ensures { result ≡ taken_in (length text.now) (natural (read_line key.now (drop at text.now))) }
{
    if text.len() < at {
        return None;
    }
    let start = skip_key(text, at, key)?;
    read_magnitude(text, start)
}
