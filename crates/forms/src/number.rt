// A number up to an ending byte, which is no digit and is passed over. As in `lines`, but for that byte.
ghost use Rattle.std.specs.Prelude.{◌≡◌, ◌≤◌, length, drop};
ghost use Rattle.lines.specs.Decimal.{limit};
ghost use Rattle.lines.specs.Line.{Accepted, taken_in};
ghost use Rattle.forms.specs.Numbers.{digits_until, magnitude_until, number_until, Ends};

// The largest magnitude of a number.
const LARGEST: u64 = 4294967295;

// The digits at `at`, which follow those of `first`. Nearly every byte is a digit, so that is tested first.
#[tactic(auto, using(crate::proofs::Placed::digits_at))]
fn read_digits(text: &[u8], at: usize, first: u64, ending: u8) -> Option<(u64, usize)>
    requires first_le_limit { first ≤ limit }
    requires ends { Ends ending }
    ensures { result ≡ taken_in (length text.now) (digits_until ending first (drop at text.now)) }
{
    let mut value = first;
    for i in at..text.len() {
        let b = text[i];
        if !b.is_ascii_digit() {
            if b != ending {
                return None;
            }
            return Some((value, i + 1));
        }
        value = value * 10 + u64::from(b - b'0');
        if LARGEST < value {
            return None;
        }
    }
    None // it ends with no ending byte
}

// A number with no sign and no leading zero at `at`.
#[tactic(auto, using(crate::proofs::Placed::magnitude_at))]
fn read_magnitude(text: &[u8], at: usize, ending: u8) -> Option<(u64, usize)>
    requires { Ends ending }
    ensures { result ≡ taken_in (length text.now) (magnitude_until ending (drop at text.now)) }
{
    let b = *text.get(at)?;
    if b == b'0' {
        if *text.get(at + 1)? != ending {
            return None;
        }
        return Some((0, at + 2));
    }
    if !b.is_ascii_digit() {
        return None;
    }
    read_digits(text, at + 1, u64::from(b - b'0'), ending)
}

// A number with its sign at `at`.
#[tactic(auto, using(crate::proofs::Placed::number_at))]
pub fn read_number(text: &[u8], at: usize, ending: u8) -> Option<(i64, usize)>
    requires { Ends ending }
    ensures { result ≡ taken_in (length text.now) (number_until ending (drop at text.now)) }
{
    if *text.get(at)? != b'-' {
        let (m, end) = read_magnitude(text, at, ending)?;
        return Some((m as i64, end));
    }
    let (m, end) = read_magnitude(text, at + 1, ending)?;
    if m == 0 {
        return None;
    }
    Some((-(m as i64), end))
}

// ---- a number that was read before, and accepted, is read again with no test of its bytes

// A number with no sign at `at`.
#[tactic(auto, using(crate::proofs::Again::digits_known))]
fn known_magnitude(text: &[u8], at: usize, ending: u8) -> (u64, usize)
    requires ends { Ends ending }
    requires accepted { Accepted (magnitude_until ending (drop at text.now)) }
    ensures { Some result ≡ taken_in (length text.now) (magnitude_until ending (drop at text.now)) }
{
    let mut value = 0;
    let mut i = at;
    // By hand: the ending is known to come, so no end is named and none is tested.
    while text[i] != ending {
        value = value * 10 + u64::from(text[i] - b'0');
        i += 1;
    }
    (value, i + 1)
}

// A number with its sign at `at`.
#[tactic(auto, using(crate::proofs::Again::number_known))]
pub fn known_number(text: &[u8], at: usize, ending: u8) -> (i64, usize)
    requires ends { Ends ending }
    requires accepted { Accepted (number_until ending (drop at text.now)) }
    ensures { Some result ≡ taken_in (length text.now) (number_until ending (drop at text.now)) }
{
    if text[at] != b'-' {
        let (m, end) = known_magnitude(text, at, ending);
        return (m as i64, end);
    }
    let (m, end) = known_magnitude(text, at + 1, ending);
    (-(m as i64), end)
}
