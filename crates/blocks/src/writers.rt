// Small writers at a position. Each writes where there is room, and answers where its text ends.
ghost use Rattle.std.specs.Prelude.{[], ◌∷◌, pos};
ghost use Rattle.lines.specs.Decimal.{digits, line_of};
ghost use Rattle.blocks.specs.Printed.{Printed};

use lines::write::{digit_count, line_length, put_bytes, put_digits, write_line};

pub(crate) fn put_text(out: &mut [u8], at: usize, bytes: &[u8]) -> usize
    ensures { Printed at bytes.now out.old out.new result }
{
    let end = at.saturating_add(bytes.len());
    if end <= out.len() {
        put_bytes(&mut out[at..], bytes);
    }
    end
}

pub(crate) fn put_sign(out: &mut [u8], at: usize, b: u8) -> usize
    ensures { Printed at (b ∷ []) out.old out.new result }
{
    if at < out.len() {
        out[at] = b;
    }
    at.saturating_add(1)
}

pub(crate) fn put_decimal(out: &mut [u8], at: usize, n: u64) -> usize
    ensures { Printed at (digits n []) out.old out.new result }
{
    let end = at.saturating_add(digit_count(n));
    if end <= out.len() {
        put_digits(&mut out[at..], n);
    }
    end
}

// The line of a key and a number with no sign. Nearly all of a report is such lines, so one test of the room serves the whole line.
pub(crate) fn put_natural(out: &mut [u8], at: usize, key: &[u8], value: u64) -> usize
    ensures { Printed at (line_of key.now (pos value)) out.old out.new result }
{
    let end = at.saturating_add(line_length(key, value));
    if end <= out.len() {
        write_line(&mut out[at..], key, value);
    }
    end
}
