// The first pass over records: finds the line of the first fault, or where they end. It changes nothing.
ghost use Rattle.std.specs.Prelude.{◌≡◌, ◌+◌, ◌*◌, ◌^◌, ◌≤◌, ◌<◌, length, take, drop};
ghost use Rattle.lines.specs.Line.{taken_in};
ghost use Rattle.forms.specs.Numbers.{Ends};
ghost use Rattle.forms.specs.Form.{times, read_field, read_fields, read_records, lines_of};
ghost use Rattle.forms.specs.Places.{field_of, fields_of, RunAs};

use super::number::read_number;
use super::{Field, Form};

// The field at `at`.
#[tactic(auto, using(crate::proofs::Fields::fields_at))]
fn read_field(text: &[u8], at: usize, field: Field) -> Option<(i64, usize)>
    requires at_in_bounds { at ≤ length text.now }
    requires ends { Ends field.1 }
    ensures { result ≡ taken_in (length text.now) (read_field (field_of field) (drop at text.now)) }
{
    let Field(prefix, ending) = field;
    if !text[at..].starts_with(prefix) {
        return None;
    }
    read_number(text, at + prefix.len(), ending)
}

// How many lines the first `n` fields take.
pub fn lines_of(form: Form, n: usize) -> usize
    requires { n ≤ length form.fields.now }
    ensures { result ≡ lines_of (fields_of (take n form.fields.now)) }
{
    let mut lines = 0;
    for field in &form.fields[..n] {
        lines += usize::from(field.1 == b'\n');
    }
    lines
}

// Checks one record at `at`, whose first line is `line`: where it ends, or the line of its first fault.
fn check_record(text: &[u8], at: usize, line: usize, form: Form) -> Result<usize, usize>
    requires at_in_bounds { at ≤ length text.now }
    requires few_lines { line + length form.fields.now < 2 ^ 64 }
    ensures { RunAs text.now (fields_of form.fields.now) (read_fields (fields_of form.fields.now) line (drop at text.now)) result }
{
    let mut position = at;
    for (k, field) in form.fields.iter().enumerate() {
        let Some((_, end)) = read_field(text, position, *field) else {
            return Err(line + lines_of(form, k));
        };
        position = end;
    }
    Ok(position)
}

// Checks `count` records at `at`, whose first line is `line`: where they end, or the line of the first fault.
pub fn check_records(
    text: &[u8],
    at: usize,
    line: usize,
    form: Form,
    count: usize,
) -> Result<usize, usize>
    requires at_in_bounds { at ≤ length text.now }
    requires few_lines { line + count * length form.fields.now + length form.fields.now < 2 ^ 64 }
    ensures { RunAs text.now (times count (fields_of form.fields.now))
        (read_records (fields_of form.fields.now) count line (drop at text.now)) result }
{
    let lines = lines_of(form, form.fields.len());
    let mut position = at;
    for k in 0..count {
        position = check_record(text, position, line + k * lines, form)?;
    }
    Ok(position)
}
