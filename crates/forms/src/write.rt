// Records written over the front of a buffer. Each writer asks for room and answers how many bytes it wrote.
ghost use Rattle.std.specs.Prelude.{◌≡◌, ◌+◌, ◌/◌, ◌≤◌, [], length, min};
ghost use Rattle.lines.specs.Decimal.{number};
ghost use Rattle.lines.specs.Wrote.{Wrote};
ghost use Rattle.forms.specs.Form.{field_text, write_fields, write_records};
ghost use Rattle.forms.specs.Places.{field_of, fields_of, greatest};

use super::{Field, Form};
use lines::write::{digit_count, put_byte, put_bytes, put_digits};

fn put_number(out: &mut [u8], value: i64) -> usize
    requires { length (number value []) ≤ length out.old }
    ensures { Wrote (number value []) out.old out.new result }
{
    if 0 <= value {
        return put_digits(out, value as u64);
    }
    let a = put_byte(out, b'-');
    a + put_digits(&mut out[a..], value.unsigned_abs())
}

// Writes a field: the bytes before its number, the number and the byte that ends it.
fn write_field(out: &mut [u8], field: Field, value: i64) -> usize
    requires { length (field_text (field_of field) value) ≤ length out.old }
    ensures { Wrote (field_text (field_of field) value) out.old out.new result }
{
    let Field(prefix, ending) = field;
    let a = put_bytes(out, prefix);
    let b = a + put_number(&mut out[a..], value);
    b + put_byte(&mut out[b..], ending)
}

// Writes one record: the first of these numbers.
pub fn write_record(out: &mut [u8], form: Form, numbers: &[i64]) -> usize
    requires numbers { length form.fields.now ≤ length numbers.now }
    requires room { length (write_fields (fields_of form.fields.now) numbers.now) ≤ length out.old }
    ensures { Wrote (write_fields (fields_of form.fields.now) numbers.now) out.old out.new result }
{
    let mut at = 0;
    for (k, field) in form.fields.iter().enumerate() {
        at += write_field(&mut out[at..], *field, numbers[k]);
    }
    at
}

// Writes as many records as the numbers are.
pub fn write_records(out: &mut [u8], form: Form, numbers: &[i64]) -> usize
    requires { length (write_records (fields_of form.fields.now) (length numbers.now / length form.fields.now) numbers.now)
        ≤ length out.old }
    ensures { Wrote (write_records (fields_of form.fields.now) (length numbers.now / length form.fields.now) numbers.now)
        out.old out.new result }
{
    let width = form.fields.len();
    let mut at = 0;
    for k in 0..numbers.len() / width {
        at += write_record(&mut out[at..], form, &numbers[k * width..]);
    }
    at
}

// ---- how many bytes they take, or the greatest number where that is more

#[tactic(auto, using(lines::proofs::Digits::digits_few))]
fn field_length(field: Field, value: i64) -> usize
    ensures { result ≡ length (field_text (field_of field) value) }
{
    field.0.len() + usize::from(value < 0) + digit_count(value.unsigned_abs()) + 1
}

pub fn record_length(form: Form, numbers: &[i64]) -> usize
    requires { length form.fields.now ≤ length numbers.now }
    ensures { result ≡ min (length (write_fields (fields_of form.fields.now) numbers.now)) greatest }
{
    let mut n: usize = 0;
    for (k, field) in form.fields.iter().enumerate() {
        n = n.saturating_add(field_length(*field, numbers[k]));
    }
    n
}

pub fn records_length(form: Form, numbers: &[i64]) -> usize
    ensures { let text = write_records (fields_of form.fields.now) (length numbers.now / length form.fields.now) numbers.now in
        result ≡ min (length text) greatest }
{
    let width = form.fields.len();
    let mut n: usize = 0;
    for k in 0..numbers.len() / width {
        n = n.saturating_add(record_length(form, &numbers[k * width..]));
    }
    n
}
