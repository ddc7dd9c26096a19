// The second pass over records, which the first accepted: stores their numbers. Prefixes are passed over, digits are not tested.
ghost use Rattle.std.specs.Prelude.{◌≡◌, ◌*◌, ◌≤◌, length, drop};
ghost use Rattle.lines.specs.Line.{Accepted, taken_in};
ghost use Rattle.forms.specs.Numbers.{Ends};
ghost use Rattle.forms.specs.Form.{read_field, read_fields, read_records};
ghost use Rattle.forms.specs.Places.{field_of, fields_of, AllRead, StoredAs};

use super::number::known_number;
use super::{Field, Form};

// The field at `at`.
#[tactic(auto, using(crate::proofs::Fields::field_known))]
fn known_field(text: &[u8], at: usize, field: Field) -> (i64, usize)
    requires at_in_bounds { at ≤ length text.now }
    requires ends { Ends field.1 }
    requires accepted { Accepted (read_field (field_of field) (drop at text.now)) }
    ensures { Some result ≡ taken_in (length text.now) (read_field (field_of field) (drop at text.now)) }
{
    let Field(prefix, ending) = field;
    known_number(text, at + prefix.len(), ending)
}

// Stores one record at the front of `out`, and answers where it ends in the text.
fn store_record(text: &[u8], at: usize, form: Form, out: &mut [i64]) -> usize
    requires at_in_bounds { at ≤ length text.now }
    requires room { length form.fields.now ≤ length out.old }
    requires all_read { AllRead (read_fields (fields_of form.fields.now) 0 (drop at text.now)) }
    ensures { StoredAs text.now (read_fields (fields_of form.fields.now) 0 (drop at text.now)) out.old out.new result }
{
    let mut position = at;
    for (k, field) in form.fields.iter().enumerate() {
        let (value, end) = known_field(text, position, *field);
        out[k] = value;
        position = end;
    }
    position
}

// Stores `count` records at the front of `out`, and answers where they end in the text.
pub fn store_records(text: &[u8], at: usize, form: Form, count: usize, out: &mut [i64]) -> usize
    requires at_in_bounds { at ≤ length text.now }
    requires room { count * length form.fields.now ≤ length out.old }
    requires all_read { AllRead (read_records (fields_of form.fields.now) count 0 (drop at text.now)) }
    ensures { StoredAs text.now (read_records (fields_of form.fields.now) count 0 (drop at text.now)) out.old out.new result }
{
    let width = form.fields.len();
    let mut position = at;
    for k in 0..count {
        position = store_record(text, position, form, &mut out[k * width..]);
    }
    position
}
