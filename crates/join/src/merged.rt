// The records of a merge, measured and written over the front of a buffer. None is copied: each is written from the list in which it
// stands.
ghost use Rattle.std.specs.Prelude.{◌≡◌, ◌≤◌, length, min};
ghost use Rattle.lines.specs.Wrote.{Wrote};
ghost use Rattle.forms.specs.Places.{fields_of, greatest};
ghost use Rattle.joining.specs.Cursor.{FieldsBelow};
ghost use Rattle.join.specs.Texts.{merged_text};

use forms::Form;
use forms::write::{record_length, write_record};
use joining::merging::next_record;

// Writes them, and answers how many bytes that took.
pub fn write_merged(out: &mut [u8], form: Form, fields: &[usize], a: &[i64], b: &[i64]) -> usize
    requires fields_below { FieldsBelow (length form.fields.now) fields.now }
    requires room { length (merged_text (fields_of form.fields.now) (length form.fields.now) fields.now a.now b.now) ≤ length out.old }
    ensures { Wrote (merged_text (fields_of form.fields.now) (length form.fields.now) fields.now a.now b.now) out.old out.new result }
{
    let width = form.fields.len();
    let mut i = 0;
    let mut j = 0;
    let mut at = 0;
    while let Some(step) = next_record(fields, width, a, i, b, j) {
        at += write_record(&mut out[at..], form, step.record);
        i = step.i;
        j = step.j;
    }
    at
}

// How many bytes they take, or the greatest number where that is more.
pub fn merged_length(form: Form, fields: &[usize], a: &[i64], b: &[i64]) -> usize
    requires { FieldsBelow (length form.fields.now) fields.now }
    ensures { result ≡ min (length (merged_text (fields_of form.fields.now) (length form.fields.now) fields.now a.now b.now)) greatest }
{
    let width = form.fields.len();
    let mut i = 0;
    let mut j = 0;
    let mut n: usize = 0;
    while let Some(step) = next_record(fields, width, a, i, b, j) {
        n = n.saturating_add(record_length(form, step.record));
        i = step.i;
        j = step.j;
    }
    n
}
