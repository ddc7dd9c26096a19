// A list of a sheet in either form: stored from where it stands, measured, written with the line of its count.
ghost use Rattle.std.specs.Prelude.{◌≡◌, ◌*◌, ◌≤◌, length, min};
ghost use Rattle.lines.specs.Wrote.{Wrote};
ghost use Rattle.forms.specs.Tables.{width_of};
ghost use Rattle.forms.specs.Writing.{list_text};
ghost use Rattle.forms.specs.Places.{SomeStand, StoredFrom, greatest};

use super::store::store_records;
use super::table::{count_key, form_of};
use super::write::{records_length, write_records};
use super::{Place, Style};
use lines::write::{line_length, write_line};
use lists::Section;

// The second pass over a list: stores its numbers at the front of `out`.
pub fn store_list(text: &[u8], style: Style, section: Section, place: Place, out: &mut [i64])
    requires some_stand { SomeStand text.now style section place }
    requires room { place.count * width_of section ≤ length out.old }
    ensures { StoredFrom text.now style section place out.old out.new }
{
    store_records(text, place.start, form_of(style, section), place.count, out);
}

// How many bytes the line of its count and its records take, or the greatest number where that is more.
pub fn list_length(style: Style, section: Section, numbers: &[i64]) -> usize
    ensures { result ≡ min (length (list_text style section numbers.now)) greatest }
{
    let form = form_of(style, section);
    let count = numbers.len() / form.fields.len();
    let line = line_length(count_key(section), count as u64);
    line.saturating_add(records_length(form, numbers))
}

// Writes them over the front of `out`, and answers how many bytes that took.
pub fn write_list(out: &mut [u8], style: Style, section: Section, numbers: &[i64]) -> usize
    requires { length (list_text style section numbers.now) ≤ length out.old }
    ensures { Wrote (list_text style section numbers.now) out.old out.new result }
{
    let form = form_of(style, section);
    let count = numbers.len() / form.fields.len();
    let a = write_line(out, count_key(section), count as u64);
    a + write_records(&mut out[a..], form, numbers)
}
