// The first pass over a list: the line of its count, and its records.
ghost use Rattle.std.specs.Prelude.{◌≡◌, ◌+◌, ◌*◌, ◌≤◌, length, drop};
ghost use Rattle.lists.specs.Limits.{component_limit, connection_limit};
ghost use Rattle.forms.specs.Sheet.{read_list};
ghost use Rattle.forms.specs.Places.{ListedAs};

use super::read::{check_records, lines_of};
use super::refusal::{bad_line, over_limit};
use super::table::{count_key, form_of};
use super::{Place, Style};
use lines::read::read_count;
use lists::{Refusal, Section};

// Checks a list at `at`, whose count is at a line of the sheet.
pub fn find_list(
    text: &[u8],
    at: usize,
    style: Style,
    section: Section,
    limit: usize,
    line: usize,
) -> Result<Place, Refusal>
    requires at_in_bounds { at ≤ length text.now }
    requires few_records { limit ≤ connection_limit }
    requires few_lines { line ≤ 2 + 9 * (component_limit + connection_limit) }
    ensures { ListedAs text.now style section limit line (read_list style section limit line (drop at text.now)) result }
{
    let (value, start) = read_count(text, at, count_key(section)).ok_or(bad_line(line))?;
    let count = value as usize;
    if limit < count {
        return Err(over_limit(section, limit));
    }
    let form = form_of(style, section);
    // No `map_err`: what its closure gives reaches the proof as `..call_once.Reads.Learnt ..`, with no equation.
    match check_records(text, start, line + 1, form, count) {
        Ok(end) => Ok(Place {
            count,
            start,
            end,
            line: line + 1 + count * lines_of(form, form.fields.len()),
        }),
        Err(fault) => Err(bad_line(fault)),
    }
}
