// A whole sheet of either form: measured, and written over the front of a buffer.
ghost use Rattle.std.specs.Prelude.{◌≡◌, ◌≤◌, length, min};
ghost use Rattle.lines.specs.Wrote.{Wrote};
ghost use Rattle.forms.specs.Writing.{head_text, sheet_text};
ghost use Rattle.forms.specs.Places.{greatest};

use super::Style;
use super::list::{list_length, write_list};
use lines::write::{line_length, write_line};
use lists::Section;

// How many bytes the lines before the lists take.
pub fn head_length(style: Style, rules: u64) -> usize
    ensures { result ≡ length (head_text style rules) }
{
    match style {
        Style::Old if rules == 1 => 0,
        Style::Old => line_length(b"rules", rules),
        Style::Short => line_length(b"sheet", 2) + line_length(b"rules", rules),
    }
}

pub fn write_head(out: &mut [u8], style: Style, rules: u64) -> usize
    requires { length (head_text style rules) ≤ length out.old }
    ensures { Wrote (head_text style rules) out.old out.new result }
{
    match style {
        Style::Old if rules == 1 => 0,
        Style::Old => write_line(out, b"rules", rules),
        Style::Short => {
            let a = write_line(out, b"sheet", 2);
            a + write_line(&mut out[a..], b"rules", rules)
        }
    }
}

// How many bytes a sheet takes, or the greatest number where that is more.
pub fn sheet_length(
    style: Style,
    rules: u64,
    components: &[i64],
    connections: &[i64],
    frontiers: &[i64],
) -> usize
    ensures { result ≡ min (length (sheet_text style rules components.now connections.now frontiers.now)) greatest }
{
    let a = head_length(style, rules);
    let b = a.saturating_add(list_length(style, Section::Components, components));
    let c = b.saturating_add(list_length(style, Section::Connections, connections));
    c.saturating_add(list_length(style, Section::Frontiers, frontiers))
}

// Writes it, and answers how many bytes that took.
pub fn write_sheet(
    out: &mut [u8],
    style: Style,
    rules: u64,
    components: &[i64],
    connections: &[i64],
    frontiers: &[i64],
) -> usize
    requires { length (sheet_text style rules components.now connections.now frontiers.now) ≤ length out.old }
    ensures { Wrote (sheet_text style rules components.now connections.now frontiers.now) out.old out.new result }
{
    let a = write_head(out, style, rules);
    let b = a + write_list(&mut out[a..], style, Section::Components, components);
    let c = b + write_list(&mut out[b..], style, Section::Connections, connections);
    c + write_list(&mut out[c..], style, Section::Frontiers, frontiers)
}
