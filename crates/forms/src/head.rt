// The lines of a sheet before its lists: `sheet=2` and `rules=` of the short form, an optional `rules=` of the old one.
ghost use Rattle.std.specs.Prelude.{◌≡◌, ◌≤◌, length, drop};
ghost use Rattle.lines.specs.Text.{ascii};
ghost use Rattle.lines.specs.Line.{has_key, read_line, taken_in};
ghost use Rattle.forms.specs.Sheet.{ruled, read_head};
ghost use Rattle.forms.specs.Places.{HeadedAs};

use super::Style;
use super::refusal::{bad_line, strange_form, strange_rules};
use lines::read::{read_number, skip_key};
use lists::Refusal;

// What stands before a sheet's lists, where these start in the text, and their first line.
#[derive(Clone, Copy)]
pub struct Head {
    pub style: Style,
    pub rules: u64,
    pub at: usize,
    pub line: usize,
}

// Whether a text begins with a key and its `=`.
#[tactic(auto, using(crate::proofs::Heads::key_begins))]
fn begins(text: &[u8], key: &[u8]) -> bool
    ensures { result ≡ has_key key.now text.now }
{
    skip_key(text, 0, key).is_some()
}

// The line of a key.
#[tactic(auto, using(lines::proofs::Placed::key_after, lines::proofs::Placed::key_missing))]
fn read_line(text: &[u8], at: usize, key: &[u8]) -> Option<(i64, usize)>
    requires { at ≤ length text.now }
    ensures { result ≡ taken_in (length text.now) (read_line key.now (drop at text.now)) }
{
    let start = skip_key(text, at, key)?;
    read_number(text, start)
}

// The rules line, at a line of the sheet. `most` is the largest rules number that is known.
fn read_rules(text: &[u8], at: usize, style: Style, most: u64, line: usize) -> Result<Head, Refusal>
    requires at_in_bounds { at ≤ length text.now }
    requires first_lines { line ≤ 1 }
    ensures { HeadedAs text.now (ruled style most line (read_line (ascii "rules") (drop at text.now))) result }
{
    let (rules, end) = read_line(text, at, b"rules").ok_or(bad_line(line))?;
    if rules < 1 || most < rules as u64 {
        return Err(strange_rules(line));
    }
    Ok(Head {
        style,
        rules: rules as u64,
        at: end,
        line: line + 1,
    })
}

// The forms are told apart by the first line; no rules line means rules 1.
pub fn read_head(text: &[u8], most: u64) -> Result<Head, Refusal>
    ensures { HeadedAs text.now (read_head most text.now) result }
{
    if begins(text, b"sheet") {
        let (form, end) = read_line(text, 0, b"sheet").ok_or(bad_line(0))?;
        if form != 2 {
            return Err(strange_form(0));
        }
        return read_rules(text, end, Style::Short, most, 1);
    }
    if begins(text, b"rules") {
        return read_rules(text, 0, Style::Old, most, 0);
    }
    Ok(Head {
        style: Style::Old,
        rules: 1,
        at: 0,
        line: 0,
    })
}
