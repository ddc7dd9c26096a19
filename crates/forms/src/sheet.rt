// The first pass over a sheet of either form: finds its first fault, or its form, its rules and where its lists stand. It changes nothing.
ghost use Rattle.std.specs.Prelude.{◌≡◌, ◌≤◌, length, drop};
ghost use Rattle.forms.specs.Sheet.{parse_lists, parse};
ghost use Rattle.forms.specs.Places.{cut_limits, OutlinedAs};

use super::find::find_list;
use super::head::{Head, read_head};
use super::refusal::bad_line;
use super::{Counts, Place, Style};
use lists::{COMPONENTS, CONNECTIONS, FRONTIERS, Refusal, Section};

// A sheet: its form, its rules, and where its lists stand.
#[derive(Clone, Copy)]
pub struct Sheet {
    pub style: Style,
    pub rules: u64,
    pub components: Place,
    pub connections: Place,
    pub frontiers: Place,
}

// The limits, cut to those of a scene.
fn cut(limits: Counts) -> Counts
    ensures { result ≡ cut_limits limits.components limits.connections limits.frontiers }
{
    Counts {
        components: limits.components.min(COMPONENTS),
        connections: limits.connections.min(CONNECTIONS),
        frontiers: limits.frontiers.min(FRONTIERS),
    }
}

// Checks the three lists behind a head.
pub fn find_lists(text: &[u8], head: Head, limits: Counts) -> Result<Sheet, Refusal>
    requires at_in_bounds { head.at ≤ length text.now }
    requires first_lines { head.line ≤ 2 }
    ensures { let lists = parse_lists limits.components limits.connections limits.frontiers in
        OutlinedAs text.now (lists head.style head.rules (drop head.at text.now) head.line) result }
{
    let most = cut(limits);
    let style = head.style;
    let components = find_list(
        text,
        head.at,
        style,
        Section::Components,
        most.components,
        head.line,
    )?;
    let connections = find_list(
        text,
        components.end,
        style,
        Section::Connections,
        most.connections,
        components.line,
    )?;
    let frontiers = find_list(
        text,
        connections.end,
        style,
        Section::Frontiers,
        most.frontiers,
        connections.line,
    )?;
    if frontiers.end < text.len() {
        return Err(bad_line(frontiers.line));
    }
    Ok(Sheet {
        style,
        rules: head.rules,
        components,
        connections,
        frontiers,
    })
}

// Checks a sheet. `most` is the largest rules number that is known; the limits, the most records of each list, are cut to those of a scene.
pub fn check_sheet(text: &[u8], most: u64, limits: Counts) -> Result<Sheet, Refusal>
    ensures { OutlinedAs text.now (parse most limits.components limits.connections limits.frontiers text.now) result }
{
    let head = read_head(text, most)?;
    find_lists(text, head, limits)
}
