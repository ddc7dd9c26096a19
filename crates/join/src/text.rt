// The joined sheet, in the old form: measured, and written over the front of a buffer.
ghost use Rattle.std.specs.Prelude.{◌≡◌, ◌/◌, ◌%◌, ◌≤◌, ◌++◌, length, min};
ghost use Rattle.lines.specs.Wrote.{Wrote};
ghost use Rattle.lists.specs.Limits.{connection_limit, frontier_width};
ghost use Rattle.lists.specs.declared.Section.TheVariants.{Frontiers};
ghost use Rattle.forms.specs.Places.{greatest};
ghost use Rattle.forms.specs.Tables.{width_of};
ghost use Rattle.forms.specs.Writing.{list_text};
ghost use Rattle.forms.specs.declared.Style.TheVariants.{Old};
ghost use Rattle.joining.specs.Merge.{merged};
ghost use Rattle.joining.specs.Cursor.{FieldsBelow};
ghost use Rattle.joining.specs.Plot.{plot_of, joined};
ghost use Rattle.join.specs.Entry.{plot_text};

use super::merged::{merged_length, write_merged};
use forms::Style;
use forms::table::{count_key, form_of};
use forms::text::{head_length, write_head};
use forms::write::{records_length, write_records};
use joining::Plot;
use joining::joined::{COMPONENT_ORDER, CONNECTION_ORDER};
use joining::merging::merged_count;
use lines::write::{line_length, write_line};
use lists::{FRONTIER, Section};

// ---- how many bytes it takes, or the greatest number where that is more

// A list of which each sheet has some, each record once.
fn united_length(section: Section, fields: &[usize], a: &[i64], b: &[i64]) -> usize
    requires fields_below { FieldsBelow (width_of section) fields.now }
    requires few { (length a.now / width_of section ≤ connection_limit) × (length b.now / width_of section ≤ connection_limit) }
    ensures { result ≡ min (length (list_text Old section (merged fields.now (width_of section) a.now b.now))) greatest }
{
    let form = form_of(Style::Old, section);
    let count = merged_count(fields, form.fields.len(), a, b);
    let line = line_length(count_key(section), count as u64);
    line.saturating_add(merged_length(form, fields, a, b))
}

// The frontiers, those of the first sheet before those of the second.
fn frontiers_length(a: &[i64], b: &[i64]) -> usize
    requires { (length a.now % frontier_width ≡ 0) × (length b.now % frontier_width ≡ 0) }
    ensures { result ≡ min (length (list_text Old Frontiers (a.now ++ b.now))) greatest }
{
    let form = form_of(Style::Old, Section::Frontiers);
    let count = a.len() / FRONTIER + b.len() / FRONTIER;
    let line = line_length(count_key(Section::Frontiers), count as u64);
    let first = line.saturating_add(records_length(form, a));
    first.saturating_add(records_length(form, b))
}

pub fn joined_length(rules: u64, first: Plot, second: Plot) -> usize
    ensures { let p = plot_of first.entry.components.now first.entry.connections.now first.entry.frontiers.now in
        let q = plot_of second.entry.components.now second.entry.connections.now second.entry.frontiers.now in
        result ≡ min (length (plot_text rules (joined p q))) greatest }
{
    let a = head_length(Style::Old, rules);
    let components = united_length(
        Section::Components,
        &COMPONENT_ORDER,
        first.components,
        second.components,
    );
    let b = a.saturating_add(components);
    let connections = united_length(
        Section::Connections,
        &CONNECTION_ORDER,
        first.connections,
        second.connections,
    );
    let c = b.saturating_add(connections);
    c.saturating_add(frontiers_length(first.frontiers, second.frontiers))
}

// ---- written

fn write_united(out: &mut [u8], section: Section, fields: &[usize], a: &[i64], b: &[i64]) -> usize
    requires fields_below { FieldsBelow (width_of section) fields.now }
    requires few { (length a.now / width_of section ≤ connection_limit) × (length b.now / width_of section ≤ connection_limit) }
    requires room { length (list_text Old section (merged fields.now (width_of section) a.now b.now)) ≤ length out.old }
    ensures { Wrote (list_text Old section (merged fields.now (width_of section) a.now b.now)) out.old out.new result }
{
    let form = form_of(Style::Old, section);
    let count = merged_count(fields, form.fields.len(), a, b);
    let at = write_line(out, count_key(section), count as u64);
    at + write_merged(&mut out[at..], form, fields, a, b)
}

fn write_frontiers(out: &mut [u8], a: &[i64], b: &[i64]) -> usize
    requires whole { (length a.now % frontier_width ≡ 0) × (length b.now % frontier_width ≡ 0) }
    requires room { length (list_text Old Frontiers (a.now ++ b.now)) ≤ length out.old }
    ensures { Wrote (list_text Old Frontiers (a.now ++ b.now)) out.old out.new result }
{
    let form = form_of(Style::Old, Section::Frontiers);
    let count = a.len() / FRONTIER + b.len() / FRONTIER;
    let x = write_line(out, count_key(Section::Frontiers), count as u64);
    let y = x + write_records(&mut out[x..], form, a);
    y + write_records(&mut out[y..], form, b)
}

// Writes it, and answers how many bytes that took.
pub fn write_joined(out: &mut [u8], rules: u64, first: Plot, second: Plot) -> usize
    requires { let p = plot_of first.components.now first.connections.now first.frontiers.now in
        let q = plot_of second.components.now second.connections.now second.frontiers.now in
        length (plot_text rules (joined p q)) ≤ length out.old }
    ensures { let p = plot_of first.entry.components.now first.entry.connections.now first.entry.frontiers.now in
        let q = plot_of second.entry.components.now second.entry.connections.now second.entry.frontiers.now in
        Wrote (plot_text rules (joined p q)) out.old out.new result }
{
    let a = write_head(out, Style::Old, rules);
    let b = a
        + write_united(
            &mut out[a..],
            Section::Components,
            &COMPONENT_ORDER,
            first.components,
            second.components,
        );
    let c = b
        + write_united(
            &mut out[b..],
            Section::Connections,
            &CONNECTION_ORDER,
            first.connections,
            second.connections,
        );
    c + write_frontiers(&mut out[c..], first.frontiers, second.frontiers)
}
