// The join of two sheets (document 02, R-9): each is read into lent work lists, the second's records behind the first's, its lists are
// checked, and the joined sheet is written into a lent buffer where it fits.
// Lent slices stay parameters: a struct of `&mut` fields would owe a ghost name for what each is left as.
#![tactic(auto)]

pub mod merged;
pub mod text;

ghost use Rattle.std.specs.Prelude.{◌≡◌, ◌-◌, ◌*◌, ◌≤◌, None, length, take};
ghost use Rattle.lists.specs.Ids.{IdTable};
ghost use Rattle.lists.specs.Limits.{component_width, connection_width, frontier_width};
ghost use Rattle.checks.specs.Refusals.{refuse, ◌or_else◌};
ghost use Rattle.sheet.specs.Written.{fits, PrintedBy};
ghost use Rattle.joining.specs.Plot.{plot_of, Valid, joined, conflict_of, too_many};
ghost use Rattle.join.specs.Entry.{parsed_by, plot_said, plot_text, other_rules, in_sheet, TextJoined, SheetsJoined};
ghost use Rattle.join.specs.Texts.{lists_joined, behind_joined};

use checks::refusals::{grouping_lists, refuse_at};
use forms::Counts;
use joining::Plot;
use joining::joined::refuse_join;
use lists::{COMPONENT, COMPONENTS, CONNECTION, CONNECTIONS, FRONTIER, FRONTIERS, Fault, Refusal};
use sheet::{Sheet, read_sheet};
use text::{joined_length, write_joined};

// The library's limits.
const LIMITS: Counts = Counts {
    components: COMPONENTS,
    connections: CONNECTIONS,
    frontiers: FRONTIERS,
};

// Why two sheets are not joined: the refusal, and the sheet that it is of, 1 or 2, or 0 for both.
#[derive(Clone, Copy)]
pub struct JoinRefusal {
    pub sheet: u64,
    pub refusal: Refusal,
}

// 13: the rules differ.
fn other_rules(first: u64, second: u64) -> Option<usize>
    ensures { result ≡ other_rules first second }
{
    if first == second { None } else { Some(0) }
}

// What is said of a sheet, or of both.
fn in_sheet<T: Copy>(sheet: u64, said: Result<T, Refusal>) -> Result<T, JoinRefusal>
    ensures { result ≡ in_sheet sheet said }
{
    match said {
        Ok(value) => Ok(value),
        Err(refusal) => Err(JoinRefusal { sheet, refusal }),
    }
}

// What is asked of both, and the joined sheet, where it fits. `keys` is the table of ids of the first plot's components.
fn join_plots(
    rules: u64,
    other: u64,
    keys: &[u64],
    first: Plot,
    second: Plot,
    out: &mut [u8],
) -> Result<usize, Refusal>
    requires { IdTable first.components.now keys.now }
    ensures { let p = plot_of first.entry.components.now first.entry.connections.now first.entry.frontiers.now in
        let q = plot_of second.entry.components.now second.entry.connections.now second.entry.frontiers.now in
        let text = plot_text rules (joined p q) in
        PrintedBy (refuse Fault.OtherRules None (other_rules rules other) or_else (conflict_of p q or_else too_many (joined p q))
        or_else fits text (length out.old)) text out.old out.new result }
{
    refuse_at(Fault::OtherRules, None, other_rules(rules, other))?;
    refuse_join(keys, first, second)?;
    if out.len() < joined_length(rules, first, second) {
        return Err(Refusal {
            fault: Fault::ShortSlice,
            list: None,
            item: 0,
        });
    }
    Ok(write_joined(out, rules, first, second))
}

// The second sheet's lists are checked, and then both plots are joined. `keys` is the table of ids of the first plot's components.
fn join_lists(
    rules: u64,
    keys: &[u64],
    first: Plot,
    other: u64,
    components: &[i64],
    connections: &[i64],
    frontiers: &[i64],
    out: &mut [u8],
) -> Result<usize, JoinRefusal>
    requires table { IdTable first.components.now keys.now }
    requires valid { Valid rules (plot_of first.components.now first.connections.now first.frontiers.now) }
    ensures { let p = plot_of first.entry.components.now first.entry.connections.now first.entry.frontiers.now in
        let q = plot_of components.now connections.now frontiers.now in
        TextJoined (lists_joined rules p other q (length out.old)) (plot_text rules (joined p q)) out.old out.new result }
{
    let mut spare = [0u64; COMPONENTS];
    let checked = grouping_lists(other, components, connections, frontiers, true, &mut spare);
    in_sheet(2, checked)?;
    let second = Plot {
        components,
        connections,
        frontiers,
    };
    in_sheet(0, join_plots(rules, other, keys, first, second, out))
}

// The first sheet's lists are checked, and the second sheet is read into what is left of the work lists.
fn join_behind(
    rules: u64,
    components: &[i64],
    connections: &[i64],
    frontiers: &[i64],
    text: &[u8],
    components_left: &mut [i64],
    connections_left: &mut [i64],
    frontiers_left: &mut [i64],
    out: &mut [u8],
) -> Result<usize, JoinRefusal>
    ensures { let p = plot_of components.now connections.now frontiers.now in
        let q = parsed_by text.now in
        let checks = behind_joined rules p q (length components_left.old) (length connections_left.old) (length frontiers_left.old)
        (length out.old) in
        TextJoined checks
        (plot_text rules (joined p (plot_said q))) out.old out.new result }
{
    let mut keys = [0u64; COMPONENTS];
    let checked = grouping_lists(rules, components, connections, frontiers, true, &mut keys);
    in_sheet(1, checked)?;
    let read = read_sheet(
        text,
        LIMITS,
        components_left,
        connections_left,
        frontiers_left,
    );
    let second = in_sheet(2, read)?;
    let counts = second.counts;
    let count = components.len() / COMPONENT;
    let first = Plot {
        components,
        connections,
        frontiers,
    };
    join_lists(
        rules,
        &keys[..count],
        first,
        second.rules,
        &components_left[..counts.components * COMPONENT],
        &connections_left[..counts.connections * CONNECTION],
        &frontiers_left[..counts.frontiers * FRONTIER],
        out,
    )
}

// The records of the first sheet are parted from what is left of the work lists.
fn join_read(
    first: Sheet,
    text: &[u8],
    components: &mut [i64],
    connections: &mut [i64],
    frontiers: &mut [i64],
    out: &mut [u8],
) -> Result<usize, JoinRefusal>
    requires { (first.counts.components * component_width ≤ length components.old)
        × ((first.counts.connections * connection_width ≤ length connections.old)
        × (first.counts.frontiers * frontier_width ≤ length frontiers.old)) }
    ensures { let a = first.counts.components * component_width in
        let b = first.counts.connections * connection_width in
        let c = first.counts.frontiers * frontier_width in
        let p = plot_of (take a components.old) (take b connections.old) (take c frontiers.old) in
        let q = parsed_by text.now in
        let checks = behind_joined first.rules p q (length components.old - a) (length connections.old - b) (length frontiers.old - c)
        (length out.old) in
        TextJoined checks
        (plot_text first.rules (joined p (plot_said q))) out.old out.new result }
{
    let counts = first.counts;
    let (a, components_left) = components.split_at_mut(counts.components * COMPONENT);
    let (b, connections_left) = connections.split_at_mut(counts.connections * CONNECTION);
    let (c, frontiers_left) = frontiers.split_at_mut(counts.frontiers * FRONTIER);
    join_behind(
        first.rules,
        a,
        b,
        c,
        text,
        components_left,
        connections_left,
        frontiers_left,
        out,
    )
}

// The joined sheet, given work lists for the lists of both sheets, and the buffer.
pub fn join_sheets(
    first: &[u8],
    second: &[u8],
    components: &mut [i64],
    connections: &mut [i64],
    frontiers: &mut [i64],
    out: &mut [u8],
) -> Result<usize, JoinRefusal>
    ensures { SheetsJoined first.now second.now components.old components.new connections.old connections.new frontiers.old frontiers.new
        out.old out.new result }
{
    let read = read_sheet(first, LIMITS, components, connections, frontiers);
    let sheet = in_sheet(1, read)?;
    let written = join_read(sheet, second, components, connections, frontiers, out);
    components.fill(0);
    connections.fill(0);
    frontiers.fill(0);
    written
}
