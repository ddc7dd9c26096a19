// Prints the lists of a sheet: the checks, groups and ports, the analysis, the rows, and last the text, whose length is known before its
// first byte is written. Each stage has its arrays only while it runs.
ghost use Rattle.std.specs.Prelude.{Ok};
ghost use Rattle.std.specs.Prelude.{◌≡◌, ℕ, List, ◌*◌, ◌≤◌, length, ℤ};
ghost use Rattle.lists.specs.Records.{component_count, port_count};
ghost use Rattle.lists.specs.Ids.{member_of};
ghost use Rattle.signals.specs.Flags.{Numbers};
ghost use Rattle.assessment.specs.Upstream.{RowsEmpty};
ghost use Rattle.liveness.specs.Entry.{AnalyzedBy};
ghost use Rattle.inputs.specs.Inputs.{Ready};
ghost use Rattle.blocks.specs.Printed.{Printed};
ghost use Rattle.report.specs.Report.{report_of};
ghost use Rattle.sheet.specs.Written.{fits, PrintedBy};
ghost use Rattle.report.specs.Entry.{lists_checked};
ghost use Rattle.report.specs.Printing.{AskedOf, whole_text, Accepts, Gathered, Analyzed};

use super::fill::{cut_slopes, fill_components, fill_connections, fill_regions};
use super::rows::put_rows;
use super::unread::{fill_unread, put_unread};
use blocks::answer::put_accepted;
use blocks::{Block, put_block};
use checks::refusals::grouping_lists;
use circuit::settle::group;
use inputs::asked::{Asked, make_ready};
use lists::ends::{Ends, settle_ends};
use lists::views::{ComponentList, ConnectionList, PortList};
use lists::{COMPONENT, COMPONENTS, CONNECTIONS, Fault, KEPT, PORT, Refusal};
use liveness::plot::{Plot, Room};
use liveness::steps::analyze_prepared;
use liveness::{Analysis, Rows};
use scene::connections::keep_all;
use sets::ComponentSet;

// How many numbers the rows of a full scene have: of components, of kept connections, of regions, of sources, of inputs, and of the stack.
const COMPONENT_ROWS: usize = 6 * COMPONENTS;

const KEPT_ROWS: usize = KEPT * CONNECTIONS;

const REGION_ROWS: usize = 2 * COMPONENTS;

const SOURCE_ROWS: usize = 4 * COMPONENTS;

const INPUT_ROWS: usize = 12 * COMPONENTS;

const STACK: usize = 2 * COMPONENTS;

// The net and the fragment of each component, and the slope of each kept connection.
// `Gathered` is no ghost field of it: the functions below are not lent the connections that it relates these to, so that a field could
// only say that there are some, and each `ensures` is of the same ones.
#[derive(Clone, Copy)]
struct Groups<'a> {
    nets: &'a [u64],
    fragments: &'a [u64],
    slopes: &'a [u8],
}

// The rows of the text. `AskedOf` is no ghost field of what is asked: it binds the lists that a text is of, and each `ensures` is of the same
// ones.
#[derive(Clone, Copy)]
struct TextRows<'a> {
    components: &'a [u64],
    kept: &'a [u64],
    regions: &'a [u64],
    sources: &'a [u64],
    inputs: &'a [u64],
    unread: &'a [u64],
}

// ---- the text by its rows

// Writes the report at the front of `out` where it fits, and answers how long it is.
fn put_whole(out: &mut [u8], asked: &Asked, rows: &TextRows) -> usize
    ensures { let a = asked.now in let t = rows.now in
        (ps fs : List ℤ) → AskedOf a ps fs →
        let text = whole_text a.rules a.components.now ps fs
        t.components.now t.kept.now t.regions.now t.sources.now t.inputs.now t.unread.now in
        Printed 0 text out.old out.new result }
{
    let a = put_accepted(out, 0);
    let b = put_block(out, a, Block::Components, rows.components);
    let c = put_block(out, b, Block::Connections, rows.kept);
    let d = put_block(out, c, Block::Regions, rows.regions);
    let e = put_block(out, d, Block::Sources, rows.sources);
    let f = put_rows(out, e, asked, rows.inputs);
    put_unread(out, f, asked.rules, rows.unread)
}

// Prints a report given its rows, where it fits: it is measured by a buffer with no room.
fn print_rows(asked: &Asked, rows: &TextRows, out: &mut [u8]) -> Result<usize, Refusal>
    ensures { let a = asked.now in let t = rows.now in
        (ps fs : List ℤ) → AskedOf a ps fs →
        let text = whole_text a.rules a.components.now ps fs
        t.components.now t.kept.now t.regions.now t.sources.now t.inputs.now t.unread.now in
        PrintedBy (fits text (length out.old)) text out.old out.new result }
{
    let length = put_whole(&mut [], asked, rows);
    if out.len() < length {
        return Err(Refusal {
            fault: Fault::ShortSlice,
            list: None,
            item: 0,
        });
    }
    Ok(put_whole(out, asked, rows))
}

// ---- the rows of a scene

// Prints what the analysis of the kept connections gave: `rows` is what it wrote.
// Not a part of its caller's frame: these rows and the tables of an analysis are never on the stack at the same time.
#[inline(never)]
fn print_analysis(
    asked: &Asked,
    ports: &[i64],
    members: &[u16],
    groups: &Groups,
    rows: &Rows,
    found: Analysis,
    out: &mut [u8],
) -> Result<usize, Refusal>
    requires members { let cs = asked.now.components.now in Numbers (component_count cs) (member_of cs) members.now }
    requires gathered { let a = asked.now in let g = groups.now in
        (ps : List ℤ) × Gathered a.rules a.components.now ps ports.now g.nets.now g.fragments.now g.slopes.now }
    requires analyzed { let a = asked.now in let r = rows.now in
        (fs : List ℤ) × (AskedOf a ports.now fs ×
        Analyzed a.rules a.components.now ports.now fs r.regions.now r.sources.now r.inputs.now found) }
    ensures { let a = asked.now in let g = groups.now in let r = rows.now in
        (ps fs : List ℤ) → Gathered a.rules a.components.now ps ports.now g.nets.now g.fragments.now g.slopes.now →
        AskedOf a ports.now fs →
        Analyzed a.rules a.components.now ports.now fs r.regions.now r.sources.now r.inputs.now found →
        let text = report_of a.rules a.components.now ps fs in
        PrintedBy (fits text (length out.old)) text out.old out.new result }
{
    let n = asked.keys.len();
    let count = found.regions;
    let mut components = [0u64; COMPONENT_ROWS];
    let mut kept = [0u64; KEPT_ROWS];
    let mut marks = [0u64; REGION_ROWS];
    let mut ids = [0u64; COMPONENTS];
    let listed = asked.component_list();
    fill_components(
        listed,
        members,
        groups.nets,
        groups.fragments,
        rows.regions,
        found.drive,
        found.potential,
        &mut components,
    );
    fill_connections(ports, groups.slopes, &mut kept);
    fill_regions(count, found.cyclic, found.has_drive, &mut marks);
    let blank = fill_unread(asked.rules, listed, &mut ids);
    let text = TextRows {
        components: &components[..6 * n],
        kept: &kept[..KEPT * groups.slopes.len()],
        regions: &marks[..2 * count],
        sources: rows.sources,
        inputs: rows.inputs,
        unread: &ids[..blank],
    };
    print_rows(asked, &text, out)
}

// Copies a slice of equal length. A loop: std's own copy has an archive for C need memmove from outside.
fn copy(from: &[u16], to: &mut [u16])
    requires { length from.now ≡ length to.old }
    ensures { to.new ≡ from.now }
{
    for (k, slot) in to.iter_mut().enumerate() {
        *slot = from[k];
    }
}

// Analyzes the kept connections of a scene, fills what its ports are asked by, and leaves each component's member: all of one preparation.
// Not a part of its caller's frame: the room and the stack are needed here alone.
#[inline(never)]
fn analyze_once(
    plot: &Plot,
    regions: &mut [u64],
    sources: &mut [u64],
    inputs: &mut [u64],
    fed: &mut [u64],
    labels: &mut [u16],
    members: &mut [u16],
    upstream: &mut [ComponentSet; COMPONENTS],
) -> Analysis
    requires rows_room { let n = component_count plot.now.components.now in
        (n ≤ length regions.old) × ((4 * n ≤ length sources.old) × (12 * n ≤ length inputs.old)) }
    requires tables_len { let p = plot.now in let n = component_count p.components.now in
        (length fed.old ≡ port_count p.ports.now) × ((length labels.old ≡ n) × (length members.old ≡ n)) }
    requires upstream { RowsEmpty upstream.old }
    ensures analyzed { let p = plot.now in (stack stack' : List ℕ) ×
        AnalyzedBy (Ok tt) p.rules p.components.now p.ports.now p.frontiers.now
        regions.old regions.new sources.old sources.new inputs.old inputs.new stack stack' (Ok result) }
    ensures ready { let p = plot.now in Ready p.rules p.components.now p.ports.now p.frontiers.now fed.new labels.new upstream.new }
    ensures members { let cs = plot.now.components.now in Numbers (component_count cs) (member_of cs) members.new }
{
    let mut room = Room::new();
    let mut stack = [0usize; STACK];
    let prepared = plot.prepare(&mut room, &mut stack);
    make_ready(&prepared, fed, upstream);
    copy(prepared.labels, labels);
    copy(prepared.members, members);
    analyze_prepared(&prepared, regions, sources, inputs, &mut stack)
}

// Analyzes the kept connections of a scene and prints its report. The rows of the report are filled only after the analysis, so that the two
// have no arrays at the same time.
fn print_plot(plot: &Plot, groups: &Groups, out: &mut [u8]) -> Result<usize, Refusal>
    requires { let p = plot.now in let g = groups.now in
        (ps : List ℤ) × Gathered p.rules p.components.now ps p.ports.now g.nets.now g.fragments.now g.slopes.now }
    ensures { let p = plot.now in let g = groups.now in
        (ps : List ℤ) → Gathered p.rules p.components.now ps p.ports.now g.nets.now g.fragments.now g.slopes.now →
        let text = report_of p.rules p.components.now ps p.frontiers.now in
        PrintedBy (fits text (length out.old)) text out.old out.new result }
{
    let n = plot.keys.len();
    let m = plot.port_list().count();
    let mut regions = [0u64; COMPONENTS];
    let mut sources = [0u64; SOURCE_ROWS];
    let mut inputs = [0u64; INPUT_ROWS];
    let mut all_fed = [0u64; CONNECTIONS];
    let mut all_labels = [0u16; COMPONENTS];
    let mut all_members = [0u16; COMPONENTS];
    let mut upstream = [ComponentSet::empty(); COMPONENTS];
    let fed = &mut all_fed[..m];
    let labels = &mut all_labels[..n];
    let members = &mut all_members[..n];
    let found = analyze_once(
        plot,
        &mut regions,
        &mut sources,
        &mut inputs,
        fed,
        labels,
        members,
        &mut upstream,
    );
    let asked = Asked {
        keys: plot.keys,
        components: plot.components,
        rules: plot.rules,
        fed,
        labels,
        upstream: &upstream,
    };
    let rows = Rows {
        regions: &regions,
        sources: &sources[..found.sources * 2],
        inputs: &inputs[..found.inputs * 3],
    };
    print_analysis(&asked, plot.ports, members, groups, &rows, found, out)
}

// Prints the report of the kept connections of a scene, given its groups.
fn print_kept(
    rules: u64,
    keys: &[u64],
    scene: &[i64],
    ports: &[i64],
    frontiers: &[i64],
    groups: &Groups,
    out: &mut [u8],
) -> Result<usize, Refusal>
    requires { let g = groups.now in
        (ps : List ℤ) × (Accepts rules scene.now ps frontiers.now keys.now ×
        Gathered rules scene.now ps ports.now g.nets.now g.fragments.now g.slopes.now) }
    ensures { let g = groups.now in
        (ps : List ℤ) → Accepts rules scene.now ps frontiers.now keys.now →
        Gathered rules scene.now ps ports.now g.nets.now g.fragments.now g.slopes.now →
        let text = report_of rules scene.now ps frontiers.now in
        PrintedBy (fits text (length out.old)) text out.old out.new result }
{
    let mut ends = [Ends { source: 0, sink: 0 }; CONNECTIONS];
    let linked = PortList { numbers: ports };
    settle_ends(keys, linked, &mut ends);
    let plot = Plot {
        keys,
        components: scene,
        ports,
        frontiers,
        rules,
        ends: &ends,
    };
    print_plot(&plot, groups, out)
}

// Prints the report of an accepted scene, given its table of ids.
fn print_scene(
    rules: u64,
    keys: &[u64],
    scene: &[i64],
    connections: &[i64],
    frontiers: &[i64],
    out: &mut [u8],
) -> Result<usize, Refusal>
    requires { Accepts rules scene.now connections.now frontiers.now keys.now }
    ensures { let text = report_of rules scene.now connections.now frontiers.now in
        PrintedBy (fits text (length out.old)) text out.old out.new result }
{
    let mut nets = [0u64; COMPONENTS];
    let mut fragments = [0u64; COMPONENTS];
    let mut ports = [0i64; KEPT_ROWS];
    let listed = ComponentList { numbers: scene };
    let connected = ConnectionList {
        numbers: connections,
    };
    group(keys, connected, &mut nets, &mut fragments);
    let count = keep_all(rules, listed, keys, connected, &mut ports);
    let mut all_slopes = [0u8; CONNECTIONS];
    let slopes = &mut all_slopes[..count];
    cut_slopes(&mut ports, slopes);
    let groups = Groups {
        nets: &nets,
        fragments: &fragments,
        slopes,
    };
    print_kept(
        rules,
        keys,
        scene,
        &ports[..count * PORT],
        frontiers,
        &groups,
        out,
    )
}

// Checks the three lists of a sheet and prints their report, where it fits.
pub(crate) fn print_lists(
    rules: u64,
    components: &[i64],
    connections: &[i64],
    frontiers: &[i64],
    out: &mut [u8],
) -> Result<usize, Refusal>
    ensures { PrintedBy (lists_checked rules components.now connections.now frontiers.now (length out.old))
        (report_of rules components.now connections.now frontiers.now) out.old out.new result }
{
    let mut keys = [0u64; COMPONENTS];
    let count = components.len() / COMPONENT;
    grouping_lists(rules, components, connections, frontiers, true, &mut keys)?;
    print_scene(
        rules,
        &keys[..count],
        components,
        connections,
        frontiers,
        out,
    )
}
