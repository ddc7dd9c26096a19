// The analysis of an accepted scene, stage by stage: a prepared scene, marks, rows, sets.
ghost use Rattle.std.specs.Prelude.{Ok};
ghost use Rattle.std.specs.Prelude.{◌≡◌, ◌≤◌, length, get_or};
ghost use Rattle.lists.specs.Limits.{component_limit};
ghost use Rattle.lists.specs.Records.{component_count};
ghost use Rattle.lists.specs.First.{tabulate};
ghost use Rattle.lists.specs.Slices.{laid};
ghost use Rattle.regions.specs.Search.{Zeros};
ghost use Rattle.signals.specs.Sources.{is_on_frontier};
ghost use Rattle.signals.specs.Regions.{holds_drive, is_cyclic, is_inferred};
ghost use Rattle.signals.specs.Flags.{Flags};
ghost use Rattle.liveness.specs.Entry.{AnalyzedBy};
ghost use Rattle.liveness.specs.Scene.{Driven, Marked, MarkRoom, RowsRoom, AnswerBy};

use super::Analysis;
use super::alive::flag_alive;
use super::infer::flag_inferred;
use super::plot::{Plot, PreparedPlot, Room};
use assessment::slots::write_verdicts;
use assessment::sources::{drive_flags, frontier_flags};
use assessment::verdicts::put_sources;
use lists::COMPONENTS;
use sets::ComponentSet;
use signals::flags::gather;
use signals::stages::find_cyclic;

// How many source rows and verdict rows were written.
#[derive(Clone, Copy)]
pub struct RowCounts {
    pub sources: usize,
    pub inputs: usize,
}

// Flags the components on frontiers, the drive sources, and the regions that hold one.
pub fn flag_drive(
    plot: &PreparedPlot,
    on_frontier: &mut [bool],
    drive_at: &mut [bool],
    has_drive: &mut [bool],
)
    requires components { let n = component_count plot.now.plot.components.now in
        (n ≤ length on_frontier.old) × (n ≤ length drive_at.old) }
    requires regions { length has_drive.old ≡ component_limit }
    ensures { let p = plot.now.plot in
        Driven p.components.now p.ports.now p.frontiers.now on_frontier.new drive_at.new has_drive.new }
{
    let lists = plot.plot;
    frontier_flags(lists.components, lists.frontiers, on_frontier);
    drive_flags(lists.component_list(), on_frontier, drive_at);
    gather(plot.region_at, drive_at, has_drive);
}

// Flags the components on frontiers, the regions that hold a drive source, and the inferred inputs by list place.
pub fn flag_inputs(
    plot: &PreparedPlot,
    on_frontier: &mut [bool],
    has_drive: &mut [bool],
    inferred: &mut [bool],
)
    requires components_in_bounds { let n = component_count plot.now.plot.components.now in
        (n ≤ length on_frontier.old) × (n ≤ length inferred.old) }
    requires has_drive_len { length has_drive.old ≡ component_limit }
    ensures frontier_flags { let p = plot.now.plot in
        Flags (component_count p.components.now) (is_on_frontier p.components.now p.frontiers.now) on_frontier.new }
    ensures region_flags { let p = plot.now.plot in
        Flags component_limit (holds_drive p.components.now p.ports.now p.frontiers.now) has_drive.new }
    ensures inferred_flags { let p = plot.now.plot in
        Flags (component_count p.components.now) (is_inferred p.rules p.components.now p.ports.now p.frontiers.now) inferred.new }
{
    let mut drive_at = [false; COMPONENTS];
    flag_drive(plot, on_frontier, &mut drive_at, has_drive);
    flag_inferred(plot, has_drive, inferred);
}

// All marks of a plot.
fn mark(
    plot: &PreparedPlot,
    on_frontier: &mut [bool],
    inferred: &mut [bool],
    has_drive: &mut [bool],
    drive: &mut [bool],
    potential: &mut [bool],
)
    requires { MarkRoom plot.now.plot.components.now on_frontier.old inferred.old has_drive.old drive.old potential.old }
    ensures { let p = plot.now.plot in
        Marked p.rules p.components.now p.ports.now p.frontiers.now on_frontier.new inferred.new has_drive.new drive.new potential.new }
{
    flag_inputs(plot, on_frontier, has_drive, inferred);
    flag_alive(plot, has_drive, inferred, drive, potential);
}

// Writes the region of each component, in list order: the array lent has room for the most.
pub fn put_regions(region_at: &[u16], regions: &mut [u64])
    requires { length region_at.now ≤ length regions.old }
    ensures { regions.new ≡ laid (tabulate (λ p. get_or region_at.now p 0) (length region_at.now)) regions.old }
{
    for (p, region) in region_at.iter().enumerate() {
        regions[p] = u64::from(*region);
    }
}

// The answer: the counts as given, and the sets of the flags.
fn answer(
    plot: &PreparedPlot,
    drive: &[bool],
    potential: &[bool],
    has_drive: &[bool],
    counts: RowCounts,
) -> Analysis
    requires count { let p = plot.now in (p.count ≤ component_limit) × (p.count ≤ length has_drive.now) }
    requires labels_in_bounds { (length plot.now.labels.now ≤ length drive.now) × (length plot.now.labels.now ≤ length potential.now) }
    ensures { let p = plot.now in AnswerBy (length p.labels.now) p.count counts.sources counts.inputs drive.now potential.now has_drive.now
        (is_cyclic p.plot.components.now p.plot.ports.now) result }
{
    let n = plot.labels.len();
    let count = plot.count;
    let mut cyclic = [false; COMPONENTS];
    find_cyclic(plot.forward, plot.labels, &mut cyclic);
    Analysis {
        regions: count,
        sources: counts.sources,
        inputs: counts.inputs,
        drive: ComponentSet::of_flags(&drive[..n]),
        potential: ComponentSet::of_flags(&potential[..n]),
        cyclic: ComponentSet::of_flags(&cyclic[..count]),
        has_drive: ComponentSet::of_flags(&has_drive[..count]),
    }
}

// Marks a prepared plot, writes its rows and answers. The stack is zero already, as it is to be left.
pub fn analyze_prepared(
    plot: &PreparedPlot,
    regions: &mut [u64],
    sources: &mut [u64],
    inputs: &mut [u64],
    stack: &mut [usize],
) -> Analysis
    requires rows_room { RowsRoom plot.now.plot.components.now regions.old sources.old inputs.old stack.old }
    requires stack_zeros { Zeros stack.old }
    ensures { let p = plot.now.plot in
        AnalyzedBy (Ok tt) p.rules p.components.now p.ports.now p.frontiers.now
        regions.old regions.new sources.old sources.new inputs.old inputs.new stack.old stack.new (Ok result) }
{
    let lists = plot.plot;
    let n = plot.labels.len();
    let mut on_frontier = [false; COMPONENTS];
    let mut inferred = [false; COMPONENTS];
    let mut has_drive = [false; COMPONENTS];
    let mut drive = [false; COMPONENTS];
    let mut potential = [false; COMPONENTS];
    mark(
        plot,
        &mut on_frontier,
        &mut inferred,
        &mut has_drive,
        &mut drive[..n],
        &mut potential[..n],
    );
    put_regions(plot.region_at, regions);
    let listed = lists.component_list();
    let counts = RowCounts {
        sources: put_sources(listed, &on_frontier, &inferred, sources),
        inputs: write_verdicts(
            lists.rules,
            listed,
            plot.members,
            lists.port_list(),
            lists.ends,
            &drive[..n],
            &potential[..n],
            inputs,
        ),
    };
    answer(plot, &drive[..n], &potential[..n], &has_drive, counts)
}

// Analyzes a plot: the counts and the sets; the rows at the front of the lent slices. Leaves the stack zero.
pub fn analyze(
    plot: &Plot,
    regions: &mut [u64],
    sources: &mut [u64],
    inputs: &mut [u64],
    stack: &mut [usize],
) -> Analysis
    requires { RowsRoom plot.now.components.now regions.old sources.old inputs.old stack.old }
    ensures { let p = plot.now in
        AnalyzedBy (Ok tt) p.rules p.components.now p.ports.now p.frontiers.now
        regions.old regions.new sources.old sources.new inputs.old inputs.new stack.old stack.new (Ok result) }
{
    let mut room = Room::new();
    let prepared = plot.prepare(&mut room, stack);
    analyze_prepared(&prepared, regions, sources, inputs, stack)
}
