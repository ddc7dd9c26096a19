// The sets of many ports of one accepted scene, which is prepared once: for each region, the inferred inputs upstream of it stand in a
// table.
ghost use Rattle.std.proofs.Props.{props};
ghost use Rattle.std.specs.Prelude.{◌≡◌, List, ℕ, ◌*◌, ◌^◌, ◌≤◌, ◌<◌, length, ℤ};
ghost use Rattle.tables.specs.Order.{Ascending};
ghost use Rattle.lists.specs.Limits.{component_limit};
ghost use Rattle.lists.specs.Records.{port_count};
ghost use Rattle.lists.specs.Ids.{IdTable};
ghost use Rattle.signals.specs.Flags.{Indices};
ghost use Rattle.assessment.specs.Rows.{SlotWithin};
ghost use Rattle.assessment.specs.Upstream.{RowsEmpty};
ghost use Rattle.inputs.specs.Query.{row_place, PortSets};
ghost use Rattle.inputs.specs.Inputs.{Ready, SlotSets};

use super::InputSources;
use super::query::inferred_members;
use super::row::row_place;
use super::slot::slot_keys;
use assessment::upstream::upstream_rows;
use lists::COMPONENTS;
use lists::ids::member_of;
use lists::views::ComponentList;
use liveness::plot::PreparedPlot;
use sets::ComponentSet;
use signals::edges::PORTS;
use signals::stages::build_fed;
use tables::SPAN;

// What the ports of a scene are asked by: the rules number, the table of its components' ids, its edges by the port that they feed, the regions of its
// members, and the rows of the inferred inputs upstream of each region.
#[derive(Clone, Copy)]
pub struct Asked<'a> {
    pub rules: u64,
    pub keys: &'a [u64],
    pub components: &'a [i64],
    pub fed: &'a [u64],
    pub labels: &'a [u16],
    pub upstream: &'a [ComponentSet; COMPONENTS],
    pub ghost table: { IdTable components.now keys.now } by { Prim.hlevel props },
    pub ghost ready: { ∥ ((ps fs : List ℤ) × Ready rules components.now ps fs fed.now labels.now upstream.now) ∥₁ },
}

// Fills what the ports of a prepared plot are asked by besides the regions of its members: its edges by the port that they feed, and the
// rows of the inferred inputs upstream of each region, which are empty before.
// Not a part of its caller's frame: its rows are needed here alone.
#[inline(never)]
pub fn make_ready(plot: &PreparedPlot, fed: &mut [u64], upstream: &mut [ComponentSet; COMPONENTS])
    requires fed_len { length fed.old ≡ port_count plot.now.plot.ports.now }
    requires upstream { RowsEmpty upstream.old }
    ensures { let p = plot.now.plot in
        Ready p.rules p.components.now p.ports.now p.frontiers.now fed.new plot.now.labels.now upstream.new }
{
    let lists = plot.plot;
    let mut flags = [false; COMPONENTS];
    let inferred = &mut flags[..lists.keys.len()];
    build_fed(lists.port_list(), lists.ends, fed);
    inferred_members(plot, inferred);
    upstream_rows(plot.forward, plot.labels, inferred, upstream);
}

// The nodes that feed a slot, and all members of the rows of their regions.
fn slot_sources(
    fed: &[u64],
    slot: usize,
    labels: &[u16],
    upstream: &[ComponentSet; COMPONENTS],
) -> InputSources
    requires ascending { Ascending fed.now × ((slot < 2 ^ 32) × SlotWithin fed.now slot (length labels.now)) }
    requires indices { Indices (length labels.now) component_limit labels.now × (length labels.now ≤ component_limit) }
    ensures { SlotSets fed.now slot labels.now upstream.now result }
{
    let mut immediate = ComponentSet::empty();
    let mut inferred = ComponentSet::empty();
    for key in slot_keys(fed, slot) {
        let source = (key % SPAN) as usize;
        immediate = immediate.insert(source);
        inferred = inferred.union(upstream[usize::from(labels[source])]);
    }
    InputSources {
        immediate,
        inferred,
    }
}

impl<'a> Asked<'a> {
    // As of a plot. A trait for the two, of one line each, would be longer.
    pub fn component_list(self) -> ComponentList<'a>
        ensures { result.numbers.now ≡ self.entry.components.now }
    {
        ComponentList {
            numbers: self.components,
        }
    }

    // The sets of a port by the id of its component, empty where it has no verdict row: those of every scene that the tables are of.
    pub fn sources(&self, id: u64, port: u64) -> InputSources
        ensures { let a = self.now in
            (ps fs : List ℤ) → Ready a.rules a.components.now ps fs a.fed.now a.labels.now a.upstream.now →
            PortSets a.rules a.components.now ps fs (row_place a.rules a.components.now id port) port result }
    {
        match row_place(self.rules, self.keys, self.component_list(), id, port) {
            Some(_) => slot_sources(
                self.fed,
                member_of(self.keys, id) * PORTS + port as usize,
                self.labels,
                self.upstream,
            ),
            None => InputSources::none(),
        }
    }
}
