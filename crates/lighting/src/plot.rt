// A plot is prepared, its regions are lit, and the marks become sets.
ghost use Rattle.std.specs.Prelude.{Ok};
ghost use Rattle.std.specs.Prelude.{◌≡◌, ◌≤◌, length};
ghost use Rattle.lists.specs.Records.{component_count};
ghost use Rattle.lists.specs.Slices.{laid};
ghost use Rattle.signals.specs.Regions.{regions_of};
ghost use Rattle.lighting.specs.Entry.{LitOf, LitBy};
ghost use Rattle.lighting.specs.Room.{LitRoom};

use super::Lit;
use super::pass::light;
use lists::COMPONENTS;
use liveness::plot::{Plot, PreparedPlot, Room};
use liveness::steps::put_regions;
use sets::ComponentSet;
use signals::flags::spread;

// Lights a prepared plot, writes its regions and answers.
fn show(plot: &PreparedPlot, regions: &mut [u64]) -> Lit
    requires { component_count plot.now.plot.components.now ≤ length regions.old }
    ensures written { let p = plot.now.plot in regions.new ≡ laid (regions_of p.components.now p.ports.now) regions.old }
    ensures answer { let p = plot.now.plot in LitOf p.components.now p.ports.now p.frontiers.now result }
{
    let n = plot.labels.len();
    let mut marks = [false; COMPONENTS];
    let mut driven = [false; COMPONENTS];
    light(plot, &mut marks);
    spread(plot.labels, &marks, &mut driven);
    put_regions(plot.region_at, regions);
    Lit {
        count: plot.count,
        lit: ComponentSet::of_flags(&marks[..plot.count]),
        driven: ComponentSet::of_flags(&driven[..n]),
    }
}

// Lights a plot: the region of each component at the front of the lent slice. Leaves the stack zero.
pub(crate) fn light_plot(plot: &Plot, regions: &mut [u64], stack: &mut [usize]) -> Lit
    requires { LitRoom plot.now.components.now regions.old stack.old }
    ensures { let p = plot.now in
        LitBy (Ok tt) p.components.now p.ports.now p.frontiers.now regions.old regions.new stack.old stack.new (Ok result) }
{
    let mut room = Room::new();
    let prepared = plot.prepare(&mut room, stack);
    show(&prepared, regions)
}
