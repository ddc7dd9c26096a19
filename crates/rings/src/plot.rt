// A plot is prepared, its rings are found, and the flags become a set.
ghost use Rattle.std.specs.Prelude.{Ok};
ghost use Rattle.std.specs.Prelude.{◌≡◌, ◌≤◌, length};
ghost use Rattle.lists.specs.Records.{component_count};
ghost use Rattle.lists.specs.Slices.{laid};
ghost use Rattle.signals.specs.Flags.{Flags};
ghost use Rattle.signals.specs.Regions.{region_count, regions_of};
ghost use Rattle.rings.specs.Scene.{has_ring};
ghost use Rattle.rings.specs.Entry.{RingsOf, RingsBy};
ghost use Rattle.rings.specs.Counts.{RingsRoom};

use super::Rings;
use super::count::flag_rings;
use lists::COMPONENTS;
use liveness::plot::{Plot, PreparedPlot, Room};
use liveness::steps::put_regions;
use sets::ComponentSet;
use signals::network::Network;

// Flags the regions of a prepared plot that have a ring.
fn flag_plot(plot: &PreparedPlot, flags: &mut [bool])
    requires { length flags.old ≡ region_count plot.now.plot.components.now plot.now.plot.ports.now }
    ensures { let p = plot.now.plot in
        Flags (region_count p.components.now p.ports.now) (has_ring p.components.now p.ports.now) flags.new }
{
    let network = Network {
        forward: plot.forward,
        backward: plot.backward,
        labels: plot.labels,
    };
    flag_rings(&network, flags);
}

// Finds the rings of a prepared plot, writes its regions and answers.
fn show(plot: &PreparedPlot, regions: &mut [u64]) -> Rings
    requires { component_count plot.now.plot.components.now ≤ length regions.old }
    ensures written { let p = plot.now.plot in regions.new ≡ laid (regions_of p.components.now p.ports.now) regions.old }
    ensures answer { let p = plot.now.plot in RingsOf p.components.now p.ports.now result }
{
    let count = plot.count;
    let mut flag_at = [false; COMPONENTS];
    let flags = &mut flag_at[..count];
    flag_plot(plot, flags);
    put_regions(plot.region_at, regions);
    Rings {
        count,
        rings: ComponentSet::of_flags(flags),
    }
}

// Finds the rings of a plot: the region of each component at the front of the lent slice. Leaves the stack zero.
pub(crate) fn rings_plot(plot: &Plot, regions: &mut [u64], stack: &mut [usize]) -> Rings
    requires { RingsRoom plot.now.components.now regions.old stack.old }
    ensures { let p = plot.now in RingsBy (Ok tt) p.components.now p.ports.now regions.old regions.new stack.old stack.new (Ok result) }
{
    let mut room = Room::new();
    let prepared = plot.prepare(&mut room, stack);
    show(&prepared, regions)
}
