// Which wires are inferred inputs: the regions fed from outside, then a test for each component.
ghost use Rattle.std.specs.Prelude.{◌≡◌, List, ◌≤◌, length, ℤ};
ghost use Rattle.lists.specs.Limits.{component_limit};
ghost use Rattle.lists.specs.Records.{component_count};
ghost use Rattle.signals.specs.Signals.{signals};
ghost use Rattle.signals.specs.Regions.{fed_from_outside, holds_drive, is_inferred};
ghost use Rattle.signals.specs.Flags.{Flags};
ghost use Rattle.signals.specs.Stages.{inferred_by};

use super::plot::PreparedPlot;
use lists::COMPONENTS;
use signals::flags::gather;
use signals::inferred::{flag_outside, is_inferred, passive_flags};
use signals::network::Network;

// Flags the wires, by list place, that are inferred inputs where these regions have a drive source and those are fed from outside.
fn flag_quiet(plot: &PreparedPlot, has_drive: &[bool], fed: &[bool], flags: &mut [bool])
    requires regions { (length has_drive.now ≡ component_limit) × (length fed.now ≡ component_limit) }
    requires components { component_count plot.now.plot.components.now ≤ length flags.old }
    ensures { let p = plot.now in let cs = p.plot.components.now in Flags (component_count cs)
        (inferred_by cs p.members.now p.region_at.now has_drive.now fed.now (signals cs p.plot.ports.now) p.labels.now) flags.new }
{
    let components = plot.plot.component_list();
    let network = Network {
        forward: plot.forward,
        backward: plot.backward,
        labels: plot.labels,
    };
    for p in 0..components.count() {
        let region = usize::from(plot.region_at[p]);
        let quiet = !has_drive[region] & !fed[region];
        flags[p] = is_inferred(components, p, quiet, &network, usize::from(plot.members[p]));
    }
}

// Flags the regions that get a connection from another region's component, passive sources left uncounted.
fn outside_regions(plot: &PreparedPlot, fed: &mut [bool])
    requires { length fed.old ≡ component_limit }
    ensures { let p = plot.now.plot in Flags component_limit (fed_from_outside p.rules p.components.now p.ports.now) fed.new }
{
    let n = plot.labels.len();
    let mut passive_at = [false; COMPONENTS];
    let mut array = [false; COMPONENTS];
    let passive = &mut array[..n];
    passive_flags(plot.plot.component_list(), plot.plot.rules, &mut passive_at);
    gather(plot.members, &passive_at, passive);
    flag_outside(plot.forward, plot.labels, passive, fed);
}

// Flags the inferred inputs, by list place, given which regions hold a drive source.
pub(crate) fn flag_inferred(plot: &PreparedPlot, has_drive: &[bool], inferred: &mut [bool])
    requires regions { length has_drive.now ≡ component_limit }
    requires components { component_count plot.now.plot.components.now ≤ length inferred.old }
    ensures { let p = plot.now.plot in let cs = p.components.now in (fs : List ℤ) →
        Flags component_limit (holds_drive cs p.ports.now fs) has_drive.now →
        Flags (component_count cs) (is_inferred p.rules cs p.ports.now fs) inferred.new }
{
    let mut fed = [false; COMPONENTS];
    outside_regions(plot, &mut fed);
    flag_quiet(plot, has_drive, &fed, inferred);
}
