// What the drive sources and the inferred inputs reach: marks of their regions, carried along the edges by rising region.
ghost use Rattle.std.specs.Prelude.{◌≡◌, ℕ, ◌&&◌, ◌||◌, List, ◌≤◌, eqb, length, get_or, ℤ};
ghost use Rattle.lists.specs.Limits.{component_limit};
ghost use Rattle.lists.specs.Records.{component_count};
ghost use Rattle.lists.specs.First.{some};
ghost use Rattle.regions.specs.Graph.{marked};
ghost use Rattle.signals.specs.Regions.{holds_drive, is_inferred};
ghost use Rattle.signals.specs.Flags.{Flags, Indices};
ghost use Rattle.liveness.specs.Scene.{Alive, AliveRoom};

use super::plot::PreparedPlot;
use graph::marks::{by_region, carry_marks};
use lists::COMPONENTS;
use signals::flags::{combine_flags, gather, spread};

// Flags the regions that hold a drive source or an inferred input.
fn possible_regions(region_at: &[u16], inferred: &[bool], has_drive: &[bool], possible: &mut [bool])
    requires indices { let n = length region_at.now in Indices n component_limit region_at.now × (n ≤ length inferred.now) }
    requires regions_len { (length has_drive.now ≡ component_limit) × (length possible.old ≡ component_limit) }
    ensures { Flags component_limit (λ r. marked has_drive.now r
        || some (λ p. marked inferred.now p && eqb (get_or region_at.now p 0) r) (length region_at.now)) possible.new }
{
    gather(region_at, inferred, possible);
    combine_flags(possible, has_drive, |waits, drives| drives | waits);
}

// Marks what the drive sources reach, and what these and the inferred inputs reach.
pub(crate) fn flag_alive(
    plot: &PreparedPlot,
    has_drive: &[bool],
    inferred: &[bool],
    drive: &mut [bool],
    potential: &mut [bool],
)
    requires { AliveRoom (component_count plot.now.plot.components.now) has_drive.now inferred.now drive.old potential.old }
    ensures { let p = plot.now.plot in let cs = p.components.now in (rules : ℕ) (fs : List ℤ) →
        Flags component_limit (holds_drive cs p.ports.now fs) has_drive.now →
        Flags (component_count cs) (is_inferred rules cs p.ports.now fs) inferred.now →
        Alive rules cs p.ports.now fs drive.new potential.new }
{
    let mut ends = [0u16; COMPONENTS];
    let mut nodes = [0u16; COMPONENTS];
    let mut driven = [false; COMPONENTS];
    let mut possible = [false; COMPONENTS];
    driven.copy_from_slice(has_drive);
    possible_regions(plot.region_at, inferred, has_drive, &mut possible);
    by_region(plot.labels, &mut ends, &mut nodes);
    carry_marks(
        plot.forward,
        plot.labels,
        &nodes,
        &mut driven,
        &mut possible,
    );
    spread(plot.labels, &driven, drive);
    spread(plot.labels, &possible, potential);
}
