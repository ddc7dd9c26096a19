// A plot that the checks accepted, and the same prepared: what the stages of an analysis read.
ghost use Rattle.std.proofs.Props.{props};
ghost use Rattle.std.specs.Prelude.{◌≡◌, ◌*◌, ◌≤◌, length};
ghost use Rattle.lists.specs.Records.{component_count};
ghost use Rattle.lists.specs.Ends.{sources_of, sinks_of};
ghost use Rattle.regions.specs.Search.{Zeros};
ghost use Rattle.signals.specs.Regions.{region_count};
ghost use Rattle.liveness.specs.Scene.{Accepted, Prepared};

use graph::Graph;
use graph::walk::regions;
use lists::ends::Ends;
use lists::views::{ComponentList, PortList};
use lists::{COMPONENTS, CONNECTIONS};
use signals::flags::spread;
use signals::stages::place_members;

// The lists that the checks accepted, the rules by which they are marked, the table of the components' ids, and the ends of the port
// connections as members.
#[derive(Clone, Copy)]
pub struct Plot<'a> {
    pub keys: &'a [u64],
    pub components: &'a [i64],
    pub ports: &'a [i64],
    pub frontiers: &'a [i64],
    pub rules: u64,
    pub ends: &'a [Ends],
    pub ghost accepted: { Accepted components.now ports.now keys.now (sources_of ends.now) (sinks_of ends.now) } by { Prim.hlevel props },
}

// The rows of its signal edges, forward and backward, each member's region and how many regions there are, and each component's member and
// region.
#[derive(Clone, Copy)]
pub struct PreparedPlot<'a> {
    pub plot: Plot<'a>,
    pub forward: Graph<'a>,
    pub backward: Graph<'a>,
    pub labels: &'a [u16],
    pub count: usize,
    pub members: &'a [u16],
    pub region_at: &'a [u16],
    pub ghost prepared: { Prepared plot.components.now plot.ports.now forward.ends.now forward.next.now backward.ends.now backward.next.now
        labels.now members.now region_at.now } by { Prim.hlevel props },
    pub ghost counted: { count ≡ region_count plot.components.now plot.ports.now } by { Prim.hlevel props },
}

// The arrays that a plot is prepared in, each as long as the most that it may hold.
#[derive(Drop)]
pub struct Room {
    ends: [u16; COMPONENTS],
    next: [u16; CONNECTIONS],
    back_ends: [u16; COMPONENTS],
    back: [u16; CONNECTIONS],
    labels: [u16; COMPONENTS],
    members: [u16; COMPONENTS],
    region_at: [u16; COMPONENTS],
}

impl Room {
    // All zero.
    pub fn new() -> Room {
        Room {
            ends: [0; COMPONENTS],
            next: [0; CONNECTIONS],
            back_ends: [0; COMPONENTS],
            back: [0; CONNECTIONS],
            labels: [0; COMPONENTS],
            members: [0; COMPONENTS],
            region_at: [0; COMPONENTS],
        }
    }
}

impl<'a> Plot<'a> {
    // The components, with what the checks have shown of their numbers.
    pub fn component_list(self) -> ComponentList<'a>
        ensures { result.numbers.now ≡ self.entry.components.now }
    {
        ComponentList {
            numbers: self.components,
        }
    }

    pub fn port_list(self) -> PortList<'a>
        ensures { result.numbers.now ≡ self.entry.ports.now }
    {
        PortList {
            numbers: self.ports,
        }
    }

    // Builds the rows of the signal edges, finds the regions, and gives each component its member and its region; what was made is to be
    // read in the room. Leaves the stack zero.
    pub fn prepare(self, room: &'a mut Room, stack: &mut [usize]) -> PreparedPlot<'a>
        requires { 2 * component_count self.components.now ≤ length stack.old }
        ensures plot { result.plot ≡ self.entry }
        ensures stack { Zeros stack.new }
    {
        let n = self.keys.len();
        let Room {
            ends,
            next,
            back_ends,
            back,
            labels,
            members,
            region_at,
        } = room;
        let ends = &mut ends[..n];
        let back_ends = &mut back_ends[..n];
        let labels = &mut labels[..n];
        let members = &mut members[..n];
        let region_at = &mut region_at[..n];
        stack.fill(0);
        self.rows(ends, next, back_ends, back);
        let forward = Graph { ends, next };
        let backward = Graph {
            ends: back_ends,
            next: back,
        };
        let count = regions(forward, backward, labels, stack);
        place_members(self.keys, members);
        spread(members, labels, region_at);
        PreparedPlot {
            plot: self,
            forward,
            backward,
            labels,
            count,
            members,
            region_at,
        }
    }
}
