// Verdict rows by flags of slots: one pass over the port connections marks which ports are fed, and by what, so no table is sorted.
ghost use Rattle.std.specs.Prelude.{Some, None};
ghost use Rattle.std.specs.Prelude.{◌≡◌, true, false, ℕ, List, [], ◌∷◌, ◌+◌, ◌*◌, ◌≤◌, ◌<◌, length, get_or, replicate, ℤ};
ghost use Rattle.lists.specs.Limits.{component_limit};
ghost use Rattle.lists.specs.Records.{component_count, port_count};
ghost use Rattle.lists.specs.Ids.{member_of, first_end_missing};
ghost use Rattle.lists.specs.Ends.{Settled, sources_of, sinks_of};
ghost use Rattle.regions.specs.Graph.{marked};
ghost use Rattle.signals.specs.Signals.{is_signal};
ghost use Rattle.signals.specs.Flags.{Numbers, Indices};
ghost use Rattle.signals.specs.Seen.{SignalEnds};
ghost use Rattle.assessment.specs.Verdicts.{input_rows};
ghost use Rattle.assessment.specs.Rows.{Put, Scanned, NoneRequired, rows_of, rows_below};
ghost use Rattle.assessment.specs.Places.{slot_of, slot_count, slot_at, unfed, SlotFlags, LiveMarks, slot_status, status_at, status_number};

use super::verdicts::{put_row, required_ports};
use lists::COMPONENTS;
use lists::ends::Ends;
use lists::ids::SUPPORT;
use lists::views::{ComponentList, PortList};

// A member has a slot for each port below this: no port past them has a verdict row. One row of all slots: a port connection is
// turned into one place of it, or none, once.
const PLACES: usize = 8;

const SLOTS: usize = PLACES * COMPONENTS;

// ---- flags

// Whether a slot's port is fed, whether by a driven member, and whether by one that may be.
#[derive(Clone, Copy)]
struct Slot {
    fed: bool,
    driven: bool,
    possible: bool,
}

// What is known of what feeds a port, in the order of its numbers in verdict rows.
#[derive(Clone, Copy)]
pub enum Status {
    DrivenByKnownSource,
    AwaitingExternalInput,
    Disconnected,
    NoKnownSource,
}

impl From<Status> for u64 {
    ghost from_gives = { λ status number. number ≡ status_number status };

    fn from(status: Status) -> u64 {
        status as u64
    }
}

// The slot of the port that port connection k feeds: none, where it is a support or feeds a port past the places.
fn slot_at(ports: PortList, k: usize, sink: usize) -> Option<usize>
    requires k_bound { k < port_count ports.numbers.now }
    requires sink_lt_component_limit { is_signal ports.numbers.now k ≡ true → sink < component_limit }
    ensures slot { result ≡ slot_at ports.entry.numbers.now k sink }
    ensures below { (j : ℕ) → result ≡ Some j → j < slot_count }
{
    let port = ports.sink_port(k) as usize;
    if ports.transfer(k) == SUPPORT {
        return None;
    }
    if PLACES <= port {
        return None;
    }
    Some(sink * PLACES + port)
}

// The mark of a member, or false past the end.
fn mark_at(flags: &[bool], i: usize) -> bool
    ensures { result ≡ marked flags.now i }
{
    flags.get(i).is_some_and(|flag| *flag)
}

// Marks the slots that are fed, and those fed from a marked source; none is marked before.
fn mark_slots(
    ports: PortList,
    ends: &[Ends],
    drive: &[bool],
    potential: &[bool],
    slots: &mut [Slot; SLOTS],
)
    requires signal_ends { SignalEnds component_limit ports.numbers.now (sinks_of ends.now) }
    requires ends_in_bounds { port_count ports.numbers.now ≤ length ends.now }
    requires none_marked { slots.old ≡ replicate slot_count unfed }
    ensures { let ps = ports.entry.numbers.now in
        SlotFlags (port_count ps) ps (sources_of ends.now) (sinks_of ends.now) drive.now potential.now slots.new }
{
    for k in 0..ports.count() {
        let Ends { source, sink } = ends[k];
        if let Some(j) = slot_at(ports, k, sink) {
            let slot = slots[j];
            slots[j] = Slot {
                fed: true,
                driven: slot.driven | mark_at(drive, source),
                possible: slot.possible | mark_at(potential, source),
            };
        }
    }
}

impl Slot {
    #[tactic(auto, unfolding(crate::specs::Places::slot_status))]
    fn status(self) -> Status
        ensures { status_number result ≡ slot_status self }
    {
        if !self.fed {
            return Status::Disconnected;
        }
        if self.driven {
            return Status::DrivenByKnownSource;
        }
        if self.possible {
            return Status::AwaitingExternalInput;
        }
        Status::NoKnownSource
    }
}

// ---- rows

// Writes the rows of a device's required ports from a place on, and answers the place after them.
fn put_ports(
    rules: u64,
    id: u64,
    kind: u64,
    facing: u64,
    member: usize,
    slots: &[Slot; SLOTS],
    out: &mut [u64],
    at: usize,
) -> usize
    requires member_bound { member < component_limit }
    requires at_in_bounds { at + 12 ≤ length out.old }
    ensures { Put (rows_of rules id kind facing (λ port. status_at slots.now (slot_of member port)))
        at out.old out.new result }
{
    let mut place = at;
    for port in required_ports(rules, kind, facing) {
        let status = slots[member * PLACES + port].status();
        place = put_row(out, place, &[id, port as u64, u64::from(status)]);
    }
    place
}

// Writes the rows of all components, in list order, and answers how many there are. Not one with `put_sources`: they share a loop of three
// lines, and the clauses of a closure that writes a component's rows would be longer.
fn put_rows(
    rules: u64,
    components: ComponentList,
    members: &[u16],
    slots: &[Slot; SLOTS],
    out: &mut [u64],
) -> usize
    requires members { Indices (component_count components.numbers.now) component_limit members.now }
    requires out_len { 12 * component_count components.numbers.now ≤ length out.old }
    ensures { Scanned (rows_below rules components.entry.numbers.now
        (λ p port. status_at slots.now (slot_of (get_or members.now p 0) port))
        (component_count components.entry.numbers.now)) 3 out.old out.new result }
{
    let mut at = 0;
    for p in 0..components.count() {
        at = put_ports(
            rules,
            components.id(p),
            components.kind(p),
            components.facing(p),
            usize::from(members[p]),
            slots,
            out,
            at,
        );
    }
    at / 3
}

// Whether some component may have a port with a verdict row.
fn any_required(rules: u64, components: ComponentList) -> bool
    ensures { result ≡ false → NoneRequired rules components.entry.numbers.now }
{
    for p in 0..components.count() {
        if !required_ports(rules, components.kind(p), components.facing(p)).is_empty() {
            return true;
        }
    }
    false
}

// Writes the verdict rows of all components, in list order, and answers how many there are: given each component's member, the members at
// the ends of each port connection, and the members that are driven and those that may be.
pub fn write_verdicts(
    rules: u64,
    components: ComponentList,
    members: &[u16],
    ports: PortList,
    ends: &[Ends],
    drive: &[bool],
    potential: &[bool],
    out: &mut [u64],
) -> usize
    requires ends { first_end_missing components.numbers.now ports.numbers.now ≡ None }
    requires settled { Settled components.numbers.now ports.numbers.now 0 (sources_of ends.now)
        × Settled components.numbers.now ports.numbers.now 2 (sinks_of ends.now) }
    requires ports_in_bounds { port_count ports.numbers.now ≤ length ends.now }
    requires numbers { Numbers (component_count components.numbers.now) (member_of components.numbers.now) members.now
        × (12 * component_count components.numbers.now ≤ length out.old) }
    ensures { (fs : List ℤ) → LiveMarks rules components.entry.numbers.now ports.entry.numbers.now fs drive.now potential.now →
        Scanned (input_rows rules components.entry.numbers.now ports.entry.numbers.now fs) 3 out.old out.new result }
{
    // A plot of wires alone needs no flags.
    if !any_required(rules, components) {
        return 0;
    }
    let mut slots = [Slot {
        fed: false,
        driven: false,
        possible: false,
    }; SLOTS];
    mark_slots(ports, ends, drive, potential, &mut slots);
    put_rows(rules, components, members, &slots, out)
}
