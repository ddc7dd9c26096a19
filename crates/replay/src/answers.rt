// The list entries, and the one over records, asked about recorded scenes.
use super::compare::Replay;
use checks::refusals::liveness_lists;
use circuit::{fragment_nets, from_parts};
use inputs::{InputSources, required_input};
use lists::ends::Ends;
use lists::rules::rules_of;
use lists::{
    COMPONENT, COMPONENTS, CONNECTION, CONNECTIONS, FRONTIER, FRONTIERS, KEPT, PORT, Refusal,
    list_number,
};
use liveness::{Analysis, analyze_signal_liveness};
use records::{PortRecord, analyze_records};
use scene::connections::port_connections;
use sets::ComponentSet;
use std::array;

// The Rust knows no other rules, so the recorded answers are those under rules 1.
const RULES: i64 = 1;

// How many source rows and verdict rows the liveness entry asks room for.
const SOURCES: usize = 2 * COMPONENTS;

const INPUTS: usize = 4 * COMPONENTS;

// The lists of a scene as they were read: no check has accepted them, which the core's own structs ask for.
#[derive(Clone, Copy)]
struct Scene<'a> {
    components: &'a [i64],
    connections: &'a [i64],
    frontiers: &'a [i64],
}

// The lists of a scene with its port connections, and the table of its ids.
#[derive(Clone, Copy)]
struct Plot<'a> {
    components: &'a [i64],
    ports: &'a [i64],
    frontiers: &'a [i64],
    keys: &'a [u64],
}

// What the liveness entry leaves.
#[derive(Drop)]
struct Rows {
    regions: [u64; COMPONENTS],
    sources: [u64; SOURCES * 2],
    inputs: [u64; INPUTS * 3],
}

// The two liveness entries: over a flat list of port connections, and over a list of records.
#[derive(Clone, Copy)]
enum Entry {
    Flat,
    Records,
}

// The records of a flat list; behind them there are zeros.
fn records_of(ports: &[i64]) -> [PortRecord; CONNECTIONS] {
    let (rows, _) = ports.as_chunks::<PORT>();
    array::from_fn(|i| {
        let row = rows.get(i).copied().unwrap_or([0; PORT]);
        PortRecord {
            source: row[0],
            source_port: row[1],
            sink: row[2],
            sink_port: row[3],
            transfer: row[4],
        }
    })
}

// Brings the first five numbers of so many rows of six to the front, since the Rust's rows have no slope.
fn drop_slopes(rows: &mut [i64; CONNECTIONS * KEPT], count: usize) {
    for k in 0..CONNECTIONS.min(count) {
        rows.copy_within(k * KEPT..k * KEPT + PORT, k * PORT);
    }
}

impl Entry {
    // Asks the entry about a scene.
    fn analyze(self, scene: Scene, ports: &[i64], rows: &mut Rows) -> Result<Analysis, Refusal> {
        let mut stack = [0usize; 2 * COMPONENTS];
        match self {
            Entry::Flat => analyze_signal_liveness(
                RULES,
                scene.components,
                ports,
                scene.frontiers,
                &mut rows.regions,
                &mut rows.sources,
                &mut rows.inputs,
                &mut stack,
            ),
            Entry::Records => {
                let records = records_of(ports);
                analyze_records(
                    RULES,
                    scene.components,
                    &records[..CONNECTIONS.min(ports.len() / PORT)],
                    scene.frontiers,
                    &mut rows.regions,
                    &mut rows.sources,
                    &mut rows.inputs,
                    &mut stack,
                )
            }
        }
    }
}

// What a refused scene has.
fn no_analysis() -> Analysis {
    Analysis {
        regions: 0,
        sources: 0,
        inputs: 0,
        drive: ComponentSet::empty(),
        potential: ComponentSet::empty(),
        cyclic: ComponentSet::empty(),
        has_drive: ComponentSet::empty(),
    }
}

impl Replay {
    // What an entry answered, or what a refused scene has. No Option goes on in its place: what is recorded of a scene is read either way,
    // so that what is recorded behind it is found.
    fn accepted<T: Copy>(&mut self, answer: Result<T, Refusal>, refused: T) -> T {
        match answer {
            Ok(found) => found,
            Err(_) => {
                self.refuse();
                refused
            }
        }
    }

    // ---- groups

    // Nets, fragments and the nets of each fragment.
    fn replay_groups(&mut self, scene: Scene) {
        let mut nets = [0u64; COMPONENTS];
        let mut fragments = [0u64; COMPONENTS];
        let grouping = from_parts(
            RULES,
            scene.components,
            scene.connections,
            &mut nets,
            &mut fragments,
        );
        let Ok(counts) = grouping else {
            self.refuse();
            return;
        };
        let n = COMPONENTS.min(scene.components.len() / COMPONENT);
        self.compare(b"nets", &nets[..n]);
        self.compare(b"fragments", &fragments[..n]);
        for f in 0..counts.fragments {
            let set = fragment_nets(&nets[..n], &fragments[..n], f as u64);
            self.compare_set(b"fragment_nets", &[], set);
        }
    }

    // ---- liveness

    // A verdict row, and the sets of its port.
    fn replay_input(&mut self, plot: Plot, row: &[u64; 3]) {
        let mut stack = [0usize; 2 * COMPONENTS];
        self.compare(b"input", row);
        let answer = required_input(
            RULES,
            plot.components,
            plot.ports,
            plot.frontiers,
            row[0],
            row[1],
            &mut stack,
        );
        let found = self.accepted(answer, InputSources::none());
        self.compare_set(b"immediate", plot.keys, found.immediate);
        self.compare_set(b"inferred", plot.keys, found.inferred);
    }

    // What the liveness entry answered and left.
    fn replay_analysis(&mut self, plot: Plot, answer: Analysis, rows: &Rows) {
        let n = COMPONENTS.min(plot.components.len() / COMPONENT);
        let source_numbers = SOURCES.min(answer.sources) * 2;
        self.compare(b"regions", &rows.regions[..n]);
        self.compare_flags(b"cyclic", answer.cyclic, answer.regions);
        self.compare_flags(b"has_drive", answer.has_drive, answer.regions);
        self.compare(b"sources", &rows.sources[..source_numbers]);
        self.compare_set(b"drive", plot.keys, answer.drive);
        self.compare_set(b"potential", plot.keys, answer.potential);
        let (inputs, _) = rows.inputs.as_chunks::<3>();
        for row in inputs.iter().take(answer.inputs) {
            self.replay_input(plot, row);
        }
    }

    // Regions, sources, drive and verdicts by one of the entries.
    fn replay_entry(&mut self, entry: Entry, scene: Scene, ports: &[i64]) {
        let mut keys = [0u64; COMPONENTS];
        let mut ends = [Ends { source: 0, sink: 0 }; CONNECTIONS];
        let mut rows = Rows {
            regions: [0; COMPONENTS],
            sources: [0; SOURCES * 2],
            inputs: [0; INPUTS * 3],
        };
        let _ = liveness_lists(
            rules_of(RULES),
            scene.components,
            ports,
            scene.frontiers,
            true,
            &mut keys,
            &mut ends,
        );
        let answer = entry.analyze(scene, ports, &mut rows);
        let plot = Plot {
            components: scene.components,
            ports,
            frontiers: scene.frontiers,
            keys: &keys,
        };
        let found = self.accepted(answer, no_analysis());
        self.replay_analysis(plot, found, &rows);
    }

    // The same recorded answer, held to what both entries answer.
    fn replay_liveness(&mut self, scene: Scene, ports: &[i64]) {
        let at = self.tally.at;
        self.replay_entry(Entry::Flat, scene, ports);
        self.tally = self.tally.counted(at, 0, 0);
        self.replay_entry(Entry::Records, scene, ports);
    }

    // ---- scenes

    // The port connections that are kept of a scene, and its liveness by them.
    fn replay_kept(&mut self, scene: Scene) {
        let mut kept = [0i64; CONNECTIONS * KEPT];
        let selected = port_connections(RULES, scene.components, scene.connections, &mut kept);
        let Ok(count) = selected else {
            self.refuse();
            return;
        };
        drop_slopes(&mut kept, count);
        let ports = &kept[..CONNECTIONS.min(count) * PORT];
        self.compare_signed(b"kept", ports);
        self.replay_liveness(scene, ports);
    }

    // The liveness of a scene by port connections that are given.
    fn replay_given(&mut self, scene: Scene) {
        let mut ports = [0i64; CONNECTIONS * PORT];
        let n = self.read_given(b"given", &mut ports);
        self.replay_liveness(scene, &ports[..n]);
    }

    // What an entry says of a scene that it is to refuse: number, list and item, or no refusal.
    fn replay_refusal(&mut self, entry: Entry, scene: Scene, ports: &[i64]) {
        let mut rows = Rows {
            regions: [0; COMPONENTS],
            sources: [0; SOURCES * 2],
            inputs: [0; INPUTS * 3],
        };
        let said = match entry.analyze(scene, ports, &mut rows) {
            Ok(_) => [0, 0, 0],
            Err(refusal) => [
                u64::from(refusal.fault),
                list_number(refusal.list),
                refusal.item as u64,
            ],
        };
        self.compare(b"refusal", &said);
    }

    // Replays a scene at the front of the text that both liveness entries are to refuse, and brings the next one there.
    pub(crate) fn replay_refused(&mut self) {
        let mut components = [0i64; COMPONENTS * COMPONENT];
        let mut ports = [0i64; CONNECTIONS * PORT];
        let mut seeds = [0i64; 1];
        self.read_given(b"refused", &mut seeds);
        let c = self.read_given(b"components", &mut components);
        let p = self.read_given(b"given", &mut ports);
        let scene = Scene {
            components: &components[..c],
            connections: &[],
            frontiers: &[],
        };
        let at = self.tally.at;
        self.replay_refusal(Entry::Flat, scene, &ports[..p]);
        self.tally = self.tally.counted(at, 0, 0);
        self.replay_refusal(Entry::Records, scene, &ports[..p]);
        self.tally = self.tally.with_scene();
        self.go_on();
    }

    // What is recorded of a scene behind its three lists.
    fn replay_lists(&mut self, scene: Scene) {
        self.replay_groups(scene);
        self.go_on();
        self.replay_kept(scene);
        self.go_on();
        self.replay_given(scene);
    }

    // Replays the scene at the front of the text, and brings the next one there.
    pub(crate) fn replay_scene(&mut self) {
        let mut components = [0i64; COMPONENTS * COMPONENT];
        let mut connections = [0i64; CONNECTIONS * CONNECTION];
        let mut frontiers = [0i64; FRONTIERS * FRONTIER];
        let mut seeds = [0i64; 1];
        self.read_given(b"scene", &mut seeds);
        let c = self.read_given(b"components", &mut components);
        let p = self.read_given(b"connections", &mut connections);
        let f = self.read_given(b"frontiers", &mut frontiers);
        self.replay_lists(Scene {
            components: &components[..c],
            connections: &connections[..p],
            frontiers: &frontiers[..f],
        });
        self.tally = self.tally.with_scene();
        self.go_on();
    }
}
