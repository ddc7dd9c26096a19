// The port connections that are kept of a scene, each with the slope of its step.
ghost use Rattle.std.specs.Prelude.{Ok, ◌≡◌, ◌+◌, ◌*◌, ◌≤◌, ◌<◌, map, length, pos};
ghost use Rattle.lists.specs.Limits.{kept_width};
ghost use Rattle.lists.specs.Rules.{rules_of};
ghost use Rattle.lists.specs.Records.{component, connection, component_count, connection_count};
ghost use Rattle.lists.specs.Ids.{IdTable};
ghost use Rattle.faces.specs.Codes.{face_code, face_number, slope_code};
ghost use Rattle.faces.specs.Ports.{ports_of};
ghost use Rattle.faces.specs.Rows.{port_places};
ghost use Rattle.faces.specs.Step.{step_face, step_slope};
ghost use Rattle.faces.specs.Select.{select_port};
ghost use Rattle.scene.specs.Kept.{ports_between, link_of, slope_along, sloped_by, sloped_row};
ghost use Rattle.scene.specs.Reasons.{reason_between, reason_of, reason_by};
ghost use Rattle.scene.specs.Answer.{ports_by, SlopeIs, Put, Filled, AllKept, Answered};

use super::reasons::Reason;
use checks::refusals::{grouping_lists, room_for};
use faces::face::Face;
use faces::ports::ports_for;
use faces::select::{SUPPORT_KIND, select_port, transfer_of};
use faces::step::{Slope, Step, step_between};
use lists::hints::{Hints, SLOTS, hint_ids, place_near};
use lists::rules::rules_of;
use lists::views::{ComponentList, ConnectionList};
use lists::{COMPONENT, COMPONENTS, CONNECTION, KEPT, Refusal};

// The ports that a connection takes at its ends, and the slope of its step.
#[derive(Clone, Copy)]
pub(crate) struct Link {
    source_port: usize,
    sink_port: usize,
    slope: Slope,
}

// The rules number and the lists of an accepted scene, with the table of the components' ids and hints into it.
#[derive(Drop)]
pub(crate) struct Scene<'a> {
    pub(crate) rules: u64,
    pub(crate) components: ComponentList<'a>,
    pub(crate) connections: ConnectionList<'a>,
    pub(crate) keys: &'a [u64],
    pub(crate) hints: &'a Hints,
    pub(crate) ghost id_table: { IdTable components.numbers.now keys.now },
}

impl Scene<'_> {
    // The port that component k has for a connection at a face.
    fn port_at(&self, k: usize, face: Face, outgoing: bool, kind: u64) -> Option<usize>
        requires { k < component_count self.now.components.numbers.now }
        ensures { let s = self.now in
            result ≡ select_port (ports_of s.rules (component s.components.numbers.now k)) (face_code face) outgoing kind }
    {
        let list = self.components;
        let ports = ports_for(
            self.rules,
            list.kind(k),
            list.facing(k),
            list.support(k),
            list.conducts(k),
        );
        select_port(ports, u64::from(face), outgoing, kind)
    }

    // The step from component a to component b.
    fn step(&self, a: usize, b: usize) -> Step
        requires { (a < component_count self.now.components.numbers.now) × (b < component_count self.now.components.numbers.now) }
        ensures face { let cs = self.now.components.numbers.now in face_number result.face ≡ step_face (component cs a) (component cs b) }
        ensures slope { let cs = self.now.components.numbers.now in slope_code result.slope ≡ step_slope (component cs a) (component cs b) }
    {
        step_between(self.components.position(a), self.components.position(b))
    }

    // The link of a connection from component a to component b, or why there is none.
    fn link_between(&self, a: usize, b: usize, kind: u64) -> Result<Link, Reason>
        requires { (a < component_count self.now.components.numbers.now) × (b < component_count self.now.components.numbers.now) }
        ensures ports { let cs = self.now.components.numbers.now in
            ports_by result ≡ ports_between self.now.rules (component cs a) (component cs b) kind }
        ensures reason { let cs = self.now.components.numbers.now in
            reason_by result ≡ reason_between self.now.rules (component cs a) (component cs b) kind }
        ensures slope { let cs = self.now.components.numbers.now in SlopeIs result (step_slope (component cs a) (component cs b)) }
    {
        if kind == SUPPORT_KIND {
            return Err(Reason::Support);
        }
        let step = self.step(a, b);
        let Some(face) = step.face else {
            return Err(Reason::Apart);
        };
        let Some(source_port) = self.port_at(a, face, true, kind) else {
            return Err(Reason::NothingOut);
        };
        let Some(sink_port) = self.port_at(b, face.opposite(), false, kind) else {
            return Err(Reason::NothingIn);
        };
        Ok(Link {
            source_port,
            sink_port,
            slope: step.slope,
        })
    }

    // The link of connection k, or why there is none.
    pub(crate) fn link_of(&self, k: usize) -> Result<Link, Reason>
        requires { k < connection_count self.now.connections.numbers.now }
        ensures ports { let s = self.now in
            ports_by result ≡ link_of s.rules s.components.numbers.now (connection s.connections.numbers.now k) }
        ensures reason { let s = self.now in
            reason_by result ≡ reason_of s.rules s.components.numbers.now (connection s.connections.numbers.now k) }
        ensures slope { let s = self.now in
            SlopeIs result (slope_along s.components.numbers.now (connection s.connections.numbers.now k)) }
    {
        let source = place_near(self.keys, self.hints, self.connections.source(k));
        let sink = place_near(self.keys, self.hints, self.connections.sink(k));
        match (source, sink) {
            (Some(a), Some(b)) => self.link_between(a, b, self.connections.kind(k)),
            (None, Some(_)) => Err(Reason::NoSource),
            (Some(_), None) => Err(Reason::NoSink),
            (None, None) => Err(Reason::NoEnds),
        }
    }

    // The row of connection k with its link.
    fn row(&self, k: usize, link: Link) -> [i64; KEPT]
        requires k_bound { k < connection_count self.now.connections.numbers.now }
        requires port_bounds { (link.source_port < port_places) × (link.sink_port < port_places) }
        ensures { result ≡ map pos
            (sloped_by (connection self.now.connections.numbers.now k) (ports_by (Ok link)) (slope_code link.slope)) }
    {
        [
            self.connections.source(k) as i64,
            link.source_port as i64,
            self.connections.sink(k) as i64,
            link.sink_port as i64,
            transfer_of(self.connections.kind(k)) as i64,
            u64::from(link.slope) as i64,
        ]
    }

    // Writes what is kept of connection k after `count` rows, and answers how many there are then.
    fn keep(&self, k: usize, out: &mut [i64], count: usize) -> usize
        requires k_bound { k < connection_count self.now.connections.numbers.now }
        requires kept_width_in_bounds { count * kept_width + kept_width ≤ length out.old }
        ensures { let s = self.now in
            Filled (map pos (sloped_row s.rules s.components.numbers.now s.connections.numbers.now k)) count out.old out.new result }
    {
        let Ok(link) = self.link_of(k) else {
            return count;
        };
        let at = count * KEPT;
        out[at..at + KEPT].copy_from_slice(&self.row(k, link));
        count + 1
    }
}

// Writes all rows that are kept, in order.
pub fn keep_all(
    rules: u64,
    components: ComponentList,
    keys: &[u64],
    connections: ConnectionList,
    out: &mut [i64],
) -> usize
    requires id_table { IdTable components.numbers.now keys.now }
    requires kept_width_in_bounds { connection_count connections.numbers.now * kept_width ≤ length out.old }
    ensures { AllKept rules components.entry.numbers.now connections.entry.numbers.now out.old out.new result }
{
    let mut hints = [[0u16; 2]; SLOTS];
    hint_ids(keys, &mut hints);
    let scene = Scene {
        rules,
        components,
        connections,
        keys,
        hints: &hints,
    };
    let mut count: usize = 0;
    for k in 0..connections.count() {
        count = scene.keep(k, out, count);
    }
    count
}

// The port connections of a scene with their slopes, in the order of its grouping connections, as rows at the front of `out`.
pub fn port_connections(
    rules: i64,
    components: &[i64],
    connections: &[i64],
    out: &mut [i64],
) -> Result<usize, Refusal>
    ensures { Answered (rules_of rules) components.now connections.now out.old out.new result }
{
    let rules = rules_of(rules);
    let enough = room_for(connections.len() / CONNECTION, KEPT, out.len());
    let mut keys = [0u64; COMPONENTS];
    grouping_lists(
        rules,
        components,
        connections,
        &connections[..0],
        enough,
        &mut keys,
    )?;
    let listed = ComponentList {
        numbers: components,
    };
    let connected = ConnectionList {
        numbers: connections,
    };
    let count = components.len() / COMPONENT;
    Ok(keep_all(rules, listed, &keys[..count], connected, out))
}
