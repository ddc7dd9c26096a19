// Why each grouping connection of a scene that is not kept is left out.
ghost use Rattle.std.specs.Prelude.{◌≡◌, ◌≤◌, ◌<◌, length};
ghost use Rattle.lists.specs.Rules.{rules_of};
ghost use Rattle.lists.specs.Records.{component_count, connection, connection_count};
ghost use Rattle.lists.specs.Ids.{IdTable};
ghost use Rattle.scene.specs.Reasons.{reason_code, reason_of, AllTold, ReasonsAnswered};

use super::connections::Scene;
use checks::refusals::{grouping_lists, room_for};
use lists::hints::{SLOTS, hint_ids};
use lists::rules::rules_of;
use lists::views::{ComponentList, ConnectionList};
use lists::{COMPONENT, COMPONENTS, CONNECTION, Refusal};

#[derive(Clone, Copy)]
pub enum Reason {
    NoSource = 1,
    NoSink = 2,
    NoEnds = 3,
    Apart = 4,
    NothingOut = 5,
    NothingIn = 6,
    Support = 7,
}

impl From<Reason> for u64 {
    ghost from_gives = { λ reason number. number ≡ reason_code reason };

    fn from(reason: Reason) -> u64 {
        reason as u64
    }
}

// The number of connection k: 0 where it is kept.
fn reason_of(scene: &Scene, k: usize) -> u64
    requires { k < connection_count scene.now.connections.numbers.now }
    ensures { let s = scene.now in result ≡ reason_of s.rules s.components.numbers.now (connection s.connections.numbers.now k) }
{
    match scene.link_of(k) {
        Ok(_) => 0,
        Err(reason) => u64::from(reason),
    }
}

// Writes the numbers of all connections, in order, and answers how many are kept.
fn tell_all(
    rules: u64,
    components: ComponentList,
    keys: &[u64],
    connections: ConnectionList,
    out: &mut [u64],
) -> usize
    requires id_table { IdTable components.numbers.now keys.now }
    requires count_in_bounds { connection_count connections.numbers.now ≤ length out.old }
    ensures { AllTold rules components.entry.numbers.now connections.entry.numbers.now out.old out.new result }
{
    let mut hints = [[0u16; 2]; SLOTS];
    hint_ids(keys, &mut hints);
    let scene = Scene {
        rules,
        components,
        connections,
        keys,
        hints: &hints,
    };
    let mut count: usize = 0;
    for k in 0..connections.count() {
        let reason = reason_of(&scene, k);
        out[k] = reason;
        count += usize::from(reason == 0);
    }
    count
}

// One number to each grouping connection of a scene, at the front of `out`: 0 where the ports entry keeps it, else why it is left out.
// Answers how many are kept.
pub fn reasons(
    rules: i64,
    components: &[i64],
    connections: &[i64],
    out: &mut [u64],
) -> Result<usize, Refusal>
    ensures { ReasonsAnswered (rules_of rules) components.now connections.now out.old out.new result }
{
    let rules = rules_of(rules);
    let enough = room_for(connections.len() / CONNECTION, 1, out.len());
    let mut keys = [0u64; COMPONENTS];
    grouping_lists(
        rules,
        components,
        connections,
        &connections[..0],
        enough,
        &mut keys,
    )?;
    let listed = ComponentList {
        numbers: components,
    };
    let connected = ConnectionList {
        numbers: connections,
    };
    let count = components.len() / COMPONENT;
    Ok(tell_all(rules, listed, &keys[..count], connected, out))
}
