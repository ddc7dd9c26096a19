// The groups of a scene that is lent as bytes.
ghost use Rattle.std.specs.Prelude.{Ok};
ghost use Rattle.std.specs.Prelude.{◌≡◌, ◌+◌, ◌*◌, ◌/◌, ◌≤◌, length};
ghost use Rattle.lists.specs.Limits.{component_limit};
ghost use Rattle.lists.specs.Records.{component_count};
ghost use Rattle.checks.specs.Refusals.{grouping_refusal};
ghost use Rattle.encoding.specs.Bytes.{number_bytes, numbers};
ghost use Rattle.encoding.specs.Entry.{groups_whole, GroupsLaid, GroupsByBytes};

use super::bytes::{NUMBER, decode, encode, places};
use checks::refusals::pack_refusal;
use circuit::from_lists;
use lists::{COMPONENT, COMPONENTS, CONNECTION, CONNECTIONS};

// The counts of an accepted scene as one number.
fn pack_counts(nets: usize, fragments: usize) -> u64
    requires { (nets ≤ component_limit) × (fragments ≤ component_limit) }
    ensures { result ≡ 65536 * nets + 4294967296 * fragments }
{
    65536 * nets as u64 + 4294967296 * fragments as u64
}

// The groups of a scene as bytes, by way of the rows of numbers.
fn by_rows(
    rules: u64,
    components: &[i64],
    connections: &[i64],
    net_rows: &mut [u64],
    fragment_rows: &mut [u64],
    nets: &mut [u8],
    fragments: &mut [u8],
) -> u64
    requires { (length net_rows.old * number_bytes ≤ length nets.old) × (length fragment_rows.old * number_bytes ≤ length fragments.old) }
    ensures { GroupsLaid (grouping_refusal rules components.now connections.now (length net_rows.old) (length fragment_rows.old))
        components.now connections.now nets.old nets.new fragments.old fragments.new result }
{
    match from_lists(rules, components, connections, net_rows, fragment_rows) {
        Err(refusal) => pack_refusal(refusal),
        Ok(counts) => {
            let count = components.len() / COMPONENT;
            encode(&net_rows[..count], nets);
            encode(&fragment_rows[..count], fragments);
            pack_counts(counts.nets, counts.fragments)
        }
    }
}

// The groups of a scene as bytes. There are no more rows than a scene has components, so longer slices give no further places.
fn of_numbers(
    rules: u64,
    components: &[i64],
    connections: &[i64],
    nets: &mut [u8],
    fragments: &mut [u8],
) -> u64
    requires { component_count components.now ≤ component_limit }
    ensures { GroupsLaid (grouping_refusal rules components.now connections.now (length nets.old / number_bytes)
        (length fragments.old / number_bytes))
        components.now connections.now nets.old nets.new fragments.old fragments.new result }
{
    let mut net_rows = [0u64; COMPONENTS];
    let mut fragment_rows = [0u64; COMPONENTS];
    let net_places = places(nets.len(), COMPONENTS);
    let fragment_places = places(fragments.len(), COMPONENTS);
    by_rows(
        rules,
        components,
        connections,
        &mut net_rows[..net_places],
        &mut fragment_rows[..fragment_places],
        nets,
        fragments,
    )
}

// The groups of a scene whose rules are known and whose lists are whole records within their limits.
pub fn of_bytes(
    rules: u64,
    components: &[u8],
    connections: &[u8],
    nets: &mut [u8],
    fragments: &mut [u8],
) -> u64
    requires { groups_whole rules components.now connections.now ≡ (Ok tt) }
    ensures { GroupsByBytes rules components.now connections.now nets.old nets.new fragments.old fragments.new result }
{
    let mut component_numbers = [0i64; COMPONENTS * COMPONENT];
    let mut connection_numbers = [0i64; CONNECTIONS * CONNECTION];
    decode(components, &mut component_numbers);
    decode(connections, &mut connection_numbers);
    let component_count = components.len() / NUMBER;
    let connection_count = connections.len() / NUMBER;
    of_numbers(
        rules,
        &component_numbers[..component_count],
        &connection_numbers[..connection_count],
        nets,
        fragments,
    )
}
