// The ports of a block by its numbers.
ghost use Rattle.std.specs.Prelude.{◌≡◌, ◌*◌, ◌≤◌, ◌<◌, map, length};
ghost use Rattle.lists.specs.Rules.{rules_of};
ghost use Rattle.lists.specs.Records.{component, component_count};
ghost use Rattle.lists.specs.Slices.{laid};
ghost use Rattle.std.specs.List.{flat_map};
ghost use Rattle.faces.specs.Codes.{numbers_at};
ghost use Rattle.faces.specs.Ports.{ports_of};
ghost use Rattle.faces.specs.Rows.{port_places};
ghost use Rattle.capi.specs.BlockPorts.{block_record, block_rows, place_row, row_width, BlockPorts};

use checks::refusals::{grouping_lists, pack_refusal, room_for};
use faces::ports::{PORTS, Port, port_count, ports_for};
use lists::COMPONENTS;
use lists::rules::rules_of;
use lists::views::ComponentList;

// The numbers of a port: role, face and channel.
const ROW: usize = 3;

// The row of a place, zeros where it has no port.
fn row_of(place: Option<Port>) -> [u64; ROW]
    ensures { result ≡ place_row (numbers_at place) }
{
    match place {
        Some(port) => [
            u64::from(port.role),
            u64::from(port.face),
            u64::from(port.channel),
        ],
        None => [0; ROW],
    }
}

// Writes the rows of all places at the front of a slice.
fn put_rows(ports: [Option<Port>; PORTS], out: &mut [u64])
    requires { port_places * row_width ≤ length out.old }
    ensures { out.new ≡ laid (flat_map place_row (map numbers_at ports)) out.old }
{
    for i in 0..PORTS {
        let at = i * ROW;
        out[at..at + ROW].copy_from_slice(&row_of(ports[i]));
    }
}

// Writes the rows of a block that is the first of a list, and answers how many ports it has as the count of a number.
fn put_block(rules: u64, block: ComponentList, out: &mut [u64]) -> u64
    requires first { 0 < component_count block.numbers.now }
    requires room { port_places * row_width ≤ length out.old }
    ensures rows { out.new ≡ laid (block_rows rules block.entry.numbers.now) out.old }
    ensures count { result ≡ 65536 * length (ports_of rules (component block.entry.numbers.now 0)) }
{
    let kind = block.kind(0);
    let facing = block.facing(0);
    let support = block.support(0);
    let conducts = block.conducts(0);
    put_rows(ports_for(rules, kind, facing, support, conducts), out);
    65536 * port_count(rules, kind, facing, support, conducts) as u64
}

// The ports of a block by its kind, its facing, its support and whether it conducts, as seven rows of role, face and channel at the front
// of the lent slice, zeros past the last port. The count of the ports stands above the sixteen lowest bits. The checks are those of a
// plot of this block alone.
#[unsafe(no_mangle)]
pub extern "C" fn dustroute_block_ports(
    rules: i64,
    kind: i64,
    facing: i64,
    support: i64,
    conducts: i64,
    ports: &mut [u64],
) -> u64
    ensures { BlockPorts (rules_of rules) (block_record kind facing support conducts) ports.old ports.new result }
{
    let rules = rules_of(rules);
    let block = [0, 0, 0, 0, kind, facing, support, conducts];
    let enough = room_for(PORTS, ROW, ports.len());
    let mut keys = [0u64; COMPONENTS];
    match grouping_lists(rules, &block, &[], &[], enough, &mut keys) {
        Err(refusal) => pack_refusal(refusal),
        Ok(()) => put_block(rules, ComponentList { numbers: &block }, ports),
    }
}
