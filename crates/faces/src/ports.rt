// The ports of a component, each in its place, and then places without a port.
ghost use Rattle.std.specs.Prelude.{◌≡◌, map, length, true};
ghost use Rattle.faces.specs.Ports.{wire_ports, repeater_ports, torch_ports, lever_ports, piston_ports, solid_ports};
ghost use Rattle.faces.specs.Ports.{ports_by_facing, is_unread, blank_ports, ports_for};
ghost use Rattle.faces.specs.Codes.{role_code, channel_code, face_code, numbers_at};
ghost use Rattle.faces.specs.Rows.{places_of};

use super::face::Face;
use lists::kinds::BlockKind;
use lists::rules::blanks_unread;

// The most ports of a component.
pub const PORTS: usize = 7;

#[derive(Clone, Copy, PartialEq, Eq)]
pub enum Role {
    Input,
    Output,
    Bidirectional,
    Control,
    Support,
}

impl From<Role> for u64 {
    ghost from_gives = { λ role number. number ≡ role_code role };

    fn from(role: Role) -> u64 {
        role as u64
    }
}

#[derive(Clone, Copy, PartialEq, Eq)]
pub enum Channel {
    RedstoneSignal,
    WeakPower,
    StrongPower,
    Mechanical,
    Structural,
}

impl From<Channel> for u64 {
    ghost from_gives = { λ channel number. number ≡ channel_code channel };

    fn from(channel: Channel) -> u64 {
        channel as u64
    }
}

#[derive(Clone, Copy, PartialEq, Eq)]
pub struct Port {
    pub role: Role,
    pub face: Face,
    pub channel: Channel,
}

const SUPPORT_DOWN: Option<Port> = Some(Port {
    role: Role::Support,
    face: Face::Down,
    channel: Channel::Structural,
});

const NO_PORTS: [Option<Port>; PORTS] = [None; PORTS];

// The kinds that turn with their facing.
const REPEATER: u64 = BlockKind::Repeater as u64;

const COMPARATOR: u64 = BlockKind::Comparator as u64;

const PISTON: u64 = BlockKind::Piston as u64;

fn place(role: Role, face: Face, channel: Channel) -> Option<Port>
    ensures { result ≡ Some (record { role = role; face = face; channel = channel }) }
{
    Some(Port {
        role,
        face,
        channel,
    })
}

fn wire_ports() -> [Option<Port>; PORTS]
    ensures { map numbers_at result ≡ places_of wire_ports }
{
    [
        place(Role::Bidirectional, Face::North, Channel::RedstoneSignal),
        place(Role::Bidirectional, Face::East, Channel::RedstoneSignal),
        place(Role::Bidirectional, Face::South, Channel::RedstoneSignal),
        place(Role::Bidirectional, Face::West, Channel::RedstoneSignal),
        place(Role::Bidirectional, Face::Up, Channel::RedstoneSignal),
        place(Role::Bidirectional, Face::Down, Channel::RedstoneSignal),
        SUPPORT_DOWN,
    ]
}

// The ports of a repeater or comparator: Control on each of the four that is neither its facing nor the opposite.
fn repeater_ports(facing: Face) -> [Option<Port>; PORTS]
    ensures { map numbers_at result ≡ places_of (repeater_ports (face_code facing)) }
{
    let output = place(Role::Output, facing, Channel::RedstoneSignal);
    let input = place(Role::Input, facing.opposite(), Channel::RedstoneSignal);
    let north = place(Role::Control, Face::North, Channel::RedstoneSignal);
    let east = place(Role::Control, Face::East, Channel::RedstoneSignal);
    let south = place(Role::Control, Face::South, Channel::RedstoneSignal);
    let west = place(Role::Control, Face::West, Channel::RedstoneSignal);
    match facing {
        Face::North | Face::South => [output, input, east, west, SUPPORT_DOWN, None, None],
        Face::East | Face::West => [output, input, north, south, SUPPORT_DOWN, None, None],
        Face::Up | Face::Down => [output, input, north, east, south, west, SUPPORT_DOWN],
    }
}

fn torch_ports(support: Face) -> [Option<Port>; PORTS]
    ensures { map numbers_at result ≡ places_of (torch_ports (face_code support)) }
{
    [
        place(Role::Output, Face::North, Channel::RedstoneSignal),
        place(Role::Output, Face::East, Channel::RedstoneSignal),
        place(Role::Output, Face::South, Channel::RedstoneSignal),
        place(Role::Output, Face::West, Channel::RedstoneSignal),
        place(Role::Control, support, Channel::RedstoneSignal),
        None,
        None,
    ]
}

// Those of a button, a pressure plate and a redstone block too.
fn lever_ports() -> [Option<Port>; PORTS]
    ensures { map numbers_at result ≡ places_of lever_ports }
{
    [
        place(Role::Output, Face::North, Channel::StrongPower),
        place(Role::Output, Face::East, Channel::StrongPower),
        place(Role::Output, Face::South, Channel::StrongPower),
        place(Role::Output, Face::West, Channel::StrongPower),
        None,
        None,
        None,
    ]
}

fn piston_ports(facing: Face) -> [Option<Port>; PORTS]
    ensures { map numbers_at result ≡ places_of (piston_ports (face_code facing)) }
{
    [
        place(Role::Input, Face::North, Channel::RedstoneSignal),
        place(Role::Input, Face::East, Channel::RedstoneSignal),
        place(Role::Input, Face::South, Channel::RedstoneSignal),
        place(Role::Input, Face::West, Channel::RedstoneSignal),
        place(Role::Output, facing, Channel::Mechanical),
        None,
        None,
    ]
}

// Those of a transparent block and a lamp too, where they conduct.
fn solid_ports() -> [Option<Port>; PORTS]
    ensures { map numbers_at result ≡ places_of (solid_ports true) }
{
    [
        place(Role::Bidirectional, Face::North, Channel::WeakPower),
        place(Role::Bidirectional, Face::East, Channel::WeakPower),
        place(Role::Bidirectional, Face::South, Channel::WeakPower),
        place(Role::Bidirectional, Face::West, Channel::WeakPower),
        place(Role::Bidirectional, Face::Up, Channel::WeakPower),
        place(Role::Bidirectional, Face::Down, Channel::WeakPower),
        None,
    ]
}

// The ports of a component by its numbers in the lists, where a facing of none is North. A support of none is Down.
fn ports_by_facing(kind: u64, facing: u64, support: u64, conducts: u64) -> [Option<Port>; PORTS]
    ensures { map numbers_at result ≡ places_of (ports_by_facing kind facing support conducts) }
{
    let Ok(block) = BlockKind::try_from(kind) else {
        return NO_PORTS;
    };
    match block {
        BlockKind::RedstoneWire => wire_ports(),
        BlockKind::Repeater | BlockKind::Comparator => repeater_ports(Face::North.unless(facing)),
        BlockKind::RedstoneTorch => torch_ports(Face::Down.unless(support)),
        BlockKind::Lever
        | BlockKind::Button
        | BlockKind::PressurePlate
        | BlockKind::RedstoneBlock => lever_ports(),
        BlockKind::Piston => piston_ports(Face::North.unless(facing)),
        BlockKind::Solid | BlockKind::Transparent | BlockKind::RedstoneLamp => if conducts == 1 {
            solid_ports()
        } else {
            NO_PORTS
        },
        BlockKind::Air => NO_PORTS,
    }
}

// Whether a component of a kind has a facing that was left blank and that cannot be guessed.
pub fn is_unread(rules: u64, kind: u64, facing: u64) -> bool
    ensures { result ≡ is_unread rules kind facing }
{
    let turns = (kind == REPEATER) | ((kind == COMPARATOR) | (kind == PISTON));
    blanks_unread(rules) & ((facing == 0) & turns)
}

// The ports of such a component.
fn blank_ports(kind: u64) -> [Option<Port>; PORTS]
    ensures { map numbers_at result ≡ places_of (blank_ports kind) }
{
    if kind != PISTON {
        return [SUPPORT_DOWN, None, None, None, None, None, None];
    }
    [
        place(Role::Input, Face::North, Channel::RedstoneSignal),
        place(Role::Input, Face::East, Channel::RedstoneSignal),
        place(Role::Input, Face::South, Channel::RedstoneSignal),
        place(Role::Input, Face::West, Channel::RedstoneSignal),
        None,
        None,
        None,
    ]
}

// The ports of a component by its numbers in the lists.
pub fn ports_for(
    rules: u64,
    kind: u64,
    facing: u64,
    support: u64,
    conducts: u64,
) -> [Option<Port>; PORTS]
    ensures { map numbers_at result ≡ places_of (ports_for rules kind facing support conducts) }
{
    if is_unread(rules, kind, facing) {
        return blank_ports(kind);
    }
    ports_by_facing(kind, facing, support, conducts)
}

// How many there are: no port stands past a place without one.
pub fn port_count(rules: u64, kind: u64, facing: u64, support: u64, conducts: u64) -> usize
    ensures { result ≡ length (ports_for rules kind facing support conducts) }
{
    let ports = ports_for(rules, kind, facing, support, conducts);
    // By place: of `position` the check knows the answer by the runs of its closure alone.
    for i in 0..PORTS {
        let Some(_) = ports[i] else {
            return i;
        };
    }
    PORTS
}
