// Which port a connection takes at an end.
ghost use Rattle.std.specs.Prelude.{◌≡◌};
ghost use Rattle.lists.specs.Kinds.{connection_number, transfer_number};
ghost use Rattle.faces.specs.Codes.{port_code, ports_in};
ghost use Rattle.faces.specs.Rows.{port_of, ports_below};
ghost use Rattle.faces.specs.Select.{fits, serves, select_port, transfer_of};

use super::ports::{Channel, PORTS, Port, Role};
use lists::kinds::{ConnectionKind, TransferKind};

// Faces and kinds of connections come as numbers to what is public here and in `ports`: any number is taken, and an enum would turn
// callers away. They are compared as the numbers of their names, in what is private too: a number that is no kind's is one that is neither of
// these two.
pub const CONTROL_KIND: u64 = ConnectionKind::Control as u64;

pub const SUPPORT_KIND: u64 = ConnectionKind::Support as u64;

// Whether a port fits a connection that goes out from it or comes in.
fn port_fits(port: Port, outgoing: bool, kind: u64) -> bool
    ensures { result ≡ fits (port_code port) outgoing kind }
{
    if kind == SUPPORT_KIND {
        return matches!(port.channel, Channel::Structural);
    }
    if outgoing {
        return matches!(port.role, Role::Output | Role::Bidirectional);
    }
    if kind == CONTROL_KIND {
        return matches!(port.role, Role::Control);
    }
    matches!(port.role, Role::Input | Role::Bidirectional | Role::Control)
}

fn port_serves(port: Port, face: u64, outgoing: bool, kind: u64) -> bool
    ensures { result ≡ serves (port_code port) face outgoing kind }
{
    (u64::from(port.face) == face) & port_fits(port, outgoing, kind)
}

// The first port that has the face of this number and fits, none where the number is no face's. No port stands past a place
// without one.
pub fn select_port(
    ports: [Option<Port>; PORTS],
    face: u64,
    outgoing: bool,
    kind: u64,
) -> Option<usize>
    ensures { result ≡ select_port (ports_in ports) face outgoing kind }
{
    for i in 0..PORTS {
        let Some(port) = ports[i] else {
            return None;
        };
        if port_serves(port, face, outgoing, kind) {
            return Some(i);
        }
    }
    None
}

// As `port_fits`, of a row: its numbers may be no role's and no channel's.
fn row_fits(row: [u8; 3], outgoing: bool, kind: u64) -> bool
    ensures { result ≡ fits (port_of row) outgoing kind }
{
    let role = row[0];
    if kind == SUPPORT_KIND {
        return row[2] == Channel::Structural as u8;
    }
    if outgoing {
        return (role == Role::Output as u8) | (role == Role::Bidirectional as u8);
    }
    if kind == CONTROL_KIND {
        return role == Role::Control as u8;
    }
    (role == Role::Input as u8)
        | ((role == Role::Bidirectional as u8) | (role == Role::Control as u8))
}

#[tactic(auto, unfolding(crate::specs::Select::serves))]
fn row_serves(row: [u8; 3], face: u64, outgoing: bool, kind: u64) -> bool
    ensures { result ≡ serves (port_of row) face outgoing kind }
{
    (u64::from(row[1]) == face) & row_fits(row, outgoing, kind)
}

// The first row below the count that has the face of this number and fits. Any numbers are taken, and any count: no row stands past
// the last place.
pub fn select_row(
    rows: [[u8; 3]; PORTS],
    count: usize,
    face: u64,
    outgoing: bool,
    kind: u64,
) -> Option<usize>
    ensures { result ≡ select_port (ports_below rows count) face outgoing kind }
{
    for i in 0..count.min(PORTS) {
        if row_serves(rows[i], face, outgoing, kind) {
            return Some(i);
        }
    }
    None
}

// What a connection of the kind passes on.
#[tactic(auto, unfolding(crate::specs::Select::transfer_of))]
fn transfer(kind: ConnectionKind) -> TransferKind
    ensures { transfer_number result ≡ transfer_of (connection_number kind) }
{
    match kind {
        ConnectionKind::Dust
        | ConnectionKind::DustRise
        | ConnectionKind::DustFallThroughConductor => TransferKind::DustPropagation,
        ConnectionKind::WeakPower => TransferKind::WeakPower,
        ConnectionKind::StrongPower => TransferKind::StrongPower,
        ConnectionKind::DirectionalInput | ConnectionKind::DirectionalOutput =>
            TransferKind::DirectionalDevice,
        ConnectionKind::DirectSource => TransferKind::DirectSignal,
        ConnectionKind::Control => TransferKind::SideControl,
        ConnectionKind::Support => TransferKind::StructuralSupport,
    }
}

// The number of the transfer of a kind of connection, 0 where the number is no kind's.
pub fn transfer_of(kind: u64) -> u64
    ensures { result ≡ transfer_of kind }
{
    match ConnectionKind::try_from(kind) {
        Ok(kind) => u64::from(transfer(kind)),
        Err(_) => 0,
    }
}
