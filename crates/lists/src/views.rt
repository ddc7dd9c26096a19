// Lists that the checks of lengths and ranges accepted, and the numbers of their records by name. `k < .._count` stands at each method:
// a place is a number, and what it is below is this list's.
ghost use Rattle.std.proofs.Props.{props};
ghost use Rattle.std.specs.Prelude.{◌≡◌, ◌≤◌, ◌<◌};
ghost use Rattle.lists.specs.Limits.{component_limit, connection_limit, id_limit};
ghost use Rattle.lists.specs.Records.{component, component_count, connection, connection_count, port_connection, port_count};
ghost use Rattle.lists.specs.Within.{Components, Connections, PortConnections};

use super::numbers::natural_at;
use super::{COMPONENT, CONNECTION, PORT};

// Components.
#[derive(Clone, Copy)]
pub struct ComponentList<'a> {
    pub numbers: &'a [i64],
    pub ghost within: { Components numbers.now } by { Prim.hlevel props },
}

impl ComponentList<'_> {
    // How many there are.
    pub fn count(self) -> usize
        ensures { (result ≡ component_count self.entry.numbers.now) × (result ≤ component_limit) }
    {
        self.numbers.len() / COMPONENT
    }

    pub fn id(self, k: usize) -> u64
        requires { k < component_count self.numbers.now }
        ensures { (result ≡ (component self.entry.numbers.now k).id) × (result < id_limit) }
    {
        natural_at(self.numbers, k * COMPONENT)
    }

    // Where it stands: x, y and z.
    pub fn position(self, k: usize) -> (i64, i64, i64)
        requires { k < component_count self.numbers.now }
        ensures { let c = component self.entry.numbers.now k in (result.0 ≡ c.x) × ((result.1 ≡ c.y) × (result.2 ≡ c.z)) }
    {
        let at = k * COMPONENT;
        (
            self.numbers[at + 1],
            self.numbers[at + 2],
            self.numbers[at + 3],
        )
    }

    pub fn kind(self, k: usize) -> u64
        requires { k < component_count self.numbers.now }
        ensures { result ≡ (component self.entry.numbers.now k).kind }
    {
        natural_at(self.numbers, k * COMPONENT + 4)
    }

    pub fn facing(self, k: usize) -> u64
        requires { k < component_count self.numbers.now }
        ensures { result ≡ (component self.entry.numbers.now k).facing }
    {
        natural_at(self.numbers, k * COMPONENT + 5)
    }

    pub fn support(self, k: usize) -> u64
        requires { k < component_count self.numbers.now }
        ensures { result ≡ (component self.entry.numbers.now k).support }
    {
        natural_at(self.numbers, k * COMPONENT + 6)
    }

    pub fn conducts(self, k: usize) -> u64
        requires { k < component_count self.numbers.now }
        ensures { result ≡ (component self.entry.numbers.now k).conducts }
    {
        natural_at(self.numbers, k * COMPONENT + 7)
    }
}

// Grouping connections.
#[derive(Clone, Copy)]
pub struct ConnectionList<'a> {
    pub numbers: &'a [i64],
    pub ghost within: { Connections numbers.now } by { Prim.hlevel props },
}

impl ConnectionList<'_> {
    // How many there are.
    pub fn count(self) -> usize
        ensures { (result ≡ connection_count self.entry.numbers.now) × (result ≤ connection_limit) }
    {
        self.numbers.len() / CONNECTION
    }

    pub fn source(self, k: usize) -> u64
        requires { k < connection_count self.numbers.now }
        ensures { (result ≡ (connection self.entry.numbers.now k).source) × (result < id_limit) }
    {
        natural_at(self.numbers, k * CONNECTION)
    }

    pub fn sink(self, k: usize) -> u64
        requires { k < connection_count self.numbers.now }
        ensures { (result ≡ (connection self.entry.numbers.now k).sink) × (result < id_limit) }
    {
        natural_at(self.numbers, k * CONNECTION + 1)
    }

    pub fn kind(self, k: usize) -> u64
        requires { k < connection_count self.numbers.now }
        ensures { result ≡ (connection self.entry.numbers.now k).kind }
    {
        natural_at(self.numbers, k * CONNECTION + 2)
    }
}

// Port connections.
#[derive(Clone, Copy)]
pub struct PortList<'a> {
    pub numbers: &'a [i64],
    pub ghost within: { PortConnections numbers.now } by { Prim.hlevel props },
}

impl PortList<'_> {
    // How many there are.
    pub fn count(self) -> usize
        ensures { (result ≡ port_count self.entry.numbers.now) × (result ≤ connection_limit) }
    {
        self.numbers.len() / PORT
    }

    pub fn source(self, k: usize) -> u64
        requires { k < port_count self.numbers.now }
        ensures { (result ≡ (port_connection self.entry.numbers.now k).source) × (result < id_limit) }
    {
        natural_at(self.numbers, k * PORT)
    }

    pub fn sink(self, k: usize) -> u64
        requires { k < port_count self.numbers.now }
        ensures { (result ≡ (port_connection self.entry.numbers.now k).sink) × (result < id_limit) }
    {
        natural_at(self.numbers, k * PORT + 2)
    }

    pub fn sink_port(self, k: usize) -> u64
        requires { k < port_count self.numbers.now }
        ensures { (result ≡ (port_connection self.entry.numbers.now k).sink_port_of) × (result < 256) }
    {
        natural_at(self.numbers, k * PORT + 3)
    }

    pub fn transfer(self, k: usize) -> u64
        requires { k < port_count self.numbers.now }
        ensures { result ≡ (port_connection self.entry.numbers.now k).transfer }
    {
        natural_at(self.numbers, k * PORT + 4)
    }
}
