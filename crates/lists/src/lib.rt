// The lists of a scene: what they may hold, where an id stands, the ends of port connections. Their refusals are crate checks.
// `id < 2 ^ 32` stands at each function that takes an id: ids are numbers of a list, and as `u32` each would be cast here and back there.
// `IdTable` is said of every list of components that a table of ids is of. Where one list is meant, `scene::Scene`, `liveness::Plot` and
// `inputs::asked::Asked` hold both; what makes or first reads the table is lent it beside the list.
// Lent slices stay parameters: a struct of `&mut` fields would owe a ghost name for what each is left as.
#![tactic(auto)]

pub mod ends;
pub mod hints;
pub mod ids;
pub mod kinds;
pub mod numbers;
pub mod order;
pub mod ranges;
pub mod rules;
pub mod views;

ghost use Rattle.std.specs.Prelude.{◌≡◌};
ghost use Rattle.lists.specs.Refusal.{fault_number, list_number, section_numbered};

// ---- limits: nothing else in the product repeats these numbers

// The most components of a scene.
pub const COMPONENTS: usize = 1024;

// The most connections of a scene, grouping or port connections.
pub const CONNECTIONS: usize = 4096;

// The most frontiers of a scene.
pub const FRONTIERS: usize = 256;

// Ids are below this.
pub const IDS: u64 = 1 << 32;

// The farthest coordinate.
pub const FAR: i64 = 30000000;

// ---- how many numbers a record has

// id, x, y, z, kind, facing, support, conducts
pub const COMPONENT: usize = 8;

// source, sink, kind
pub const CONNECTION: usize = 3;

// source, source port, sink, sink port, transfer
pub const PORT: usize = 5;

// Of a connection that is kept: the five of a port connection, and the slope of its step.
pub const KEPT: usize = 6;

// x, y, z
pub const FRONTIER: usize = 3;

// ---- refusals

// The lists of a scene.
#[derive(Clone, Copy)]
pub enum Section {
    Components,
    Connections,
    Frontiers,
}

// By number, from 0; any number past these is the frontiers. For callers that have a number, as they had to name a list by one.
impl From<u64> for Section {
    ghost from_gives = { λ number section. section ≡ section_numbered number };

    fn from(number: u64) -> Section {
        match number {
            0 => Section::Components,
            1 => Section::Connections,
            _ => Section::Frontiers,
        }
    }
}

// Why a scene or a sheet is refused, in the order in which it is looked for.
#[derive(Clone, Copy)]
pub enum Fault {
    // A list has too many records, or no whole ones.
    ListLength,
    // A lent slice is too short.
    ShortSlice,
    OutOfRange,
    UnsortedComponents,
    RepeatedId,
    UnsortedConnections,
    // An end of a port connection that is no support is no component.
    MissingEnd,
    // The port asked for has no verdict row.
    NoVerdictRow,
    BadLine,
    // The verdict row of the port asked for has another status than 0.
    NotDriven,
    // The rules number is not known.
    UnknownRules,
    // A sheet's form number is not known.
    UnknownForm,
    // Two sheets have different rules.
    OtherRules,
    // Components of one id, in two sheets, have unequal fields.
    UnequalFields,
    // No place of a held plot is free.
    FullPlot,
    // A placed id is present already.
    PresentId,
    // A named id is absent.
    AbsentId,
    // No opening and clicks can leave this plot.
    StrangePlot,
}

// A refusal: what is wrong, in which list, and at which item, from 0.
#[derive(Clone, Copy)]
pub struct Refusal {
    pub fault: Fault,
    pub list: Option<Section>,
    pub item: usize,
}

impl From<Fault> for u64 {
    ghost from_gives = { λ fault number. number ≡ fault_number fault };

    // The number of a fault in answers.
    fn from(fault: Fault) -> u64 {
        fault as u64 + 1
    }
}

// The number of a list in answers, 3 for none.
pub fn list_number(list: Option<Section>) -> u64
    ensures { result ≡ list_number list }
{
    match list {
        Some(section) => section as u64,
        None => 3,
    }
}
