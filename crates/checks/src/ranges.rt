// What the numbers of each list may be: refusal 3.
use lists::kinds::{BlockKind, ConnectionKind, TransferKind};
use lists::ranges::{Bounds, Ranges};
use lists::{COMPONENT, CONNECTION, FAR, FRONTIER, IDS, PORT};

// Ports are of a byte in the Rust.
const GREATEST_PORT: i64 = u8::MAX as i64;

// ---- what a field may be

const ID: Bounds = Bounds {
    low: 0,
    high: IDS as i64 - 1,
};

const COORDINATE: Bounds = Bounds {
    low: -FAR,
    high: FAR,
};

const BLOCK: Bounds = Bounds {
    low: 0,
    high: BlockKind::Air as i64,
};

// The last face is Down; 0 is for none. A number stands here: `Face`, its opposites and their laws are one page of crate faces, which stands
// above, and to part them for one number would be no plainer.
const FACE: Bounds = Bounds { low: 0, high: 6 };

const FLAG: Bounds = Bounds { low: 0, high: 1 };

const CONNECTION_KIND: Bounds = Bounds {
    low: 0,
    high: ConnectionKind::Support as i64,
};

const PORT_NUMBER: Bounds = Bounds {
    low: 0,
    high: GREATEST_PORT,
};

const TRANSFER: Bounds = Bounds {
    low: 0,
    high: TransferKind::StructuralSupport as i64,
};

// ---- the fields of each record

pub const COMPONENT_RANGES: Ranges<COMPONENT> = Ranges {
    fields: [
        ID, COORDINATE, COORDINATE, COORDINATE, BLOCK, FACE, FACE, FLAG,
    ],
};

pub const CONNECTION_RANGES: Ranges<CONNECTION> = Ranges {
    fields: [ID, ID, CONNECTION_KIND],
};

pub const PORT_RANGES: Ranges<PORT> = Ranges {
    fields: [ID, PORT_NUMBER, ID, PORT_NUMBER, TRANSFER],
};

pub const FRONTIER_RANGES: Ranges<FRONTIER> = Ranges {
    fields: [COORDINATE, COORDINATE, COORDINATE],
};
