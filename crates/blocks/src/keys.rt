// The keys of a report, and the lines that have them.
ghost use Rattle.std.specs.Prelude.{◌≡◌, [], ◌<◌, length, get_or, map, pos};
ghost use Rattle.lines.specs.Decimal.{line_of};
ghost use Rattle.blocks.specs.Lines.{field_key};
ghost use Rattle.blocks.specs.Blocks.{block_keys, count_name};
ghost use Rattle.blocks.specs.Printed.{Printed};

use super::Block;
use super::writers::put_natural;

// The keys of a row's numbers, in order.
const COMPONENT_KEYS: [&[u8]; 6] = [
    b"id",
    b"net",
    b"fragment",
    b"region",
    b"drive",
    b"potential",
];

const CONNECTION_KEYS: [&[u8]; 6] = [
    b"source",
    b"source_port",
    b"sink",
    b"sink_port",
    b"transfer",
    b"slope",
];

const REGION_KEYS: [&[u8]; 2] = [b"cyclic", b"has_drive"];

const SOURCE_KEYS: [&[u8]; 2] = [b"id", b"kind"];

const INPUT_KEYS: [&[u8]; 3] = [b"device", b"port", b"status"];

const UNREAD_KEYS: [&[u8]; 1] = [b"id"];

// The keys of a block's rows.
fn block_keys(block: Block) -> &'static [&'static [u8]]
    ensures { map (λ k. k.now) result.now ≡ block_keys block }
{
    match block {
        Block::Components => &COMPONENT_KEYS,
        Block::Connections => &CONNECTION_KEYS,
        Block::Regions => &REGION_KEYS,
        Block::Sources => &SOURCE_KEYS,
        Block::Inputs => &INPUT_KEYS,
        Block::Unread => &UNREAD_KEYS,
    }
}

// How many numbers a row has.
pub fn width(block: Block) -> usize
    ensures { (result ≡ length (block_keys block)) × (0 < result) }
{
    block_keys(block).len()
}

// The key of line k of a block's rows.
fn field_key(block: Block, k: usize) -> &'static [u8]
    ensures { result.now ≡ field_key (block_keys block) k }
{
    let keys = block_keys(block);
    keys[k % keys.len()]
}

// The key of a block's count.
fn count_key(block: Block) -> &'static [u8]
    ensures { result.now ≡ count_name block }
{
    match block {
        Block::Components => b"components",
        Block::Connections => b"connections",
        Block::Regions => b"regions",
        Block::Sources => b"sources",
        Block::Inputs => b"inputs",
        Block::Unread => b"unread",
    }
}

// Line k of a block's rows. Inlined, since nearly all of a report is such lines.
#[inline(always)]
pub fn put_field(out: &mut [u8], at: usize, block: Block, k: usize, value: u64) -> usize
    ensures { Printed at (line_of (field_key (block_keys block) k) (pos value)) out.old out.new result }
{
    put_natural(out, at, field_key(block, k), value)
}

// The line of a block's count.
pub fn put_count(out: &mut [u8], at: usize, block: Block, count: u64) -> usize
    ensures { Printed at (line_of (count_name block) (pos count)) out.old out.new result }
{
    put_natural(out, at, count_key(block), count)
}
