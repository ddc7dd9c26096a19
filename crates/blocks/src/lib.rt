// The text of a report, block by block: lines, lines of ids, verdict rows, refusals, and here the blocks of rows, all of one form: the
// count, and a line for each number. Nothing is known of scenes. Each writer takes a position in a buffer of any length, writes where its
// text fits, and answers where the text ends, so that the same call on an empty buffer measures it.
// Buffer and position stay two parameters: a struct of both, with a `&mut` field, would owe a ghost name for what the buffer is left as.
#![tactic(auto)]

pub mod answer;
pub mod ids;
pub mod inputs;
pub mod keys;
mod writers;

ghost use Rattle.std.specs.Prelude.{◌≡◌};
ghost use Rattle.blocks.specs.Blocks.{block_numbered, block_text};
ghost use Rattle.blocks.specs.Printed.{Printed};

use keys::{put_count, put_field, width};

// The blocks of a report, in order.
#[derive(Clone, Copy)]
pub enum Block {
    Components,
    Connections,
    Regions,
    Sources,
    Inputs,
    Unread,
}

// By number, from 0, in this order; any number past these is the last.
impl From<u64> for Block {
    ghost from_gives = { λ number block. block ≡ block_numbered number };

    fn from(number: u64) -> Block {
        match number {
            0 => Block::Components,
            1 => Block::Connections,
            2 => Block::Regions,
            3 => Block::Sources,
            4 => Block::Inputs,
            _ => Block::Unread,
        }
    }
}

// Writes a block from `at` on where it fits, and answers where it ends.
pub fn put_block(out: &mut [u8], at: usize, block: Block, rows: &[u64]) -> usize
    ensures { Printed at (block_text block rows.now) out.old out.new result }
{
    let count = rows.len() / width(block);
    let mut p = put_count(out, at, block, count as u64);
    for (k, value) in rows.iter().enumerate() {
        p = put_field(out, p, block, k, *value);
    }
    p
}
