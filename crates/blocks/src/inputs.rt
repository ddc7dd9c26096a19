// The lines of a verdict row: device, port and status, its immediate sources and its inferred inputs.
ghost use Rattle.blocks.specs.Lines.{input_text};
ghost use Rattle.blocks.specs.Blocks.{ids_in};
ghost use Rattle.blocks.specs.Printed.{Printed};

use super::Block;
use super::ids::put_ids;
use super::keys::put_field;
use sets::ComponentSet;

// The numbers of a row: a port by the id of its device, and its status.
#[derive(Clone, Copy)]
pub struct VerdictRow {
    pub device: u64,
    pub port: u64,
    pub status: u64,
}

// Writes a row from `at` on where it fits, given the table of ids, and answers where it ends.
pub fn put_input(
    out: &mut [u8],
    at: usize,
    row: VerdictRow,
    immediate: ComponentSet,
    inferred: ComponentSet,
    keys: &[u64],
) -> usize
    ensures { let text = input_text row.device row.port row.status (ids_in keys.now immediate.words) (ids_in keys.now inferred.words) in
        Printed at text out.old out.new result }
{
    let a = put_field(out, at, Block::Inputs, 0, row.device);
    let b = put_field(out, a, Block::Inputs, 1, row.port);
    let c = put_field(out, b, Block::Inputs, 2, row.status);
    let d = put_ids(out, c, b"immediate", immediate, keys);
    put_ids(out, d, b"inferred", inferred, keys)
}
