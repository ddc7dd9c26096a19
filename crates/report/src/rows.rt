// The block of the verdict rows: each row is asked for its sets when it is measured, and again when it is written, since all sets of a
// scene together have no bound but the square of its components.
ghost use Rattle.std.specs.Prelude.{List, ℤ};
ghost use Rattle.blocks.specs.Printed.{Printed};
ghost use Rattle.report.specs.Printing.{AskedOf, asked_text, inputs_text};

use blocks::Block;
use blocks::inputs::{VerdictRow, put_input};
use blocks::keys::put_count;
use inputs::asked::Asked;

// Writes the lines of a row from `at` on where they fit, and answers where they end.
fn put_asked(out: &mut [u8], at: usize, asked: &Asked, row: VerdictRow) -> usize
    ensures { let a = asked.now in
        (ps fs : List ℤ) → AskedOf a ps fs →
        Printed at (asked_text a.rules a.components.now ps fs row.device row.port row.status) out.old out.new result }
{
    let found = asked.sources(row.device, row.port);
    put_input(out, at, row, found.immediate, found.inferred, asked.keys)
}

// Writes the block from `at` on where it fits, and answers where it ends.
pub fn put_rows(out: &mut [u8], at: usize, asked: &Asked, rows: &[u64]) -> usize
    ensures { let a = asked.now in
        (ps fs : List ℤ) → AskedOf a ps fs →
        Printed at (inputs_text a.rules a.components.now ps fs rows.now) out.old out.new result }
{
    let (rows, _) = rows.as_chunks::<3>();
    let mut p = put_count(out, at, Block::Inputs, rows.len() as u64);
    for &[device, port, status] in rows {
        let row = VerdictRow {
            device,
            port,
            status,
        };
        p = put_asked(out, p, asked, row);
    }
    p
}
