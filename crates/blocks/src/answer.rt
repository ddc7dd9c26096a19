// The lines that say whether a sheet was refused.
ghost use Rattle.std.specs.Prelude.{pos};
ghost use Rattle.lines.specs.Text.{ascii};
ghost use Rattle.lines.specs.Decimal.{line_of};
ghost use Rattle.blocks.specs.Lines.{numbered_lines, refusal_lines};
ghost use Rattle.blocks.specs.Printed.{Printed};

use super::writers::put_natural;
use lists::{Refusal, list_number};

// Writes the first line of a report from `at` on where it fits, and answers where it ends.
pub fn put_accepted(out: &mut [u8], at: usize) -> usize
    ensures { Printed at (line_of (ascii "answer") (pos 0)) out.old out.new result }
{
    put_natural(out, at, b"answer", 0)
}

// Writes a refusal from `at` on where it fits, and answers where it ends.
pub fn put_refusal(out: &mut [u8], at: usize, refusal: Refusal) -> usize
    ensures { Printed at (refusal_lines refusal) out.old out.new result }
{
    let number = u64::from(refusal.fault);
    put_refusal_numbers(out, at, number, list_number(refusal.list), refusal.item)
}

// Writes a refusal in any numbers from `at` on where it fits, and answers where it ends.
pub fn put_refusal_numbers(out: &mut [u8], at: usize, number: u64, list: u64, item: usize) -> usize
    ensures { Printed at (numbered_lines number list item) out.old out.new result }
{
    let a = put_natural(out, at, b"answer", number);
    let b = put_natural(out, a, b"list", list);
    put_natural(out, b, b"item", item as u64)
}
