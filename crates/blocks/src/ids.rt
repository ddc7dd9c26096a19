// Lines that list a set's members by their ids, which rise with the members.
ghost use Rattle.blocks.specs.Lines.{set_line, spaced};
ghost use Rattle.blocks.specs.Blocks.{ids_in};
ghost use Rattle.blocks.specs.Printed.{Printed};

use super::writers::{put_decimal, put_sign, put_text};
use sets::ComponentSet;
use tables::SPAN;

// The ids of those members that the table of ids has, with a blank between two.
fn put_members(out: &mut [u8], at: usize, set: ComponentSet, keys: &[u64]) -> usize
    ensures { Printed at (spaced (ids_in keys.now set.words)) out.old out.new result }
{
    let mut p = at;
    let mut blank: &[u8] = b"";
    for m in set.members() {
        if keys.len() <= m {
            break;
        }
        p = put_text(out, p, blank);
        p = put_decimal(out, p, keys[m] / SPAN);
        blank = b" ";
    }
    p
}

// Writes the line of a key and a set where it fits, given the table of ids, and answers where it ends.
pub fn put_ids(out: &mut [u8], at: usize, key: &[u8], set: ComponentSet, keys: &[u64]) -> usize
    ensures { Printed at (set_line key.now (ids_in keys.now set.words)) out.old out.new result }
{
    let a = put_text(out, at, key);
    let b = put_sign(out, a, b'=');
    let c = put_members(out, b, set, keys);
    put_sign(out, c, b'\n')
}
