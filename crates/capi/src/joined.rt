// Two sheets joined, by the library's limits. Texts are lent as bytes, work lists as numbers.
ghost use Rattle.std.specs.Prelude.{Err, ◌≡◌, ◌≤◌};
ghost use Rattle.capi.specs.Join.{JoinByTexts, join_item_limit, join_number};

use checks::refusals::pack_refusal;
use join::{JoinRefusal, join_sheets};

// The most bytes that an answer can tell: forty-eight bits.
const BYTES: usize = 281474976710655;

// A sheet stands above the lowest fifty-six bits.
const SHEET: u64 = 72057594037927936;

// A refusal and its sheet as one number.
fn pack_join(found: JoinRefusal) -> u64
    requires { (found.refusal.item ≤ join_item_limit) × (found.sheet ≤ 2) }
    ensures { result ≡ join_number (Err found) }
{
    pack_refusal(found.refusal) + SHEET * found.sheet
}

// The joined sheet, at the front of the buffer; answers how many bytes. The work lists are left zero.
#[unsafe(no_mangle)]
pub extern "C" fn dustroute_join(
    first: &[u8],
    second: &[u8],
    components: &mut [i64],
    connections: &mut [i64],
    frontiers: &mut [i64],
    out: &mut [u8],
) -> u64
    ensures { JoinByTexts first.now second.now components.old components.new connections.old connections.new
        frontiers.old frontiers.new out.old out.new result }
{
    let room = out.len().min(BYTES);
    let made = join_sheets(
        first,
        second,
        components,
        connections,
        frontiers,
        &mut out[..room],
    );
    match made {
        Err(found) => pack_join(found),
        Ok(bytes) => 65536 * bytes as u64,
    }
}
