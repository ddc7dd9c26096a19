// Sheets: their lists, their reports, and the same sheet in the other form, by the library's limits. Texts are lent as bytes, work lists as
// numbers.
ghost use Rattle.std.specs.Prelude.{◌≡◌, ◌+◌, ◌*◌, ◌≤◌, length};
ghost use Rattle.lists.specs.Limits.{component_limit, connection_limit, frontier_limit};
ghost use Rattle.checks.specs.Refusals.{packed, sheet_refusal};
ghost use Rattle.sheet.specs.Entry.{sheet_checked};
ghost use Rattle.convert.specs.Entry.{parsed_by};
ghost use Rattle.capi.specs.Texts.{SheetByText, ReportByText, ConvertByText, ValidRead, form_number, head_checked, limits};

use checks::refusals::{grouping_lists, pack_refusal, room_for};
use convert::convert_sheet;
use forms::sheet::check_sheet;
use forms::{Counts, Style};
use lists::rules::RULES;
use lists::{COMPONENT, COMPONENTS, CONNECTION, CONNECTIONS, FRONTIER, FRONTIERS, Fault, Refusal};
use report::report;
use sheet::{Sheet, read_sheet};

// The most bytes that an answer can tell: forty-eight bits.
const BYTES: usize = 281474976710655;

// The numbers of a sheet's head: its form and its rules.
const HEAD: usize = 2;

// The library's limits.
fn limits() -> Counts
    ensures { result ≡ limits }
{
    Counts {
        components: COMPONENTS,
        connections: CONNECTIONS,
        frontiers: FRONTIERS,
    }
}

// The number of a form.
fn form_number(style: Style) -> u64
    ensures { result ≡ form_number style }
{
    match style {
        Style::Old => 1,
        Style::Short => 2,
    }
}

// The counts of a sheet as one number.
fn pack_counts(counts: Counts) -> u64
    requires few { (counts.components ≤ component_limit) × (counts.connections ≤ connection_limit) }
    requires frontiers_few { counts.frontiers ≤ frontier_limit }
    ensures { result ≡ 65536 * counts.components + 4294967296 * counts.connections + 281474976710656 * counts.frontiers }
{
    65536 * counts.components as u64
        + 4294967296 * counts.connections as u64
        + 281474976710656 * counts.frontiers as u64
}

// The refusal of a sheet for whose head there is no room.
fn refuse_head(text: &[u8]) -> u64
    ensures { result ≡ packed (head_checked (parsed_by text.now) 0 0 0 0) }
{
    match check_sheet(text, RULES, limits()) {
        Err(refusal) => pack_refusal(refusal),
        Ok(_) => pack_refusal(Refusal {
            fault: Fault::ShortSlice,
            list: None,
            item: 0,
        }),
    }
}

// Checks the lists of a sheet, by its rules.
fn check_lists(
    rules: u64,
    components: &[i64],
    connections: &[i64],
    frontiers: &[i64],
) -> Result<(), Refusal>
    ensures { result ≡ sheet_refusal rules components.now connections.now frontiers.now }
{
    let mut keys = [0u64; COMPONENTS];
    grouping_lists(rules, components, connections, frontiers, true, &mut keys)
}

// Reads a sheet into lent work lists, and checks its lists: where these are refused, the work lists are left zero.
fn read_valid(
    text: &[u8],
    components: &mut [i64],
    connections: &mut [i64],
    frontiers: &mut [i64],
) -> Result<Sheet, Refusal>
    ensures { let p = parsed_by text.now in
        ValidRead (sheet_checked p (length components.old) (length connections.old) (length frontiers.old)) p
        components.old components.new connections.old connections.new frontiers.old frontiers.new result }
{
    let sheet = read_sheet(text, limits(), components, connections, frontiers)?;
    let counts = sheet.counts;
    let checked = check_lists(
        sheet.rules,
        &components[..counts.components * COMPONENT],
        &connections[..counts.connections * CONNECTION],
        &frontiers[..counts.frontiers * FRONTIER],
    );
    match checked {
        Err(refusal) => {
            components.fill(0);
            connections.fill(0);
            frontiers.fill(0);
            Err(refusal)
        }
        Ok(()) => Ok(sheet),
    }
}

// The lists of a valid sheet of either form, at the front of the work lists, and its form and rules. Without room for these two the text
// alone decides on the refusal.
#[unsafe(no_mangle)]
pub extern "C" fn dustroute_sheet(
    text: &[u8],
    components: &mut [i64],
    connections: &mut [i64],
    frontiers: &mut [i64],
    head: &mut [u64],
) -> u64
    ensures { SheetByText text.now components.old components.new connections.old connections.new
        frontiers.old frontiers.new head.old head.new result }
{
    if !room_for(1, HEAD, head.len()) {
        return refuse_head(text);
    }
    match read_valid(text, components, connections, frontiers) {
        Err(refusal) => pack_refusal(refusal),
        Ok(sheet) => {
            head[0] = form_number(sheet.style);
            head[1] = sheet.rules;
            pack_counts(sheet.counts)
        }
    }
}

// The report of a sheet of either form, at the front of the buffer; answers how many bytes. The work lists are left zero.
#[unsafe(no_mangle)]
pub extern "C" fn dustroute_report(
    text: &[u8],
    components: &mut [i64],
    connections: &mut [i64],
    frontiers: &mut [i64],
    out: &mut [u8],
) -> u64
    ensures { ReportByText text.now components.old components.new connections.old connections.new
        frontiers.old frontiers.new out.old out.new result }
{
    let room = out.len().min(BYTES);
    let made = report(
        text,
        limits(),
        components,
        connections,
        frontiers,
        &mut out[..room],
    );
    match made {
        Err(refusal) => pack_refusal(refusal),
        Ok(count) => 65536 * count as u64,
    }
}

// The sheet in the other form, at the front of the buffer; answers how many bytes. The work lists are left zero.
#[unsafe(no_mangle)]
pub extern "C" fn dustroute_convert(
    text: &[u8],
    components: &mut [i64],
    connections: &mut [i64],
    frontiers: &mut [i64],
    out: &mut [u8],
) -> u64
    ensures { ConvertByText text.now components.old components.new connections.old connections.new
        frontiers.old frontiers.new out.old out.new result }
{
    let room = out.len().min(BYTES);
    let made = convert_sheet(text, components, connections, frontiers, &mut out[..room]);
    match made {
        Err(refusal) => pack_refusal(refusal),
        Ok(bytes) => 65536 * bytes as u64,
    }
}
