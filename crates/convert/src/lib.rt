// The converter: a sheet of either form is read into lent work lists, its lists are checked, and it is written in the other form into a
// lent buffer where it fits. The sheet's own first line says which form it has.
// Lent slices stay parameters: a struct of `&mut` fields would owe a ghost name for what each is left as.
#![tactic(auto)]

ghost use Rattle.std.specs.Prelude.{◌≡◌, length};
ghost use Rattle.checks.specs.Refusals.{sheet_refusal, ◌or_else◌};
ghost use Rattle.forms.specs.Writing.{sheet_text};
ghost use Rattle.forms.specs.Converter.{other};
ghost use Rattle.sheet.specs.Written.{fits, PrintedBy};
ghost use Rattle.convert.specs.Entry.{SheetConverted};

use checks::refusals::grouping_lists;
use forms::text::{sheet_length, write_sheet};
use forms::{Counts, Style};
use lists::{COMPONENT, COMPONENTS, CONNECTION, CONNECTIONS, FRONTIER, FRONTIERS, Fault, Refusal};
use sheet::read_sheet;

fn other(style: Style) -> Style
    ensures { result ≡ other style }
{
    match style {
        Style::Old => Style::Short,
        Style::Short => Style::Old,
    }
}

// Checks the lists of a sheet and writes it in a form, where it fits.
fn write_checked(
    style: Style,
    rules: u64,
    components: &[i64],
    connections: &[i64],
    frontiers: &[i64],
    out: &mut [u8],
) -> Result<usize, Refusal>
    ensures { let text = sheet_text style rules components.now connections.now frontiers.now in
        PrintedBy (sheet_refusal rules components.now connections.now frontiers.now or_else fits text (length out.old)) text
        out.old out.new result }
{
    let mut keys = [0u64; COMPONENTS];
    grouping_lists(rules, components, connections, frontiers, true, &mut keys)?;
    if out.len() < sheet_length(style, rules, components, connections, frontiers) {
        return Err(Refusal {
            fault: Fault::ShortSlice,
            list: None,
            item: 0,
        });
    }
    Ok(write_sheet(out, style, rules, components, connections, frontiers))
}

// The sheet in the other form, given work lists for its lists, and the buffer.
pub fn convert_sheet(
    text: &[u8],
    components: &mut [i64],
    connections: &mut [i64],
    frontiers: &mut [i64],
    out: &mut [u8],
) -> Result<usize, Refusal>
    ensures { SheetConverted text.now components.old components.new connections.old connections.new frontiers.old frontiers.new
        out.old out.new result }
{
    let limits = Counts {
        components: COMPONENTS,
        connections: CONNECTIONS,
        frontiers: FRONTIERS,
    };
    let sheet = read_sheet(text, limits, components, connections, frontiers)?;
    let counts = sheet.counts;
    let written = write_checked(
        other(sheet.style),
        sheet.rules,
        &components[..counts.components * COMPONENT],
        &connections[..counts.connections * CONNECTION],
        &frontiers[..counts.frontiers * FRONTIER],
        out,
    );
    components.fill(0);
    connections.fill(0);
    frontiers.fill(0);
    written
}
