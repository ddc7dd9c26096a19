// Regions, sources, verdicts and sets of a scene that is lent as bytes.
ghost use Rattle.std.specs.Prelude.{Ok};
ghost use Rattle.std.specs.Prelude.{◌≡◌, false, ◌++◌, ◌+◌, ◌*◌, ◌/◌, ◌≤◌, length};
ghost use Rattle.sets.specs.Members.{word_count};
ghost use Rattle.lists.specs.Limits.{component_limit, connection_limit, port_width};
ghost use Rattle.lists.specs.Records.{component_count};
ghost use Rattle.checks.specs.Refusals.{liveness_lists, packed};
ghost use Rattle.lists.specs.Slices.{laid};
ghost use Rattle.encoding.specs.Bytes.{number_bytes, numbers, bytes_of};
ghost use Rattle.capi.specs.Liveness.{set_count, liveness_whole, LivenessLaid, LivenessWritten};
ghost use Rattle.capi.specs.Written.{Written, WrittenRoom, SlotsRoom, LivenessByPlaces};

use checks::refusals::{liveness_lists, pack, pack_refusal, room_for, room_for_rows};
use encoding::bytes::{NUMBER, decode, encode, encode_at, wipe};
use lists::ends::Ends;
use lists::{COMPONENT, COMPONENTS, CONNECTIONS, FRONTIER, FRONTIERS, PORT};
use liveness::plot::Plot;
use liveness::steps::analyze;
use liveness::{Analysis, Rows};
use sets::WORDS;

// The sets of an answer.
const SETS: usize = 4;

// The numbers of the most port connections, and of a quarter of them, so few that a smaller array serves.
const PORT_NUMBERS: usize = CONNECTIONS * PORT;

const FEW_PORT_NUMBERS: usize = PORT_NUMBERS / 4;

// A rules number and the lists of a scene.
#[derive(Clone, Copy)]
struct Lists<'a> {
    rules: u64,
    components: &'a [i64],
    ports: &'a [i64],
    frontiers: &'a [i64],
}

// The counts of an accepted scene as one number.
fn pack_counts(regions: usize, sources: usize, inputs: usize) -> u64
    requires { (regions ≤ component_limit) × ((sources ≤ 2 * component_limit) × (inputs ≤ 4 * component_limit)) }
    ensures { result ≡ 65536 * regions + 4294967296 * sources + 281474976710656 * inputs }
{
    65536 * regions as u64 + 4294967296 * sources as u64 + 281474976710656 * inputs as u64
}

// Writes the words of an answer's four sets at the front of a slice.
fn put_sets(analysis: Analysis, out: &mut [u8])
    requires { set_count * word_count * number_bytes ≤ length out.old }
    ensures { let a = analysis in
        out.new ≡ laid (bytes_of (a.drive.words ++ (a.potential.words ++ (a.cyclic.words ++ a.has_drive.words)))) out.old }
{
    encode(&analysis.drive.words, out);
    encode_at(&analysis.potential.words, out, WORDS * NUMBER);
    encode_at(&analysis.cyclic.words, out, 2 * WORDS * NUMBER);
    encode_at(&analysis.has_drive.words, out, 3 * WORDS * NUMBER);
}

// Writes what was found of an accepted scene.
fn write_answer(
    analysis: Analysis,
    rows: &Rows,
    regions: &mut [u8],
    sources: &mut [u8],
    inputs: &mut [u8],
    sets: &mut [u8],
    stack: &mut [u8],
) -> u64
    requires { WrittenRoom analysis rows.now.regions.now rows.now.sources.now rows.now.inputs.now
        regions.old sources.old inputs.old sets.old }
    ensures { Written analysis rows.now.regions.now rows.now.sources.now rows.now.inputs.now
        regions.old regions.new sources.old sources.new inputs.old inputs.new sets.old sets.new stack.old stack.new result }
{
    encode(rows.regions, regions);
    encode(rows.sources, sources);
    encode(rows.inputs, inputs);
    put_sets(analysis, sets);
    wipe(stack);
    pack_counts(analysis.regions, analysis.sources, analysis.inputs)
}

// The liveness of an accepted scene as bytes, by way of the rows of numbers.
fn of_plot(
    plot: &Plot,
    regions: &mut [u8],
    sources: &mut [u8],
    inputs: &mut [u8],
    sets: &mut [u8],
    stack: &mut [u8],
) -> u64
    requires { SlotsRoom (component_count plot.now.components.now) regions.old sources.old inputs.old sets.old }
    ensures { let p = plot.now in LivenessLaid (Ok tt) p.rules p.components.now p.ports.now p.frontiers.now
        regions.old regions.new sources.old sources.new inputs.old inputs.new sets.old sets.new stack.old stack.new result }
{
    let mut region_rows = [0u64; COMPONENTS];
    let mut source_rows = [0u64; 4 * COMPONENTS];
    let mut input_rows = [0u64; 12 * COMPONENTS];
    let mut pairs = [0usize; 2 * COMPONENTS];
    let n = plot.keys.len();
    let analysis = analyze(
        plot,
        &mut region_rows[..n],
        &mut source_rows[..4 * n],
        &mut input_rows[..12 * n],
        &mut pairs[..2 * n],
    );
    let rows = Rows {
        regions: &region_rows[..n],
        sources: &source_rows[..analysis.sources * 2],
        inputs: &input_rows[..analysis.inputs * 3],
    };
    write_answer(analysis, &rows, regions, sources, inputs, sets, stack)
}

// The liveness of a scene as bytes.
fn of_numbers(
    lists: &Lists,
    regions: &mut [u8],
    sources: &mut [u8],
    inputs: &mut [u8],
    sets: &mut [u8],
    stack: &mut [u8],
) -> u64
    ensures { let l = lists.now in LivenessByPlaces l.rules l.components.now l.ports.now l.frontiers.now
        regions.old regions.new sources.old sources.new inputs.old inputs.new sets.old sets.new stack.old stack.new result }
{
    let mut keys = [0u64; COMPONENTS];
    let mut ends = [Ends { source: 0, sink: 0 }; CONNECTIONS];
    let Lists {
        rules,
        components,
        ports,
        frontiers,
    } = *lists;
    let count = components.len() / COMPONENT;
    let enough = room_for(SETS, WORDS, sets.len() / NUMBER)
        & room_for_rows(
            count,
            regions.len() / NUMBER,
            sources.len() / NUMBER,
            inputs.len() / NUMBER,
            stack.len() / NUMBER,
        );
    let checked = liveness_lists(
        rules, components, ports, frontiers, enough, &mut keys, &mut ends,
    );
    match checked {
        Err(refusal) => pack_refusal(refusal),
        Ok(()) => {
            let plot = Plot {
                keys: &keys[..count],
                rules,
                components,
                ports,
                frontiers,
                ends: &ends,
            };
            of_plot(&plot, regions, sources, inputs, sets, stack)
        }
    }
}

// The refusal of a scene for whose sets there is no room.
pub(crate) fn refuse_short(rules: u64, components: &[i64], ports: &[i64], frontiers: &[i64]) -> u64
    ensures { result ≡ packed (liveness_lists rules components.now ports.now frontiers.now false) }
{
    let mut keys = [0u64; COMPONENTS];
    let mut ends = [Ends { source: 0, sink: 0 }; CONNECTIONS];
    pack(liveness_lists(
        rules, components, ports, frontiers, false, &mut keys, &mut ends,
    ))
}

// The liveness of a scene whose port connections are lent as bytes, of at most N numbers: so many are cleared, not as many as there can be.
fn with_ports<const N: usize>(
    lists: &Lists,
    ports: &[u8],
    regions: &mut [u8],
    sources: &mut [u8],
    inputs: &mut [u8],
    sets: &mut [u8],
    stack: &mut [u8],
) -> u64
    requires { (length ports.now / number_bytes ≤ N) × (N ≤ connection_limit * port_width) }
    ensures { let l = lists.now in LivenessByPlaces l.rules l.components.now (numbers ports.now) l.frontiers.now
        regions.old regions.new sources.old sources.new inputs.old inputs.new sets.old sets.new stack.old stack.new result }
{
    let mut port_numbers = [0i64; N];
    decode(ports, &mut port_numbers);
    let port_count = ports.len() / NUMBER;
    let lists = Lists {
        ports: &port_numbers[..port_count],
        ..*lists
    };
    of_numbers(&lists, regions, sources, inputs, sets, stack)
}

// The liveness of a scene whose lists are whole records within their limits.
pub(crate) fn of_bytes(
    rules: u64,
    components: &[u8],
    ports: &[u8],
    frontiers: &[u8],
    regions: &mut [u8],
    sources: &mut [u8],
    inputs: &mut [u8],
    sets: &mut [u8],
    stack: &mut [u8],
) -> u64
    requires { liveness_whole rules components.now ports.now frontiers.now ≡ (Ok tt) }
    ensures { LivenessWritten rules components.now ports.now frontiers.now
        regions.old regions.new sources.old sources.new inputs.old inputs.new sets.old sets.new stack.old stack.new result }
{
    let mut component_numbers = [0i64; COMPONENTS * COMPONENT];
    let mut frontier_numbers = [0i64; FRONTIERS * FRONTIER];
    decode(components, &mut component_numbers);
    decode(frontiers, &mut frontier_numbers);
    let component_count = components.len() / NUMBER;
    let frontier_count = frontiers.len() / NUMBER;
    let lists = Lists {
        rules,
        components: &component_numbers[..component_count],
        ports: &[],
        frontiers: &frontier_numbers[..frontier_count],
    };
    if ports.len() / NUMBER <= FEW_PORT_NUMBERS {
        return with_ports::<FEW_PORT_NUMBERS>(&lists, ports, regions, sources, inputs, sets, stack);
    }
    with_ports::<PORT_NUMBERS>(&lists, ports, regions, sources, inputs, sets, stack)
}
