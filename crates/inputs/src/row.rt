// The port asked for: where its component stands, if the port has a verdict row.
ghost use Rattle.std.specs.Prelude.{Some};
ghost use Rattle.std.specs.Prelude.{◌≡◌, ◌&&◌, ◌+◌, ◌<◌, leb, ltb};
ghost use Rattle.lists.specs.Records.{component_count};
ghost use Rattle.lists.specs.Ids.{IdTable};
ghost use Rattle.assessment.specs.Rows.{first_required, required_count};
ghost use Rattle.inputs.specs.Query.{with_row, row_place};

use assessment::verdicts::required_ports;
use lists::IDS;
use lists::ids::place_of;
use lists::views::ComponentList;

// Whether a port of a kind and facing has a verdict row.
fn has_row(rules: u64, kind: u64, facing: u64, port: u64) -> bool
    ensures { result ≡ (leb (first_required kind) port && ltb port (first_required kind + required_count rules kind facing)) }
{
    required_ports(rules, kind, facing).contains(&(port as usize))
}

// The place, where the port of its component has a verdict row.
fn with_row(rules: u64, components: ComponentList, port: u64, p: usize) -> Option<usize>
    requires { p < component_count components.numbers.now }
    ensures { result ≡ with_row rules components.entry.numbers.now port (Some p) }
{
    has_row(rules, components.kind(p), components.facing(p), port).then_some(p)
}

// Where the component of the port asked for stands, if the port has a verdict row.
pub fn row_place(
    rules: u64,
    keys: &[u64],
    components: ComponentList,
    id: u64,
    port: u64,
) -> Option<usize>
    requires { IdTable components.numbers.now keys.now }
    ensures { result ≡ row_place rules components.entry.numbers.now id port }
{
    if IDS <= id {
        return None;
    }
    let p = place_of(keys, id)?;
    with_row(rules, components, port, p)
}
