// Rows of numbers for the blocks, from what the entries wrote and answered.
ghost use Rattle.std.specs.Prelude.{◌≡◌, List, map, ℕ, ◌+◌, ◌*◌, ◌≤◌, length, take, pos};
ghost use Rattle.lists.specs.Limits.{port_width, kept_width};
ghost use Rattle.lists.specs.Records.{component_count};
ghost use Rattle.lists.specs.Ids.{member_of};
ghost use Rattle.lists.specs.Slices.{laid};
ghost use Rattle.signals.specs.Flags.{Numbers};
ghost use Rattle.assessment.specs.Rows.{Put};
ghost use Rattle.report.specs.Report.{all_rows};
ghost use Rattle.report.specs.Printing.{component_row_by, region_row_by, SlopedFront, Cut};

use assessment::verdicts::put_row;
use lists::numbers::natural_at;
use lists::views::ComponentList;
use lists::{KEPT, PORT};
use sets::ComponentSet;

// Fills the rows of the components, in list order, given each one's member, the numbers of their groups and regions, and two sets of
// members.
pub fn fill_components(
    components: ComponentList,
    members: &[u16],
    nets: &[u64],
    fragments: &[u64],
    regions: &[u64],
    drive: ComponentSet,
    potential: ComponentSet,
    rows: &mut [u64],
)
    requires members { let cs = components.numbers.now in Numbers (component_count cs) (member_of cs) members.now }
    requires components_in_bounds { let n = component_count components.numbers.now in
        (n ≤ length nets.now) × ((n ≤ length fragments.now) × (n ≤ length regions.now)) }
    requires components_in_bounds_2 { 6 * component_count components.numbers.now ≤ length rows.old }
    ensures { let cs = components.entry.numbers.now in
        let row = component_row_by cs nets.now fragments.now regions.now drive.words potential.words in
        rows.new ≡ laid (all_rows row (component_count cs)) rows.old }
{
    let mut at = 0;
    for p in 0..components.count() {
        let id = components.id(p);
        let m = usize::from(members[p]);
        let driven = u64::from(drive.contains(m));
        let potent = u64::from(potential.contains(m));
        at = put_row(
            rows,
            at,
            &[id, nets[p], fragments[p], regions[p], driven, potent],
        );
    }
}

// Fills the rows of so many regions, in number order, given two sets of regions, which have no length.
pub fn fill_regions(count: usize, cyclic: ComponentSet, has_drive: ComponentSet, rows: &mut [u64])
    requires { 2 * count ≤ length rows.old }
    ensures { rows.new ≡ laid (all_rows (region_row_by cyclic.words has_drive.words) count) rows.old }
{
    let mut at = 0;
    for r in 0..count {
        let first = u64::from(cyclic.contains(r));
        let second = u64::from(has_drive.contains(r));
        at = put_row(rows, at, &[first, second]);
    }
}

// Cuts rows of six at the front of a slice: rows of five are left there, and the slopes in a slice with a place for each row.
pub fn cut_slopes(rows: &mut [i64], slopes: &mut [u8])
    requires front { (ns : List ℕ) × SlopedFront ns (length slopes.old) rows.old }
    requires rows_in_bounds { length slopes.old * kept_width ≤ length rows.old }
    ensures { (ns : List ℕ) → SlopedFront ns (length slopes.old) rows.old →
        Cut ns (take (length slopes.old * port_width) rows.new) slopes.new }
{
    for (k, slope) in slopes.iter_mut().enumerate() {
        let at = k * KEPT;
        *slope = natural_at(rows, at + PORT) as u8;
        rows.copy_within(at..at + PORT, k * PORT);
    }
}

// Fills the rows of the kept connections: the five numbers of each, and its slope.
pub fn fill_connections(ports: &[i64], slopes: &[u8], rows: &mut [u64])
    requires cut { (ns : List ℕ) × Cut ns ports.now slopes.now }
    requires rows_in_bounds { length slopes.now * kept_width ≤ length rows.old }
    ensures { (ns : List ℕ) → Cut ns ports.now slopes.now → rows.new ≡ laid ns rows.old }
{
    let mut at = 0;
    for (k, &slope) in slopes.iter().enumerate() {
        let from = k * PORT;
        let row = [
            natural_at(ports, from),
            natural_at(ports, from + 1),
            natural_at(ports, from + 2),
            natural_at(ports, from + 3),
            natural_at(ports, from + 4),
            u64::from(slope),
        ];
        at = put_row(rows, at, &row);
    }
}
