// 14: one id has unequal fields.
ghost use Rattle.std.specs.Prelude.{◌≡◌, ◌/◌, ◌<◌, length};
ghost use Rattle.lists.specs.Records.{component_count};
ghost use Rattle.lists.specs.Ids.{IdTable};
ghost use Rattle.joining.specs.Conflict.{same_record, conflicts, first_conflict};

use lists::COMPONENT;
use lists::ids::place_of;
use lists::views::ComponentList;

// Whether record i of `a` and record j of `b` have the same number in each field.
fn same_record(width: usize, a: &[i64], i: usize, b: &[i64], j: usize) -> bool
    requires { (i < length a.now / width) × (j < length b.now / width) }
    ensures { result ≡ same_record width a.now i b.now j }
{
    for f in 0..width {
        if a[i * width + f] != b[j * width + f] {
            return false;
        }
    }
    true
}

// Whether the first list has the id of component k of the second, with other fields. `keys` is the first list's table of ids.
fn conflicts(keys: &[u64], first: &[i64], second: ComponentList, k: usize) -> bool
    requires { (k < component_count second.numbers.now) × IdTable first.now keys.now }
    ensures { result ≡ conflicts first.now second.entry.numbers.now k }
{
    match place_of(keys, second.id(k)) {
        Some(p) => !same_record(COMPONENT, first, p, second.numbers, k),
        None => false,
    }
}

// The earliest component of the second list whose id the first has with other fields. `keys` is the first list's table of ids.
pub fn first_conflict(keys: &[u64], first: &[i64], second: ComponentList) -> Option<usize>
    requires { IdTable first.now keys.now }
    ensures { result ≡ first_conflict first.now second.entry.numbers.now }
{
    for k in 0..second.count() {
        if conflicts(keys, first, second, k) {
            return Some(k);
        }
    }
    None
}
