// The merge of two ascending lists of records.
ghost use Rattle.std.specs.Prelude.{◌≡◌, ◌+◌, ◌/◌, ◌≤◌, ◌<◌, length};
ghost use Rattle.lists.specs.Limits.{connection_limit};
ghost use Rattle.joining.specs.Merge.{merged};
ghost use Rattle.joining.specs.Cursor.{FieldsBelow, starts_before, side_at, StepOf};

// Which list has the next record: one, both, or neither.
#[derive(Clone, Copy)]
pub enum Side {
    First,
    Second,
    Both,
    Neither,
}

// Whether the record that starts at i of `a` comes strictly before the one that starts at j of `b`, the first field that differs deciding.
fn starts_before(fields: &[usize], width: usize, a: &[i64], i: usize, b: &[i64], j: usize) -> bool
    requires fields_below { FieldsBelow width fields.now }
    requires records { (i + width ≤ length a.now) × (j + width ≤ length b.now) }
    ensures { result ≡ starts_before fields.now a.now i b.now j }
{
    for k in 0..fields.len() {
        let f = fields[k];
        let x = a[i + f];
        let y = b[j + f];
        if x < y {
            return true;
        }
        if y < x {
            return false;
        }
    }
    false
}

// Which list has the next record of the merge, after i records of `a` and j of `b`.
pub fn next_side(fields: &[usize], width: usize, a: &[i64], i: usize, b: &[i64], j: usize) -> Side
    requires { FieldsBelow width fields.now × (0 < width) }
    ensures { result ≡ side_at fields.now width a.now i b.now j }
{
    if a.len() / width <= i {
        if b.len() / width <= j {
            return Side::Neither;
        }
        return Side::Second;
    }
    if b.len() / width <= j {
        return Side::First;
    }
    if starts_before(fields, width, a, i * width, b, j * width) {
        return Side::First;
    }
    if starts_before(fields, width, b, j * width, a, i * width) {
        return Side::Second;
    }
    Side::Both
}

// The next record of a merge, and how many records of each list are passed with it.
#[derive(Clone, Copy)]
pub struct Step<'a> {
    pub record: &'a [i64],
    pub i: usize,
    pub j: usize,
}

// The next record of the merge, after i records of `a` and j of `b`.
pub fn next_record<'a>(
    fields: &[usize],
    width: usize,
    a: &'a [i64],
    i: usize,
    b: &'a [i64],
    j: usize,
) -> Option<Step<'a>>
    requires fields_below { FieldsBelow width fields.now × (0 < width) }
    requires passed { (i ≤ length a.now / width) × (j ≤ length b.now / width) }
    ensures { StepOf fields.now width a.now i b.now j result }
{
    match next_side(fields, width, a, i, b, j) {
        Side::First => Some(Step {
            record: &a[i * width..i * width + width],
            i: i + 1,
            j,
        }),
        Side::Second => Some(Step {
            record: &b[j * width..j * width + width],
            i,
            j: j + 1,
        }),
        Side::Both => Some(Step {
            record: &a[i * width..i * width + width],
            i: i + 1,
            j: j + 1,
        }),
        Side::Neither => None,
    }
}

// How many records the merge has.
pub fn merged_count(fields: &[usize], width: usize, a: &[i64], b: &[i64]) -> usize
    requires fields_below { FieldsBelow width fields.now × (0 < width) }
    requires few { (length a.now / width ≤ connection_limit) × (length b.now / width ≤ connection_limit) }
    ensures { result ≡ length (merged fields.now width a.now b.now) / width }
{
    let mut i = 0;
    let mut j = 0;
    let mut n = 0;
    while let Some(step) = next_record(fields, width, a, i, b, j) {
        i = step.i;
        j = step.j;
        n += 1;
    }
    n
}
