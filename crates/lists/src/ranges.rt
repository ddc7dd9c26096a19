// A table of ranges, one for each field of a record.
ghost use Rattle.std.specs.Prelude.{◌≡◌, ◌+◌, ◌≤◌, length};
ghost use Rattle.lists.specs.Signed.{in_range};
ghost use Rattle.lists.specs.Ranges.{record_in_range, first_out_of_range, lows_of, highs_of};

// The least and the greatest number of a field. No `RangeInclusive`: `a..=b` is a call, which a constant may not have yet.
#[derive(Clone, Copy)]
pub struct Bounds {
    pub low: i64,
    pub high: i64,
}

impl Bounds {
    // Whether the number is in the range.
    fn hold(self, n: i64) -> bool
        ensures { result ≡ in_range self.low self.high n }
    {
        (self.low <= n) & (n <= self.high)
    }
}

// The range of each field of a record.
#[derive(Clone, Copy)]
pub struct Ranges<const WIDTH: usize> {
    pub fields: [Bounds; WIDTH],
}

impl<const WIDTH: usize> Ranges<WIDTH> {
    // Whether each field of the record at `i` is in its range.
    fn hold(&self, list: &[i64], i: usize) -> bool
        requires { i + WIDTH ≤ length list.now }
        ensures { result ≡ record_in_range (lows_of self.now.fields) (highs_of self.now.fields) list.now i }
    {
        for f in 0..WIDTH {
            if !self.fields[f].hold(list[i + f]) {
                return false;
            }
        }
        true
    }

    // The first record with a field outside its range. One of no fields has none.
    pub fn first_outside(&self, list: &[i64]) -> Option<usize>
        ensures { result ≡ first_out_of_range (lows_of self.now.fields) (highs_of self.now.fields) list.now }
    {
        if WIDTH == 0 {
            return None;
        }
        for k in 0..list.len() / WIDTH {
            if !self.hold(list, k * WIDTH) {
                return Some(k);
            }
        }
        None
    }
}
