// Arrays of flags and counts.
ghost use Rattle.std.specs.Prelude.{◌≡◌, Bool, ℕ, ◌≤◌, ◌<◌, length, get_or};
ghost use Rattle.regions.specs.Graph.{marked};
ghost use Rattle.signals.specs.Flags.{Flags, Gathered, Counted, Indices};

// Sets the flag of each index whose test holds, and clears the others. There is no branch on a test: they come in no order that a
// processor could foresee.
pub fn gather(index: &[u16], tests: &[bool], out: &mut [bool])
    requires indices { Indices (length index.now) (length out.old) index.now }
    requires tests_in_bounds { length index.now ≤ length tests.now }
    ensures { Gathered (length index.now) index.now tests.now out.new }
{
    out.fill(false);
    for (j, test) in index.iter().zip(tests) {
        out[usize::from(*j)] |= *test;
    }
}

// Counts how often each index stands there.
pub fn count_into(index: &[u16], counts: &mut [usize])
    requires { Indices (length index.now) (length counts.old) index.now }
    ensures { Counted (length index.now) index.now counts.new }
{
    counts.fill(0);
    for j in index {
        counts[usize::from(*j)] += 1;
    }
}

// Each flag joined with the other at its place.
pub fn combine_flags<F: Fn(bool, bool) -> bool>(flags: &mut [bool], others: &[bool], join: F)
    ghost joined: { Bool → Bool → Bool }
    requires others_in_bounds { length flags.old ≤ length others.now }
    requires callable { F.IsAlwaysCallable join }
    requires answer { (a b r : Bool) → F.post join a b r → r ≡ joined a b }
    ensures { Flags (length flags.old) (λ p. joined (marked flags.old p) (marked others.now p)) flags.new }
{
    for (p, flag) in flags.iter_mut().enumerate() {
        *flag = join(*flag, others[p]);
    }
}

// The value of each index.
pub fn spread<T: Copy>(index: &[u16], values: &[T], out: &mut [T])
    requires { Indices (length index.now) (length values.now) index.now × (length index.now ≤ length out.old) }
    ensures long { length index.now ≤ length out.new }
    ensures values { (p : ℕ) (d : T) → p < length index.now → get_or out.new p d ≡ get_or values.now (get_or index.now p 0) d }
{
    for (p, j) in index.iter().enumerate() {
        out[p] = values[usize::from(*j)];
    }
}
