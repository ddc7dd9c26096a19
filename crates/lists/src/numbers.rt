// A number of a list that is not signed.
ghost use Rattle.std.specs.Prelude.{◌≡◌, ◌<◌, length, T};
ghost use Rattle.std.specs.Int.Signed.{non_neg};
ghost use Rattle.lists.specs.Signed.{at};
ghost use Rattle.lists.specs.Records.{natural_at};

// list[i], which is not negative: an id or a code. Of its own, since the bound that the cast needs is asked once here.
pub fn natural_at(list: &[i64], i: usize) -> u64
    requires { (i < length list.now) × T (non_neg (at list.now i)) }
    ensures { result ≡ natural_at list.now i }
{
    list[i] as u64
}
