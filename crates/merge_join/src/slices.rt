//! The slices of the left side.
ghost use Rattle.std.specs.Prelude.{◌≡◌, ◌≤◌};
ghost use Rattle.plan_tree.specs.Fragments.{merge_slices, slice_start};

// The place of the first row of a slice, out of so many rows. For the slice behind the last it is
// their number.
#[tactic(auto, using(crate::proofs::Starts::start_is))]
pub(crate) fn slice_start(rows: u64, slice: u64) -> u64
    requires { slice ≤ merge_slices }
    ensures start { result ≡ slice_start rows slice }
    ensures within { result ≤ rows }
{
    let whole = rows / 64 * slice;
    let rest = rows % 64 * slice / 64;
    whole + rest
}
