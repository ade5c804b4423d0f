//! How long a fragment takes.
ghost use Rattle.std.specs.Prelude.{◌≡◌};
ghost use Rattle.fragments.specs.Cuts.{time_of};

// No number of pages and no time is above this.
pub(crate) const LIMIT: u64 = 1 << 40;

// The time of a fragment that reads so many pages and whose rows go through so many joins.
pub(crate) fn time_of(pages: u64, rows: u128, joins: u32) -> u64
    ensures { result ≡ time_of pages rows joins }
{
    let row_time = rows.saturating_mul(1 + joins as u128);
    let time = row_time.saturating_add(8 * pages as u128);
    time.max(1).min(LIMIT as u128) as u64
}
