//! The places of a claim.
ghost use Rattle.std.specs.Prelude.{◌≡◌, ◌≤◌, [], length, vec_capacity};

use history::Places;
use lists::Sequence;
use page_partition::Batch;

/// The positions of a batch, in the room of an empty list that has room for them.
pub fn places_of(mut places: Vec<u32>, batch: &Batch) -> Places
    requires empty { places.items ≡ [] }
    requires room { length batch.now ≤ vec_capacity places }
    ensures { result ≡ batch.now }
{
    for position in batch.positions() {
        places.push_reserved(*position);
    }
    Sequence::from_vec(places)
}
