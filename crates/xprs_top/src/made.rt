ghost use Rattle.std.specs.Prelude.{◌≡◌, [], Err};

use crate::Status;
use std::alloc::Global;

/// A text that was made, or why it was not, and the drives that were mounted for it.
pub(crate) struct Made<D> {
    pub text: Result<Vec<u8>, Status>,
    pub drives: Vec<D>,
}

/// A text that was not made, without drives.
pub(crate) fn unmade<D>(alloc: Global, status: Status) -> Made<D>
    ensures { (result.text ≡ Err status) × (result.drives.items ≡ []) }
{
    Made {
        text: Err(status),
        drives: Vec::new(alloc),
    }
}
