//! The indexes of tables that were laid.
ghost use Rattle.std.specs.Prelude.{◌≡◌, ◌++◌, IfOk};
ghost use Rattle.std.specs.Option.{option_to_list};
ghost use Rattle.query_planner.specs.Stored.{laid_indexes};

use lists::Sequence;
use rows::{KeyIndex, KeyIndexList};
use std::alloc::{AllocError, Global};
use table_store::Laid;

// Puts an index behind the others, where there is one.
fn add_index(indexes: &mut Vec<KeyIndex>, index: &Option<KeyIndex>) -> Result<(), AllocError>
    ensures { IfOk result (λ u. indexes.new.items ≡ indexes.old.items ++ option_to_list index.now) }
{
    if let Some(index) = index {
        indexes.push(*index)?;
    }
    Ok(())
}

/// The indexes of the tables that have one, in the order of the index files. An `Err` is want of
/// memory.
pub fn laid_indexes(alloc: Global, laid: &Laid) -> Result<KeyIndexList, AllocError>
    ensures { IfOk result (λ indexes. indexes ≡ laid_indexes laid.now) }
{
    let mut indexes = Vec::new(alloc);
    for index in laid.indexes.as_slice() {
        add_index(&mut indexes, index)?;
    }
    Ok(Sequence::from_vec(indexes))
}
