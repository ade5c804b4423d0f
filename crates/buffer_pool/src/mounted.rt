//! What a pool is made of.
ghost use Rattle.std.specs.Prelude.{◌≡◌, [], IfOk, vec_capacity};

use heap_page::FileMap;
use std::alloc::Global;
use std::snapshot::Snapshot;
use xp_outside::NoMemory;

/// The files of a pool, and its drives as they were when it was made.
#[derive(Drop)]
pub struct Mounted<D> {
    pub(crate) map: FileMap,
    pub(crate) drives: Snapshot<Vec<D>>,
}

// The same map again.
pub(crate) fn copy_map(alloc: Global, map: &FileMap) -> Result<FileMap, NoMemory>
    ensures { IfOk result (λ copy. (copy.files.items ≡ map.now.files.items) × (copy.drives ≡ map.now.drives)) }
{
    Ok(FileMap {
        files: Vec::from_slice(alloc, &map.files)?,
        drives: map.drives,
    })
}

// Two vectors with room for so many items each.
pub(crate) fn reserved<A, B>(alloc: Global, count: usize) -> Result<(Vec<A>, Vec<B>), NoMemory>
    ensures empty { IfOk result (λ made. (made.0.items ≡ []) × (made.1.items ≡ [])) }
    ensures room { IfOk result (λ made. (vec_capacity made.0 ≡ count) × (vec_capacity made.1 ≡ count)) }
{
    let first = Vec::with_capacity(alloc, count)?;
    match Vec::with_capacity(alloc, count) {
        Ok(second) => Ok((first, second)),
        Err(refused) => {
            first.destroy_empty();
            Err(refused)
        }
    }
}
