//! What holds of every heap page, and of every table's pages.
ghost use Rattle.std.specs.Prelude.{◌≡◌, ◌<◌, ◌^◌, ℕ, List, Some, None, length, slice_get};
ghost use Rattle.std.specs.List.{AllByRecursion};
ghost use Rattle.heap_page.specs.Blocks.{ArePages, FitsAlone, blocks_of, item_weight};
ghost use Rattle.heap_page.specs.Fields.{AreBytes};
ghost use Rattle.heap_page.specs.declared.map.FileMap.{FileMap};
ghost use Rattle.heap_page.specs.Maps.{IsMap, HasPage, drive_of, address_of};
ghost use Rattle.heap_page.specs.Pages.{Fits, fault_of, items_of, page_of};

/// The page with some items has 8,192 bytes, breaks no rule and is read as the same items. A page that breaks no rule is
/// the page with the items that are read in it, and these fit a page.
pub fn page_laws()
    ensures length { (file number : ℕ) (items : List (List ℕ)) → file < 2 ^ 32 → number < 2 ^ 32 → Fits items → length (page_of file number items) ≡ 8192 }
    ensures accepted { (file number : ℕ) (items : List (List ℕ)) → file < 2 ^ 32 → number < 2 ^ 32 → Fits items → fault_of file number (page_of file number items) ≡ None }
    ensures again { (file number : ℕ) (items : List (List ℕ)) → file < 2 ^ 32 → number < 2 ^ 32 → Fits items → items_of (page_of file number items) ≡ items }
    ensures only { (file number : ℕ) (bytes : List ℕ) → AreBytes bytes → length bytes ≡ 8192 → fault_of file number bytes ≡ None → bytes ≡ page_of file number (items_of bytes) }
    ensures fit { (file number : ℕ) (bytes : List ℕ) → AreBytes bytes → length bytes ≡ 8192 → fault_of file number bytes ≡ None → Fits (items_of bytes) }
{}

/// Items that each fit an empty page can be cut into pages, in exactly one way. Each of these pages breaks no rule, and is
/// read as the items that were cut for it.
pub fn block_laws()
    ensures are { (items : List (List ℕ)) → AllByRecursion FitsAlone items → ArePages items (blocks_of item_weight 8172 items) }
    ensures only { (items : List (List ℕ)) (blocks others : List (List (List ℕ))) → ArePages items blocks → ArePages items others → blocks ≡ others }
    ensures accepted { (file number : ℕ) (items block : List (List ℕ)) (blocks : List (List (List ℕ))) → file < 2 ^ 32 → number < 2 ^ 32 → ArePages items blocks → slice_get blocks number ≡ Some block → fault_of file number (page_of file number block) ≡ None }
    ensures again { (file number : ℕ) (items block : List (List ℕ)) (blocks : List (List (List ℕ))) → file < 2 ^ 32 → number < 2 ^ 32 → ArePages items blocks → slice_get blocks number ≡ Some block → items_of (page_of file number block) ≡ block }
{}

/// Every page of every file has a place of its own: where two pages stand at the same address of the same drive, they
/// are the same page of the same file.
pub fn place_laws()
    ensures file { (map : FileMap) (file page other number : ℕ) → IsMap map → HasPage map.files.items file page → HasPage map.files.items other number → drive_of map page ≡ drive_of map number → address_of map file page ≡ address_of map other number → file ≡ other }
    ensures page { (map : FileMap) (file page other number : ℕ) → IsMap map → HasPage map.files.items file page → HasPage map.files.items other number → drive_of map page ≡ drive_of map number → address_of map file page ≡ address_of map other number → page ≡ number }
{}
