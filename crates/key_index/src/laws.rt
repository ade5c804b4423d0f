//! What holds of the levels and pages of every index.
ghost use Rattle.std.specs.Prelude.{◌≡◌, ◌<◌, ℕ, List, Some, None, length, slice_get};
ghost use Rattle.std.specs.List.{AllByRecursion};
ghost use Rattle.heap_page.specs.Fields.{AreBytes};
ghost use Rattle.heap_page.specs.declared.head.FileKind.TheVariants.{Index};
ghost use Rattle.heap_page.specs.Pages.{head_fault};
ghost use Rattle.rows.specs.RowBytes.{IsOfType};
ghost use Rattle.key_index.specs.Bytes.{page_of};
ghost use Rattle.key_index.specs.Readings.{page_fault, page_items};
ghost use Rattle.rows.specs.declared.field.ColType.{ColType};
ghost use Rattle.rows.specs.declared.plain.KeyEntry.{KeyEntry};
ghost use Rattle.key_index.specs.Entries.{AreEntries, Item, items_of};
ghost use Rattle.key_index.specs.Files.{index_pages};
ghost use Rattle.key_index.specs.Levels.{AreLevels, levels_of};

/// The entries of an index have levels, in exactly one way: each is cut into pages, a new one exactly where the next item
/// doesn't fit, and while a level has several pages the next one is made over them. Each page has 8,192 bytes.
pub fn index_laws()
    ensures are { (t : ColType) (heap : ℕ) (entries : List KeyEntry) → AreEntries t heap entries → AreLevels 0 0 (items_of entries) (levels_of entries) }
    ensures only { (t : ColType) (heap : ℕ) (entries : List KeyEntry) (levels : List (List (List Item))) → AreEntries t heap entries → AreLevels 0 0 (items_of entries) levels → levels ≡ levels_of entries }
    ensures length { (t : ColType) (heap file n : ℕ) (entries : List KeyEntry) (page : List ℕ) → AreEntries t heap entries → slice_get (index_pages file entries) n ≡ Some page → length page ≡ 8192 }
{}

/// Bytes of a page that break no rule of an index page are the page of the items that are read in it: there is at least
/// one, and each key is of the type.
pub fn page_laws()
    ensures only { (t : ColType) (file page level left : ℕ) (bytes : List ℕ) → AreBytes bytes → length bytes ≡ 8192 → head_fault Index file page bytes ≡ None → page_fault t level left bytes ≡ None → (items : List Item) (rest : List ℕ) →
        page_items t level left bytes ≡ Some (items, rest) → bytes ≡ page_of file page level items }
    ensures read { (t : ColType) (level left : ℕ) (bytes : List ℕ) → AreBytes bytes → length bytes ≡ 8192 → page_fault t level left bytes ≡ None →
        (items : List Item) × (rest : List ℕ) × (page_items t level left bytes ≡ Some (items, rest)) × (0 < length items) × AllByRecursion (λ (e : Item). IsOfType t e.key) items }
{}
