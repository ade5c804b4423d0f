//! What the order of an answer leaves of its rows.
ghost use Rattle.std.specs.Prelude.{◌≡◌, Bool, List, false, min, true};
ghost use Rattle.std.specs.declared.cmp.Ordering.TheVariants.{Equal};
ghost use Rattle.lists.specs.Arranged.{Ascends, occurrences};
ghost use Rattle.rows.specs.declared.order.SortKey.{SortKey};
ghost use Rattle.rows.specs.declared.value.Value.{Value};
ghost use Rattle.rows.specs.Values.{arranged, row_cmp};

/// Arranged rows ascend by the keys and then by all columns. They are the same rows as before, each as often, and where
/// `unique` each once. Rows between which the order makes no difference are equal, and no other rows in ascending order
/// have each row as often.
pub fn arranging_laws()
    ensures ascends { (unique : Bool) (keys : List SortKey) (rows : List (List Value)) → Ascends (row_cmp keys) (arranged unique keys rows) }
    ensures all { (keys : List SortKey) (rows : List (List Value)) (row : List Value) → occurrences (row_cmp keys) row (arranged false keys rows) ≡ occurrences (row_cmp keys) row rows }
    ensures once { (keys : List SortKey) (rows : List (List Value)) (row : List Value) → occurrences (row_cmp keys) row (arranged true keys rows) ≡ min (occurrences (row_cmp keys) row rows) 1 }
    ensures exact { (keys : List SortKey) (first second : List Value) → row_cmp keys first second ≡ Equal → first ≡ second }
    ensures only { (keys : List SortKey) (first second : List (List Value)) → Ascends (row_cmp keys) first → Ascends (row_cmp keys) second → ((row : List Value) → occurrences (row_cmp keys) row first ≡ occurrences (row_cmp keys) row second) → first ≡ second }
{}
