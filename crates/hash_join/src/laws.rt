//! What is found by a key.
ghost use Rattle.std.specs.Prelude.{◌≡◌, List, filter, map};
ghost use Rattle.rows.specs.declared.plain.KeyPair.{KeyPair};
ghost use Rattle.rows.specs.declared.plain.LayoutPart.{LayoutPart};
ghost use Rattle.rows.specs.declared.value.Value.{Value};
ghost use Rattle.rows.specs.Keys.{keys_match};
ghost use Rattle.hash_join.specs.Table.{HasKeys, Table, matching, row_at, row_key, rows_of};

/// The rows at the places that match the key of another row are those, in order, whose keys match that row's: each key is
/// equal, and none is null. The table's key columns are the first columns of the pairs in the layout of its rows, and the
/// key has the values of the second columns in the layout of the other row.
pub fn match_laws()
    ensures { (table : Table) (first second : List LayoutPart) (keys : List KeyPair) (row : List Value) →
        HasKeys first (map (λ key. key.build) keys) table →
        map (row_at table.lists) (matching table (row_key second (map (λ key. key.probe) keys) row)) ≡ filter (λ b. keys_match first second keys b row) (rows_of table.lists) }
{}
