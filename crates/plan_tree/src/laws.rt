//! What holds of every tree of a query, of every scan and every merge, and of every well formed fragment.
ghost use Rattle.std.specs.Prelude.{◌≡◌, ◌+◌, ◌++◌, ◌<◌, ◌≤◌, ℕ, List, Some, drop, length, map, slice_get, take};
ghost use Rattle.std.specs.List.{AllByRecursion, flat_map, range_with_len};
ghost use Rattle.std.specs.Option.{option_to_list};
ghost use Rattle.rows.specs.declared.plain.Bound.{Bound};
ghost use Rattle.rows.specs.declared.plain.Column.{Column};
ghost use Rattle.rows.specs.declared.plain.KeyPair.{KeyPair};
ghost use Rattle.rows.specs.declared.plain.LayoutColumn.{LayoutColumn};
ghost use Rattle.rows.specs.declared.plain.LayoutPart.{LayoutPart};
ghost use Rattle.rows.specs.RowBytes.{IsRowOf, row_bytes};
ghost use Rattle.rows.specs.declared.value.Value.{Value};
ghost use Rattle.rel_meaning.specs.Expression.{Expression, Question};
ghost use Rattle.rel_meaning.specs.declared.query.Table.{Table};
ghost use Rattle.rel_meaning.specs.Meaning.{IsResolved, meaning};
ghost use Rattle.plan_tree.specs.declared.tree.Method.{Method};
ghost use Rattle.plan_tree.specs.declared.tree.Way.{Way};
ghost use Rattle.plan_tree.specs.Intervals.{AreEntries, Sets, interval_rows};
ghost use Rattle.plan_tree.specs.Rows.{kept, probed};
ghost use Rattle.plan_tree.specs.Combining.{merged};
ghost use Rattle.plan_tree.specs.Fragments.{Stored, entry_row, row_at, matched, merge_slices, out, page_items, rows_in, slice_of, value_at, value_of, values_of};
ghost use Rattle.hash_join.specs.Table.{rows_of};
ghost use Rattle.plan_tree.specs.Assignments.{rows_for};
ghost use Rattle.plan_tree.specs.EndValues.{IsEndValue, all_outs, kept_value};
ghost use Rattle.plan_tree.specs.Inputs.{input_values, out_from};
ghost use Rattle.plan_tree.specs.Pieces.{Piece};
ghost use Rattle.plan_tree.specs.ShapeLaws.{HaveShapes, HoldsBytes};
ghost use Rattle.plan_tree.specs.Trees.{IsTree, Shape};
ghost use Rattle.plan_tree.specs.TreeLaws.{FitColumns, NamesOwn, ReadsRows, SameRows, ScanReads, answer_over, tree_answer};
ghost use Rattle.plan_tree.specs.WellFormed.{AreWellFormed, HasShape, IsPiece};

/// Every tree of a query, of whatever shape and under either method, means the query: where its scans keep the rows of
/// their tables that pass their tests, in whatever order they read them, its rows give the query's
/// answer. The tables are those of a resolved query, or any whose rows fit some columns, whatever the
/// bounds of their integers.
pub fn tree_laws()
    ensures tables { (db : List Table) (q : Question) (m : Method) (t : Shape) (scanned : ℕ → Way → List (List Value)) → IsResolved db q → IsTree q m t → ScanReads db q scanned t → tree_answer db q scanned t ≡ meaning db q }
    ensures columns { (db : List Table) (q : Question) (m : Method) (t : Shape) (columns : ℕ → List LayoutColumn) (scanned : ℕ → Way → List (List Value)) → FitColumns db q columns → NamesOwn q → IsTree q m t → ReadsRows columns (rows_for db q.vars) scanned t → answer_over columns q scanned t ≡ meaning db q }
{}

/// The scan of an index keeps the rows that the scan of the heap file keeps, where its tests set at least one bound to the
/// indexed column and it reads the entries that all these bounds leave.
pub fn index_laws()
    ensures { (layout : List LayoutPart) (v k : ℕ) (tests : List Expression) (bounds : List Bound) (rows entries : List (List Value)) → 0 < length bounds → AllByRecursion (Sets tests v k) bounds → AreEntries layout v k rows entries → SameRows (kept layout tests (interval_rows layout v k bounds entries)) (kept layout tests rows) }
{}

/// What the positions of a source give, in order. The pages of a heap file that holds the bytes of some rows give these
/// rows. A run of an index's entries gives that part of the rows of its entries. The slices of a merge give each left row
/// with the right rows that have its keys, and these are the rows that a probe of the left rows gives.
pub fn position_laws()
    ensures pages { (stored : Stored) (file : ℕ) (columns : List Column) (rows : List (List Value)) → HoldsBytes stored → length columns ≤ 32 → AllByRecursion (IsRowOf columns) rows → flat_map (λ items. items) (stored.pages file) ≡ map (row_bytes columns) rows → flat_map (λ p. rows_in columns (page_items stored file p)) (range_with_len 0 (length (stored.pages file))) ≡ rows }
    ensures entries { (stored : Stored) (heap_file file : ℕ) (columns : List Column) (rows : List (List Value)) (from count : ℕ) → map (row_at stored columns heap_file) (stored.entries file) ≡ map Some rows → flat_map (λ p. option_to_list (entry_row stored columns heap_file file (from + p))) (range_with_len 0 count) ≡ take count (drop from rows) }
    ensures slices { (first second : List LayoutPart) (keys : List KeyPair) (left right : List (List Value)) → flat_map (λ p. matched first second keys (slice_of p left) right) (range_with_len 0 merge_slices) ≡ matched first second keys left right }
    ensures merge { (first second : List LayoutPart) (keys : List KeyPair) (left right : List (List Value)) → SameRows (matched first second keys left right) (probed (merged first second) first second keys left right) }
{}

/// What each position of a well formed fragment gives has the shape that its end asks for, and so has its value: whatever
/// the files tell, where the values of the earlier fragments have their shapes.
pub fn shape_laws()
    ensures out { (stored : Stored) (before : List Piece) (values : List (List (List Value))) (piece : Piece) (position : ℕ) → HoldsBytes stored → HaveShapes before values → IsPiece before piece → HasShape piece.layout piece.end (out stored values piece position) }
    ensures value { (stored : Stored) (before : List Piece) (values : List (List (List Value))) (piece : Piece) → HoldsBytes stored → HaveShapes before values → IsPiece before piece → HasShape piece.layout piece.end (value_of stored values piece) }
    ensures list { (stored : Stored) (pieces : List Piece) → HoldsBytes stored →
        AreWellFormed pieces → HaveShapes pieces (values_of stored pieces) }
{}

/// The value of each fragment of a list rests on those before it: later fragments don't change it,
/// in a well-formed list it is the fragment's value over the values of the whole list, and what its
/// positions give rests on the values of its inputs alone.
pub fn input_laws()
    ensures earlier { (stored : Stored) (pieces : List Piece) (number : ℕ) (piece : Piece) →
        slice_get pieces number ≡ Some piece →
        value_at (values_of stored pieces) number ≡ value_of stored (values_of stored (take number pieces)) piece }
    ensures later { (stored : Stored) (pieces more : List Piece) (number : ℕ) →
        number < length pieces →
        value_at (values_of stored (pieces ++ more)) number ≡ value_at (values_of stored pieces) number }
    ensures whole { (stored : Stored) (pieces : List Piece) (number : ℕ) (piece : Piece) →
        AreWellFormed pieces → slice_get pieces number ≡ Some piece →
        value_at (values_of stored pieces) number ≡ value_of stored (values_of stored pieces) piece }
    ensures inputs { (stored : Stored) (values : List (List (List Value))) (piece : Piece) (position : ℕ) → out_from stored (input_values values piece) piece position ≡ out stored values piece position }
{}

/// A fragment's value, as it is kept, is its end's value of what its positions give, and has the
/// value's rows.
pub fn end_laws()
    ensures value { (stored : Stored) (values : List (List (List Value))) (piece : Piece) →
        IsEndValue piece.end piece.layout (all_outs stored values piece) (kept_value stored values piece) }
    ensures rows { (stored : Stored) (values : List (List (List Value))) (piece : Piece) →
        rows_of (kept_value stored values piece).lists ≡ value_of stored values piece }
{}
