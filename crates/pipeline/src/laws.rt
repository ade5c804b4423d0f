//! What holds of told pages, and of what is kept of earlier fragments.
ghost use Rattle.std.specs.Prelude.{◌≡◌, ◌<◌, ℕ, List, None, map};
ghost use Rattle.std.specs.List.{AllZip};
ghost use Rattle.heap_page.specs.Pages.{fault_of};
ghost use Rattle.plan_tree.specs.declared.fragment.Source.{Source};
ghost use Rattle.rows.specs.declared.value.Value.{Value};
ghost use Rattle.hash_join.specs.Table.{Table, rows_of};
ghost use Rattle.plan_tree.specs.EndValues.{kept_by, kept_value};
ghost use Rattle.plan_tree.specs.Fragments.{Stored, ended};
ghost use Rattle.plan_tree.specs.Inputs.{input_values, inputs_of};
ghost use Rattle.plan_tree.specs.Pieces.{Piece};
ghost use Rattle.plan_tree.specs.WellFormed.{IsPiece};
ghost use Rattle.pipeline.specs.Ends.{ArePartsOf};
ghost use Rattle.pipeline.specs.KeptValues.{AreKept, HasRows, rows_by_position};
ghost use Rattle.pipeline.specs.Positions.{AreInputs};
ghost use Rattle.pipeline.specs.Images.{HoldsHeap, Image, IsTold, StoresRead};

use heap_page::page_laws;

/// Each page of a heap file that holds what is stored breaks none of rules 1 to 8, and what is read in the files that hold
/// what is stored is what is stored.
pub fn image_laws()
    ensures fine { (image : Image) (file count page : ℕ) (pages : List (List (List ℕ))) → HoldsHeap image file count pages → page < count → fault_of file page (image file page) ≡ None }
    ensures read { (image : Image) (stored : Stored) (positions : ℕ) (source : Source) → IsTold image stored positions source → StoresRead image stored positions source }
{
    page_laws();
}

/// What is kept of the fragments that a well formed one reads are inputs that fit it, whatever the files tell. Where they
/// have the rows of these fragments' values, they are the values of its inputs. And what is kept of the rows of all its
/// positions is its value.
pub fn kept_laws()
    ensures fit { (before : List Piece) (piece : Piece) (tables : List Table) → IsPiece before piece → AreKept before piece tables → AreInputs piece.pipe tables }
    ensures rows { (values : List (List (List Value))) (piece : Piece) (tables : List Table) → AllZip (HasRows values) (inputs_of piece) tables → input_values values piece ≡ map (λ (t : Table). rows_of t.lists) tables }
    ensures value { (stored : Stored) (values : List (List (List Value))) (piece : Piece) (parts : List (List (List Value))) (table : Table) → ArePartsOf piece.end (rows_by_position stored values piece) parts →
        table ≡ kept_by piece.end piece.layout parts (ended piece.end (rows_of (rows_by_position stored values piece))) → table ≡ kept_value stored values piece }
{}
