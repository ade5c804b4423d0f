//! What is known of relations and of the statement that is cut.
ghost use Rattle.std.specs.Prelude.{◌≡◌, ◌<◌, ◌≤◌, ℕ, length, slice_get, Some};
ghost use Rattle.rows.specs.declared.plain.Relation.{Relation};
ghost use Rattle.heap_page.specs.declared.map.PageFile.{PageFile};
ghost use Rattle.fragments.specs.Homes.{heap_file, index_if, indexes_before, stored, stored_home};
ghost use Rattle.fragments.specs.Opened.{known_of, store_of};

use heap_page::PageFile;
use kept_relations::KeptList;
use rel_meaning::Query;
use rows::{Catalog, ColumnList, KeyIndex, KeyIndexList, Relation};
use seq_optimizer::VarStatsList;

// The relations of the catalogue, their files, their indexes in the order of the index files, and the relations that
// statements keep.
#[derive(Clone, Copy)]
pub(crate) struct Known<'a> {
    pub catalog: &'a Catalog,
    pub files: &'a [PageFile],
    pub indexes: &'a KeyIndexList,
    pub kept: &'a KeptList,
}

// A relation of the catalogue: its columns, its heap file with so many pages, and its index.
#[derive(Clone, Copy)]
pub(crate) struct Stored<'a> {
    pub columns: &'a ColumnList,
    pub heap_file: u32,
    pub pages: u32,
    pub index: Option<KeyIndex>,
}

// The statement that is cut, behind those whose last fragments have these numbers.
#[derive(Clone, Copy)]
pub(crate) struct Statement<'a> {
    pub known: Known<'a>,
    pub lasts: &'a [u32],
    pub query: &'a Query,
    pub stats: &'a VarStatsList,
}

// How many relations before this one have an index.
fn indexes_before(relations: &[Relation], relation: usize) -> usize
    requires { relation < length relations.now }
    ensures value { result ≡ indexes_before relations.now relation }
    ensures most { result ≤ relation }
{
    relations[..relation]
        .iter()
        .filter(|here| here.index.is_some())
        .count()
}

// The index at a place among the indexes, where the relation has one.
fn index_of(indexes: &KeyIndexList, place: usize, column: Option<u32>) -> Option<KeyIndex>
    ensures { result ≡ index_if indexes.now place column }
{
    match column {
        Some(_) => indexes.items().get(place).copied(),
        None => None,
    }
}

// A relation of the catalogue whose heap file is there.
pub(crate) fn stored_at<'a>(known: &Known<'a>, relation: usize) -> Stored<'a>
    requires few { length known.now.catalog.now ≤ 16 }
    requires there { relation < length known.now.catalog.now }
    requires file { heap_file known.now.catalog.now relation < length known.now.files.now }
    ensures { (here : Relation) → slice_get known.now.catalog.now relation ≡ Some here →
        stored_home (known_of known.now) relation here ≡ stored (store_of result) }
{
    let here = known.catalog.get(relation);
    let place = indexes_before(known.catalog.items(), relation);
    let heap_file = relation + place;
    Stored {
        columns: &here.columns,
        heap_file: heap_file as u32,
        pages: known.files[heap_file].pages,
        index: index_of(known.indexes, place, here.index),
    }
}
