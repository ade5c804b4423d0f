use kept_relations::KeptList;
use rel_meaning::Query;
use rows::Catalog;
use table_store::Laid;

// What is known of the tables: their relations, where they stand, and how many rows each has; and
// the queries of a script with what they keep.
#[derive(Clone, Copy)]
pub(crate) struct Known<'a> {
    pub relations: &'a Catalog,
    pub laid: &'a Laid,
    pub rows: &'a [u32],
    pub queries: &'a [Query],
    pub kept: &'a KeptList,
}
