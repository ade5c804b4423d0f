//! Heap pages: their bytes, the files that they make on drives, and the pages of a table.
#![tactic(auto)]

mod blocks;
mod errors;
mod field;
mod filling;
mod head;
mod items;
mod laws;
mod map;
mod page;
mod reading;
mod shares;
mod source;
mod storing;
#[cfg(test)]
mod tests;
mod view;

pub use blocks::pages_of;
pub use errors::{BadPage, FetchErr, StoreErr};
pub use field::{are_zeros, read_long, read_short};
pub use filling::write_relation;
pub use head::{FileKind, check_head};
pub use items::ItemList;
pub use laws::{block_laws, page_laws, place_laws};
pub use map::{FileMap, PageFile};
pub use page::{Page, Push};
pub use reading::read_relation_page;
pub use source::PageSource;
pub use storing::{check_room, store_page};
pub use view::{PageView, read_page};
