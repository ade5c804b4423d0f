use rows::ValueView;

/// An entry of a leaf where its bytes lie: its key, heap page and slot. On a page above a leaf it stands for a page: the
/// first key there, and the page's number. `left` is how many entries stand left of it.
#[derive(Clone, Copy)]
pub struct Entry<'a> {
    pub key: ValueView<'a>,
    pub page: u32,
    pub slot: u32,
    pub left: u64,
}

/// How many entries of a page are counted, and the last of them, or the first entry of the page, where none is.
#[derive(Clone, Copy)]
pub struct Step<'a> {
    pub count: u32,
    pub entry: Entry<'a>,
}
