/// An item of a level: the entry that has its key, and its page and slot. On a page above a leaf it stands for a page one
/// level down, whose first entry is that one.
#[derive(Clone, Copy, Debug)]
pub struct Node {
    pub place: u32,
    pub page: u32,
    pub slot: u32,
}

/// A level: its items, the places of the first ones of its pages, how many levels are below it, and its first page.
#[derive(Debug, Drop)]
pub struct Level {
    pub nodes: Vec<Node>,
    pub starts: Vec<u32>,
    pub number: u32,
    pub base: u32,
}
