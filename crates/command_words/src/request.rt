//! What a run is asked for.

/// How relations are joined.
#[derive(Clone, Copy, Debug, PartialEq, Eq)]
pub enum JoinMethod {
    Hash,
    Merge,
}

/// The name of the catalogue's file, and that of the script's.
#[derive(Clone, Copy, Debug)]
pub struct FileNames<'a> {
    pub catalog: &'a str,
    pub script: &'a str,
}

/// What a run works with: 1 to 64 backends, 1 to 16 drives, 1 to 4096 frames, and 1 to 64 positions
/// that a backend takes at once.
#[derive(Clone, Copy, Debug, PartialEq, Eq)]
pub struct Machine {
    pub backends: u32,
    pub drives: u32,
    pub frames: u32,
    pub batch: u32,
}

/// A script that is to be answered.
#[derive(Clone, Copy, Debug)]
pub struct Job<'a> {
    pub files: FileNames<'a>,
    pub machine: Machine,
    pub join: JoinMethod,
    pub is_traced: bool,
}

/// A script whose plans are to be shown, for 1 to 64 backends and 1 to 16 drives.
#[derive(Clone, Copy, Debug)]
pub struct Plans<'a> {
    pub files: FileNames<'a>,
    pub backends: u32,
    pub drives: u32,
    pub join: JoinMethod,
}

/// A made input of that number, of 1 to 100000 rows, that is to be answered.
#[derive(Clone, Copy, Debug, PartialEq, Eq)]
pub struct Generation {
    pub number: u64,
    pub rows: u32,
    pub machine: Machine,
}

/// What a run is asked for.
#[derive(Clone, Copy, Debug)]
pub enum Request<'a> {
    Run(Job<'a>),
    Alone(Job<'a>),
    Explain(Plans<'a>),
    Check(FileNames<'a>),
    Gen(Generation),
}
