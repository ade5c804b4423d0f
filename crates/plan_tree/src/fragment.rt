ghost use Rattle.std.specs.Prelude.{◌≡◌, map, slice_get};
ghost use Rattle.plan_tree.specs.Inputs.{probe_inputs};
ghost use Rattle.plan_tree.specs.Pieces.{probing_of};

use crate::ExprList;
use aggregate_op::Fold;
use lists::Sequence;
use rel_meaning::TargetList;
use rows::{ColumnList, ColumnRefList, Interval, KeyIndex, KeyPairList, Layout, SortKeyList};

/// Where a position's rows come from.
#[derive(Drop)]
pub enum Source {
    /// The one empty row.
    One,
    /// The rows on a page of a heap file.
    Heap {
        var: u32,
        file: u32,
    },
    /// The row of an entry of an index.
    Index {
        var: u32,
        index: KeyIndex,
        heap_file: u32,
        interval: Interval,
    },
    /// The rows of a slice of the fragment `left`, each with those of the fragment `right` that have its keys. A key
    /// pair names the column of the left side first.
    Merge {
        left: u32,
        right: u32,
        keys: KeyPairList,
        left_layout: Layout,
        right_layout: Layout,
    },
}

/// Puts each row together with the rows of the fragment `input` that have its keys, and keeps those for which the tests
/// are true. `layout` is that of the rows after it.
#[derive(Drop)]
pub struct Probe {
    pub input: u32,
    pub keys: KeyPairList,
    pub tests: ExprList,
    pub layout: Layout,
}

pub type ProbeList = Sequence<Probe>;

/// What is done with the rows of a position before the end. `columns` are those of the relation that the source reads,
/// none where it reads no relation. `tests` are for the rows of the source.
#[derive(Drop)]
pub struct Pipe {
    pub source: Source,
    pub columns: ColumnList,
    pub tests: ExprList,
    pub probes: ProbeList,
}

/// What the rows of all positions become.
#[derive(Drop)]
pub enum End {
    /// Rows that a probe finds by these columns.
    Build {
        keys: ColumnRefList,
    },
    /// The statement's answer.
    Answer {
        targets: TargetList,
        unique: bool,
        keys: SortKeyList,
    },
    /// What is known of each group of the rows of the targets' values.
    Fold {
        targets: TargetList,
        fold: Fold,
    },
    /// Rows in the order of these keys, for a merge.
    Sort {
        keys: SortKeyList,
    },
}

/// A part of a plan that ends where its rows are gathered. `layout` is that of its rows before the end. It has
/// `positions` positions, reads `pages` pages, at most 2^40, and takes the time `time`, from 1 to 2^40.
#[derive(Drop)]
pub struct Fragment {
    pub statement: u32,
    pub pipe: Pipe,
    pub end: End,
    pub layout: Layout,
    pub positions: u32,
    pub pages: u64,
    pub time: u64,
}

/// The fragments of a script. An input of a fragment is given by its number in this list.
pub type FragmentList = Sequence<Fragment>;

// The input of the probe at a place.
fn probe_input(probes: &[Probe], place: usize) -> Option<u32>
    ensures { result ≡ slice_get (probe_inputs (map probing_of probes.now)) place }
{
    match probes.get(place) {
        Some(probe) => Some(probe.input),
        None => None,
    }
}

impl Fragment {
    ghost use Rattle.std.specs.Prelude.{◌≡◌, slice_get};
    ghost use Rattle.plan_tree.specs.Ends.{IsAnswer, fragment_with, is_by_entries};
    ghost use Rattle.plan_tree.specs.Inputs.{inputs_of};
    ghost use Rattle.plan_tree.specs.Pieces.{piece_of};

    /// The number of the input at a place, counted from 0: a merge's two sides come first, and then
    /// the inputs of the probes in their order. `None` behind the last. It takes no memory.
    pub fn input(&self, place: usize) -> Option<u32>
        ensures { result ≡ slice_get (inputs_of (piece_of self.now)) place }
    {
        let probes = self.pipe.probes.items();
        match &self.pipe.source {
            Source::Merge { left, right, .. } => match place {
                0 => Some(*left),
                1 => Some(*right),
                _ => probe_input(probes, place - 2),
            },
            Source::One | Source::Heap { .. } | Source::Index { .. } => probe_input(probes, place),
        }
    }

    /// Whether the positions are entries of an index or slices of a merge.
    pub fn by_entries(&self) -> bool
        ensures { result ≡ is_by_entries self.now.pipe.source }
    {
        match &self.pipe.source {
            Source::One | Source::Heap { .. } => false,
            Source::Index { .. } | Source::Merge { .. } => true,
        }
    }

    /// The same fragment, but that the rows of its targets' values are folded. It ends with an answer.
    pub fn with_fold(self, fold: Fold) -> Fragment
        requires { IsAnswer self.end }
        ensures { result ≡ fragment_with self fold }
    {
        let Fragment {
            statement,
            pipe,
            end,
            layout,
            positions,
            pages,
            time,
        } = self;
        Fragment {
            statement,
            pipe,
            end: end.with_fold(fold),
            layout,
            positions,
            pages,
            time,
        }
    }
}

impl End {
    ghost use Rattle.std.specs.Prelude.{◌≡◌};
    ghost use Rattle.plan_tree.specs.Ends.{IsAnswer, end_with};

    fn with_fold(self, fold: Fold) -> End
        requires { IsAnswer self }
        ensures { result ≡ end_with self fold }
    {
        match self {
            End::Answer { targets, .. } => End::Fold { targets, fold },
            End::Build { .. } | End::Fold { .. } | End::Sort { .. } => unreachable!(),
        }
    }
}
