//! Runs for tests.
ghost use Rattle.std.specs.Prelude.{◌≡◌, [], ◌∷◌, IfOk};
ghost use Rattle.master.specs.SampleRuns.{sample, sample_entries, sample_layout, sample_pages, sample_reader, sample_scan};

use lists::Sequence;
use plan_tree::{End, Fragment, FragmentList, Pipe, Probe, ProbeList, Source};
use rows::{ColType, Interval, KeyIndex, Layout, LayoutPart};
use std::alloc::{AllocError, Global};

fn layout(alloc: Global) -> Result<Layout, AllocError>
    ensures { IfOk result (λ layout. layout ≡ sample_layout) }
{
    let part = LayoutPart {
        var: 0,
        columns: Sequence::new(alloc),
    };
    Ok(Sequence::from_vec(vec![in alloc; part]?))
}

fn sample(
    alloc: Global,
    statement: u32,
    source: Source,
    probes: ProbeList,
    positions: u32,
    pages: u64,
    time: u64,
) -> Result<Fragment, AllocError>
    ensures { IfOk result (λ f. f ≡ sample statement source probes positions pages time) }
{
    Ok(Fragment {
        statement,
        pipe: Pipe {
            source,
            columns: Sequence::new(alloc),
            tests: Sequence::new(alloc),
            probes,
        },
        end: End::Build {
            keys: Sequence::new(alloc),
        },
        layout: layout(alloc)?,
        positions,
        pages,
        time,
    })
}

/// A scan of the pages of a heap file.
fn pages(alloc: Global, statement: u32, positions: u32, time: u64) -> Result<Fragment, AllocError>
    ensures { IfOk result (λ f. f ≡ sample_pages statement positions time) }
{
    let source = Source::Heap { var: 0, file: 0 };
    let probes = Sequence::new(alloc);
    sample(
        alloc,
        statement,
        source,
        probes,
        positions,
        u64::from(positions),
        time,
    )
}

/// A scan of the entries of an index.
fn entries(
    alloc: Global,
    statement: u32,
    positions: u32,
    pages: u64,
    time: u64,
) -> Result<Fragment, AllocError>
    ensures { IfOk result (λ f. f ≡ sample_entries statement positions pages time) }
{
    let index = KeyIndex {
        file: 0,
        key_type: ColType::Int4,
        entries: positions,
        pages: 1,
        height: 1,
        heap_pages: 1,
    };
    let source = Source::Index {
        var: 0,
        index,
        heap_file: 0,
        interval: Interval {
            from: 0,
            upto: positions,
        },
    };
    sample(
        alloc,
        statement,
        source,
        Sequence::new(alloc),
        positions,
        pages,
        time,
    )
}

/// One position, which reads what another fragment gives.
fn reader(alloc: Global, statement: u32, input: u32, time: u64) -> Result<Fragment, AllocError>
    ensures { IfOk result (λ f. f ≡ sample_reader statement input time) }
{
    let probe = Probe {
        input,
        keys: Sequence::new(alloc),
        tests: Sequence::new(alloc),
        layout: layout(alloc)?,
    };
    let probes = Sequence::from_vec(vec![in alloc; probe]?);
    sample(alloc, statement, Source::One, probes, 1, 0, time)
}

/// A scan of pages or of entries: its positions, pages and time.
#[derive(Clone, Copy)]
pub struct Scan {
    pub by_entries: bool,
    pub positions: u32,
    pub pages: u32,
    pub time: u32,
}

// The scan, of a statement. A scan of pages has as many pages as positions.
fn make_scan(alloc: Global, statement: u32, scan: &Scan) -> Result<Fragment, AllocError>
    ensures { IfOk result (λ f. f ≡ sample_scan statement scan.now.by_entries scan.now.positions scan.now.pages scan.now.time) }
{
    let (number, time) = (u64::from(scan.pages), u64::from(scan.time));
    if scan.by_entries {
        entries(alloc, statement, scan.positions, number, time)
    } else {
        pages(alloc, statement, scan.positions, time)
    }
}

/// Two scans, each of its own statement.
pub fn pair(alloc: Global, first: &Scan, second: &Scan) -> Result<FragmentList, AllocError>
    ensures { IfOk result (λ fs. fs ≡ sample_scan 0 first.now.by_entries first.now.positions first.now.pages first.now.time ∷ sample_scan 1 second.now.by_entries second.now.positions second.now.pages second.now.time ∷ []) }
{
    let one = make_scan(alloc, 0, first)?;
    let two = make_scan(alloc, 1, second)?;
    Ok(Sequence::from_vec(vec![in alloc; one, two]?))
}

/// A scan of 12 pages, one of 9 entries, and a position that reads what the pages give.
pub fn trio(alloc: Global) -> Result<FragmentList, AllocError>
    ensures { IfOk result (λ fs. fs ≡ sample_pages 0 12 96 ∷ sample_entries 0 9 1 150 ∷ sample_reader 1 0 30 ∷ []) }
{
    let one = pages(alloc, 0, 12, 96)?;
    let two = entries(alloc, 0, 9, 1, 150)?;
    let three = reader(alloc, 1, 0, 30)?;
    Ok(Sequence::from_vec(vec![in alloc; one, two, three]?))
}
