//! Fragments that are scans of pages, for a control.
ghost use Rattle.std.specs.Prelude.{◌≡◌, ◌≤◌, ◌^◌, length, IfOk};
ghost use Rattle.std.specs.List.{AllByRecursion};
ghost use Rattle.master.specs.SampleRuns.{sample_layout, sample_pages};
ghost use Rattle.engine_bench.specs.Scans.{IsScan};

use lists::Sequence;
use plan_tree::{End, Fragment, FragmentList, Pipe, Source};
use rows::{Layout, LayoutPart};
use std::alloc::{AllocError, Global};

/// A scan of so many pages, which takes so long.
#[derive(Clone, Copy)]
pub struct PageScan {
    pub pages: u32,
    pub time: u32,
}

fn layout(alloc: Global) -> Result<Layout, AllocError>
    ensures { IfOk result (λ layout. layout ≡ sample_layout) }
{
    let part = LayoutPart {
        var: 0,
        columns: Sequence::new(alloc),
    };
    Ok(Sequence::from_vec(vec![in alloc; part]?))
}

fn fragment(alloc: Global, positions: u32, time: u64) -> Result<Fragment, AllocError>
    ensures { IfOk result (λ f. f ≡ sample_pages 0 positions time) }
{
    let source = Source::Heap { var: 0, file: 0 };
    Ok(Fragment {
        statement: 0,
        pipe: Pipe {
            source,
            columns: Sequence::new(alloc),
            tests: Sequence::new(alloc),
            probes: Sequence::new(alloc),
        },
        end: End::Build {
            keys: Sequence::new(alloc),
        },
        layout: layout(alloc)?,
        positions,
        pages: u64::from(positions),
        time,
    })
}

// A scan, of a time above 0.
fn make_scan(alloc: Global, scan: &PageScan) -> Result<Fragment, AllocError>
    ensures { IfOk result IsScan }
{
    fragment(alloc, scan.pages, u64::from(scan.time.max(1)))
}

/// A fragment for each of these scans, all of one statement. An error is want of memory.
pub fn make_scans(alloc: Global, scans: &[PageScan]) -> Result<FragmentList, AllocError>
    ensures scans { IfOk result (AllByRecursion IsScan) }
    ensures count { IfOk result (λ fs. length fs ≡ length scans.now) }
{
    let mut fragments = Vec::with_capacity(alloc, scans.len())?;
    for scan in scans {
        fragments.push(make_scan(alloc, scan)?)?;
    }
    Ok(Sequence::from_vec(fragments))
}
