//! Where pages come from.
ghost use Rattle.std.specs.Prelude.{◌≡◌, ◌≤◌, ℕ, Bool, List, Option, IfOk, IfErr};
ghost use Rattle.std.specs.Arc.{arc_value};
ghost use Rattle.heap_page.specs.declared.map.PageFile.{PageFile};
ghost use Rattle.heap_page.specs.Maps.{HasPage};
ghost use Rattle.heap_page.specs.Sources.{AreCalm, IsGiven, FetchCause};
ghost use Rattle.heap_page.specs.Stores.{fetch_fault};

use crate::{FetchErr, Page};
use std::alloc::Global;
use std::sync::Arc;

/// Files of pages that are fetched by their numbers.
pub trait PageSource {
    /// What a source is of.
    type Whole;

    /// It never changes: a source stays the one it is, with its drives, its files and what it tells.
    ghost whole: { Self → Self.Whole };

    /// How many drives there are.
    ghost drives: { Self.Whole → ℕ };

    /// The files, each with its kind and its number of pages.
    ghost files: { Self.Whole → List PageFile };

    /// The bytes of each page of each file, where the source tells them.
    ghost image: { Self.Whole → Option (ℕ → ℕ → List ℕ) };

    /// How often each drive has failed. No count ever falls.
    ghost faults: { Self → ℕ → ℕ };

    /// Whether it is one caller's alone, so that no drive fails but in a call that says so.
    ghost lone: { Self.Whole → Bool };

    /// A page of a file. Its head breaks no rule, and where the source tells, it is the image's. `DriveFault` comes
    /// only where the drive's count rises; the counts of the other drives, and all counts at every other answer, stand
    /// where the source is one caller's alone. `BadPage` has the file and the page asked, and the first rule that the
    /// head of a page breaks; where the source tells, it comes exactly where that of the image's page breaks one.
    fn fetch(&mut self, alloc: Global, file: u32, page: u32) -> Result<Arc<Page>, FetchErr>
        requires { HasPage (files (whole self.old)) file page }
        ensures whole { whole self.new ≡ whole self.old }
        ensures counts { (d : ℕ) → faults self.old d ≤ faults self.new d }
        ensures quiet { AreCalm (lone (whole self.old)) (fetch_fault result) (faults self.old) (faults self.new) }
        ensures ok { IfOk result (λ found. IsGiven (files (whole self.old)) (image (whole self.old)) file page (arc_value found)) }
        ensures err { IfErr result (FetchCause (files (whole self.old)) (image (whole self.old)) (drives (whole self.old)) (faults self.old) (faults self.new) file page) };
}
