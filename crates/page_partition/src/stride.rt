ghost use Rattle.std.specs.Prelude.{◌≡◌, ℕ, ◌+◌, ◌^◌, ◌<◌, ◌≤◌, [], length, max};
ghost use Rattle.page_partition.specs.Scan.{AllNamed, out_of};
ghost use Rattle.page_partition.specs.Table.{IsTable};
ghost use Rattle.page_partition.specs.Stride.{page_cut, stride_from, stride_marks};

use crate::table::{Mark, Role, recount};

/// The cut where one more deposited position is known.
fn later_cut(cut: u32, position: u32) -> u32
    requires { position + 1 < 2 ^ 32 }
    ensures { result ≡ max cut (position + 1) }
{
    cut.max(position + 1)
}

/// One past the greatest deposited position, or 0.
fn cut(marks: &[Mark]) -> u32
    requires { length marks.now < 2 ^ 32 }
    ensures { result ≡ page_cut marks.now }
{
    let mut cut = 0;
    for (p, mark) in marks.iter().enumerate() {
        if mark.is_deposited() {
            cut = later_cut(cut, p as u32);
        }
    }
    cut
}

/// Gives each position from the cut on to the role of its number modulo the degree.
fn stride(marks: &mut [Mark], cut: u32, degree: u32)
    requires fits { length marks.old < 2 ^ 32 }
    requires low { 1 ≤ degree }
    requires high { degree ≤ 64 }
    requires within { cut ≤ length marks.old }
    ensures { marks.new ≡ stride_from 0 cut degree marks.old }
{
    let end = marks.len() as u32;
    for p in cut..end {
        marks[p as usize] = Mark::Left((p % degree) as u8);
    }
}

/// Divides the positions from the cut on among `degree` roles. Nothing may be out.
pub fn divide_pages(marks: &mut [Mark], roles: &mut [Role], degree: u32) -> u32
    requires low { 1 ≤ degree }
    requires high { degree ≤ 64 }
    requires fits { length marks.old < 2 ^ 32 }
    requires named { AllNamed marks.old }
    requires sizes { length roles.old ≡ 64 }
    requires idle { (role : ℕ) → role < 64 → out_of marks.old role ≡ [] }
    ensures cut { result ≡ page_cut marks.old }
    ensures marks { marks.new ≡ stride_marks degree marks.old }
    ensures table { IsTable marks.new roles.new }
{
    let cut = cut(marks);
    stride(marks, cut, degree);
    recount(marks, roles);
    cut
}
