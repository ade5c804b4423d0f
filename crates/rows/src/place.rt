ghost use Rattle.std.specs.Prelude.{◌≡◌, ◌<◌, ◌^◌, length, IfSome};
ghost use Rattle.rows.specs.Layouts.{column_place, all_columns};

use crate::LayoutPart;

/// The place of a variable's column in a row of the layout. It is `None` where the layout has no such column. The layout
/// has fewer than 2^64 columns.
pub fn place_of(layout: &[LayoutPart], var: u32, col: u32) -> Option<usize>
    requires { length (all_columns layout.now) < 2 ^ 64 }
    ensures place { result ≡ column_place layout.now var col }
    ensures within { IfSome result (λ place. place < length (all_columns layout.now)) }
{
    let (part, parts) = layout.split_first()?;
    let width = part.columns.len();
    if part.var == var {
        if (col as usize) < width {
            Some(col as usize)
        } else {
            None
        }
    } else {
        Some(width + place_of(parts, var, col)?)
    }
}
