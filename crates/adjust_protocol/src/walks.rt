ghost use Rattle.std.specs.Prelude.{◌≡◌, ℕ, ◌<◌, ◌≤◌, ◌↔◌, [], length, IsTrue, true, false, ◌&&◌, ◌||◌, not, slice_index_or, nat_lt, IfSome, IfNone, MatchOption, Option, unwrap_or};
ghost use Rattle.page_partition.specs.Scan.{left_of};
ghost use Rattle.adjust_protocol.specs.Free.{free_in, IsFirstFree};

use page_partition::Division;

/// Whether nothing is left for a role.
pub fn is_spent<V: Division>(division: &V, role: u32) -> bool
    requires { role < 64 }
    ensures { IsTrue result ↔ (left_of (V.scan division.now).marks role ≡ []) }
{
    division.left(role) == 0
}

/// Whether no position is missing.
pub fn is_complete(missing: u32) -> bool
    ensures { IsTrue result ↔ (missing ≡ 0) }
{
    missing == 0
}

/// The pending degree where there is one, else the one in force.
pub fn wanted_degree(asked: Option<u32>, degree: u32) -> u32
    ensures { result ≡ unwrap_or asked degree }
{
    asked.unwrap_or(degree)
}

/// Whether a role could be held.
pub fn is_free<V: Division>(division: &V, held: &[bool; 64], asked: Option<u32>, role: u32) -> bool
    requires { role < 64 }
    ensures { result ≡ free_in (V.scan division.now).marks held.now asked role }
{
    !held[role as usize] && (division.left(role) > 0 || asked.is_some_and(|degree| role < degree))
}

/// The least role that could be held.
pub fn first_free<V: Division>(division: &V, held: &[bool; 64], asked: Option<u32>) -> Option<u32>
    ensures { IsFirstFree (V.scan division.now).marks held.now asked result }
{
    for role in 0u32..64 {
        if is_free(division, held, asked, role) {
            return Some(role);
        }
    }
    None
}
