//! The search in one page.
ghost use Rattle.std.specs.Prelude.{◌≡◌, ◌<◌, ◌^◌, drop, length, MatchResult, Some};
ghost use Rattle.key_index.specs.Aims.{Scans};
ghost use Rattle.key_index.specs.Readings.{page_fault};

use crate::aim::Aim;
use crate::fixed::scan_fixed;
use crate::page_entry::Step;
use crate::reading::{is_counted, read_entry};
use heap_page::{are_zeros, read_short};
use rows::ColType;

// The bytes behind the head.
fn behind_head(bytes: &[u8]) -> &[u8]
    requires { length bytes.now ≡ 8192 }
    ensures { result.now ≡ drop 20 bytes.now }
{
    bytes.split_at(20).1
}

// Counts the entries of a page by looking at each of them.
fn scan_each<'a>(
    bytes: &'a [u8],
    key_type: ColType,
    level: u32,
    start: u64,
    aim: Aim<'_>,
) -> Result<Step<'a>, u32>
    requires whole { length bytes.now ≡ 8192 }
    requires start { start < 2 ^ 32 }
    ensures { MatchResult result (λ step. Scans key_type level start aim.entry bytes.now step) (λ rule. page_fault key_type level start bytes.now ≡ Some rule) }
{
    if u32::from(read_short(bytes, 16)) != level {
        return Err(6);
    }
    let len = read_short(bytes, 6);
    if len == 0 {
        return Err(7);
    }
    let mut rest = behind_head(bytes);
    let Some((mut entry, _)) = read_entry(rest, key_type, level, start) else {
        return Err(7);
    };
    let mut count = 0u32;
    for place in 0..len {
        let Some((next, behind)) = read_entry(rest, key_type, level, start + u64::from(place))
        else {
            return Err(7);
        };
        if is_counted(aim, &next) {
            count += 1;
            entry = next;
        }
        rest = behind;
    }
    if !are_zeros(rest) {
        return Err(8);
    }
    Ok(Step { count, entry })
}

// Counts the entries of a page, or tells the first rule that it breaks behind its head: 6 the level is the one expected,
// 7 there is an entry, and all are there in whole, each key of the key's type, 8 the rest is zero. Entries of one length
// are found by their place, where any bytes of a key are one of its type.
pub(crate) fn scan_page<'a>(
    bytes: &'a [u8],
    key_type: ColType,
    level: u32,
    start: u64,
    aim: Aim<'_>,
) -> Result<Step<'a>, u32>
    requires whole { length bytes.now ≡ 8192 }
    requires start { start < 2 ^ 32 }
    ensures { MatchResult result (λ step. Scans key_type level start aim.entry bytes.now step) (λ rule. page_fault key_type level start bytes.now ≡ Some rule) }
{
    match key_type {
        ColType::Int4 => scan_fixed(bytes, level, start, aim),
        ColType::Text | ColType::Bool => scan_each(bytes, key_type, level, start, aim),
    }
}
