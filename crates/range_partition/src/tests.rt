ghost use Rattle.std.specs.Prelude.{◌≡◌, ◌<◌, ◌≤◌};

use crate::EntryIntervals;
use page_partition::{Division, PageStride, is_idle};
use std::process::Abort;
use std::test::Fail;

/// Deposits the first `count` positions that are left for the role.
fn deposit<V: Division>(rt: &impl Abort, division: &mut V, role: u32, count: u32)
    ensures { (V.scan division.new).room ≡ (V.scan division.old).room }
{
    assert!(rt; role < 64);
    assert!(rt; 1 <= count);
    assert!(rt; count <= 64);
    assert_eq!(rt; division.out(role).len(), 0);
    division.take_first(role, count);
    assert_eq!(rt; division.out(role).len(), count);
    division.give_back(role, count);
}

/// Divides to a degree where nothing is out.
fn divide<V: Division>(division: &mut V, degree: u32) -> Option<u32>
    requires low { 1 ≤ degree }
    requires high { degree ≤ 64 }
    requires room { 0 < (V.scan division.old).room }
{
    if !is_idle(division) {
        return None;
    }
    Some(division.divide(degree))
}

/// What each role claims, from role 0 on.
fn assert_claims<V: Division>(rt: &impl Abort, division: &mut V, claims: &[&[u32]]) {
    let mut role = 0;
    for places in claims {
        assert!(rt; role < 64);
        assert_eq!(rt; division.left(role) as usize, places.len());
        assert_eq!(rt; division.out(role).len(), 0);
        let batch = division.take_first(role, 64);
        assert_eq!(rt; batch.positions(), *places, "role {role}");
        role += 1;
    }
}

#[test]
fn pages_below_the_cut_keep_their_owners(rt: HostRuntime) -> Result<(), Fail> {
    let mut division = PageStride::start(rt.alloc(), 20, 2, 1)?;
    deposit(&rt, &mut division, 0, 3);
    deposit(&rt, &mut division, 1, 4);
    assert_eq!(rt; divide(&mut division, 3), Some(8));
    let claims: [&[u32]; 4] = [
        &[6, 9, 12, 15, 18],
        &[10, 13, 16, 19],
        &[8, 11, 14, 17],
        &[],
    ];
    assert_claims(&rt, &mut division, &claims);

    let mut division = PageStride::start(rt.alloc(), 12, 5, 1)?;
    deposit(&rt, &mut division, 0, 3);
    assert_eq!(rt; divide(&mut division, 1), Some(11));
    let claims: [&[u32]; 6] = [&[11], &[1, 6], &[2, 7], &[3, 8], &[4, 9], &[]];
    assert_claims(&rt, &mut division, &claims);
    Ok(())
}

#[test]
fn entries_are_shared_evenly(rt: HostRuntime) -> Result<(), Fail> {
    let mut division = EntryIntervals::start(rt.alloc(), 10, 2, 1)?;
    deposit(&rt, &mut division, 0, 2);
    deposit(&rt, &mut division, 1, 1);
    assert_eq!(rt; divide(&mut division, 3), Some(7));
    let claims: [&[u32]; 4] = [&[2, 3], &[4, 6], &[7, 8, 9], &[]];
    assert_claims(&rt, &mut division, &claims);
    Ok(())
}
