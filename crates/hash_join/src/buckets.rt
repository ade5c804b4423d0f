//! The places of rows by the hashes of their keys.
ghost use Rattle.std.specs.Prelude.{◌≡◌, ◌<◌, ◌≤◌, ◌+◌, ◌-◌, ◌^◌, filter, map, IfOk, OnOk, length, slice_index};
ghost use Rattle.std.specs.List.{AllWithin};
ghost use Rattle.std.specs.List.Sorted.{IsNonDecreasing, IsPartitionPoint};
ghost use Rattle.hash_join.specs.Found.{AreFound, AreStarts, IsRange};
ghost use Rattle.hash_join.specs.Hash.{bucket_of};
ghost use Rattle.hash_join.specs.Making.{AreOrdered, IsSorting, entry_of, goes_first, has_less_hash, places_in_order};
ghost use Rattle.hash_join.specs.Table.{Table, has_key, key_of, places};

use crate::RowPlace;
use crate::hash::{bucket_of, hash_in, hash_key};
use crate::index::{all_places, run_for, run_with};
use crate::key::{keys_order, row_at};
use rows::{Rows, Value};
use std::alloc::{AllocError, Global};
use std::cmp::Ordering;
use std::sync::Arc;

/// The places of rows, by the hashes of their keys and by their keys where the hashes are equal.
#[derive(Drop)]
pub(crate) struct Buckets {
    // The places of rows with equal keys stand together, in order.
    pub(crate) places: Vec<RowPlace>,
    // The hash of the key of each of these rows, where there are key columns.
    pub(crate) hashes: Vec<u64>,
    // Where the hashes of each bucket begin, and behind them their end.
    pub(crate) starts: Vec<u32>,
}

// The place of a row, and the hash of its key.
#[derive(Clone, Copy)]
pub(crate) struct Entry {
    hash: u64,
    at: RowPlace,
}

// Places with the hashes of the keys of their rows.
fn hashed(
    alloc: Global,
    parts: &[Arc<Rows>],
    columns: &[usize],
    places: &[RowPlace],
) -> Result<Vec<Entry>, AllocError>
    ensures { IfOk result (λ entries. entries.items ≡ map (entry_of (record { lists = map (λ x. x.value) parts.now; columns = columns.now })) places.now) }
{
    let mut entries = Vec::with_capacity(alloc, places.len())?;
    for at in places {
        let hash = hash_in(row_at(parts, *at), columns);
        entries.push(Entry { hash, at: *at })?;
    }
    Ok(entries)
}

// Puts entries in the order of their hashes, and leaves those of one hash as they stand.
fn order_by_hash(entries: &mut Vec<Entry>) -> Result<(), AllocError>
    ensures { OnOk result (IsSorting has_less_hash entries.old.items entries.new.items) }
{
    entries.sort_by(|a, b| a.hash.cmp(&b.hash))?;
    Ok(())
}

// Puts entries in the order of their hashes, and then of the keys of their rows, and leaves those of equal keys as they
// stand.
fn order_by_key(
    entries: &mut Vec<Entry>,
    parts: &[Arc<Rows>],
    columns: &[usize],
) -> Result<(), AllocError>
    ensures { OnOk result (IsSorting (goes_first (record { lists = map (λ x. x.value) parts.now; columns = columns.now })) entries.old.items entries.new.items) }
{
    entries.sort_by(|a, b| match a.hash.cmp(&b.hash) {
        Ordering::Equal => keys_order(row_at(parts, a.at), row_at(parts, b.at), columns),
        order => order,
    })?;
    Ok(())
}

// Entries of all places, by their hashes and then by the keys of their rows. Nearly all of the order comes from the
// hashes, so that rows are compared only side by side.
fn ordered(
    alloc: Global,
    parts: &[Arc<Rows>],
    columns: &[usize],
    places: &[RowPlace],
) -> Result<Vec<Entry>, AllocError>
    ensures { IfOk result (λ entries. AreOrdered (record { lists = map (λ x. x.value) parts.now; columns = columns.now }) places.now entries.items) }
{
    let mut entries = hashed(alloc, parts, columns, places)?;
    order_by_hash(&mut entries)?;
    order_by_key(&mut entries, parts, columns)?;
    Ok(entries)
}

// How many of some hashes in order come before a bucket.
fn count_before(hashes: &[u64], number: usize, count: usize) -> usize
    requires { count < 2 ^ 32 }
    ensures within { result ≤ length hashes.now }
    ensures before { AllWithin (λ hash. bucket_of count hash < number) hashes.now 0 result }
    ensures next { result < length hashes.now → number ≤ bucket_of count (slice_index hashes.now result) }
{
    for (place, hash) in hashes.iter().enumerate() {
        if bucket_of(*hash, count) >= number {
            return place;
        }
    }
    hashes.len()
}

// Where a bucket begins, from a place on before which there are only hashes of earlier buckets.
fn next_start(hashes: &[u64], place: usize, number: usize, count: usize) -> usize
    requires few { count < 2 ^ 32 }
    requires rising { IsNonDecreasing hashes.now }
    requires within { place ≤ length hashes.now }
    requires passed { AllWithin (λ hash. bucket_of count hash < number) hashes.now 0 place }
    ensures within { result ≤ length hashes.now }
    ensures parted { IsPartitionPoint (λ hash. bucket_of count hash < number) (λ hash. number ≤ bucket_of count hash) hashes.now result }
{
    place + count_before(&hashes[place..], number, count)
}

// Where each of so many buckets begins, and behind them their end. An error is want of memory, or that there are 2^32 hashes.
fn starts_of(alloc: Global, hashes: &[u64], count: usize) -> Result<Vec<u32>, AllocError>
    requires some { 0 < count }
    requires few { count < 2 ^ 32 }
    requires rising { IsNonDecreasing hashes.now }
    ensures { IfOk result (λ starts. AreStarts hashes.now starts.items) }
{
    let mut starts = Vec::with_capacity(alloc, count + 1)?;
    let mut place = 0;
    for number in 0..count + 1 {
        place = next_start(hashes, place, number, count);
        let Ok(start) = u32::try_from(place) else {
            return Err(AllocError);
        };
        starts.push(start)?;
    }
    Ok(starts)
}

// How many buckets are made for some places: one for four, whose hashes lie side by side.
fn bucket_count(places: &[RowPlace]) -> usize
    ensures some { 0 < result }
    ensures few { result < 2 ^ 32 }
{
    (places.len() / 4).clamp(1, u32::MAX as usize)
}

// The places of entries.
fn places_of_entries(alloc: Global, entries: &[Entry]) -> Result<Vec<RowPlace>, AllocError>
    ensures { IfOk result (λ places. places.items ≡ places_in_order entries.now) }
{
    entries.iter().map(|entry| entry.at).collect(alloc)
}

// The hashes of entries.
fn hashes_of_entries(alloc: Global, entries: &[Entry]) -> Result<Vec<u64>, AllocError>
    ensures { IfOk result (λ hashes. hashes.items ≡ map (λ entry. entry.hash) entries.now) }
{
    entries.iter().map(|entry| entry.hash).collect(alloc)
}

// The places and the hashes of entries in order, and where the hashes of each bucket begin.
fn parted(alloc: Global, entries: &[Entry], count: usize) -> Result<Buckets, AllocError>
    requires some { 0 < count }
    requires few { count < 2 ^ 32 }
    requires rising { IsNonDecreasing (map (λ entry. entry.hash) entries.now) }
    ensures places { IfOk result (λ buckets. buckets.places.items ≡ places_in_order entries.now) }
    ensures hashes { IfOk result (λ buckets. buckets.hashes.items ≡ map (λ entry. entry.hash) entries.now) }
    ensures starts { IfOk result (λ buckets. AreStarts buckets.hashes.items buckets.starts.items) }
{
    let places = places_of_entries(alloc, entries)?;
    let hashes = hashes_of_entries(alloc, entries)?;
    let starts = starts_of(alloc, hashes.as_slice(), count)?;
    Ok(Buckets {
        places,
        hashes,
        starts,
    })
}

// All places, where there are no key columns.
fn one_bucket(alloc: Global, places: Vec<RowPlace>) -> Buckets
    ensures { result.places.items ≡ places.items }
{
    Buckets {
        places,
        hashes: Vec::new(alloc),
        starts: Vec::new(alloc),
    }
}

// All places, by the hashes of their keys.
fn many_buckets(
    alloc: Global,
    parts: &[Arc<Rows>],
    columns: &[usize],
    index: &[RowPlace],
) -> Result<Buckets, AllocError>
    requires { index.now ≡ places (map (λ x. x.value) parts.now) }
    ensures { IfOk result (λ buckets. AreFound (record { lists = map (λ x. x.value) parts.now; columns = columns.now }) buckets.places.items buckets.hashes.items buckets.starts.items) }
{
    let entries = ordered(alloc, parts, columns, index)?;
    parted(alloc, entries.as_slice(), bucket_count(index))
}

/// The places of all rows, to be found by their keys.
pub(crate) fn buckets_of(
    alloc: Global,
    parts: &[Arc<Rows>],
    columns: &[usize],
) -> Result<Buckets, AllocError>
    ensures { IfOk result (λ buckets. AreFound (record { lists = map (λ x. x.value) parts.now; columns = columns.now }) buckets.places.items buckets.hashes.items buckets.starts.items) }
{
    let places = all_places(alloc, parts)?;
    if columns.is_empty() {
        return Ok(one_bucket(alloc, places));
    }
    many_buckets(alloc, parts, columns, places.as_slice())
}

// Where the bucket of a hash begins and where it ends.
fn bucket_range(hashes: &[u64], starts: &[u32], hash: u64) -> (usize, usize)
    requires { AreStarts hashes.now starts.now }
    ensures number { bucket_of (length starts.now - 1) hash + 1 < length starts.now }
    ensures begin { result.0 ≡ slice_index starts.now (bucket_of (length starts.now - 1) hash) }
    ensures end { result.1 ≡ slice_index starts.now (bucket_of (length starts.now - 1) hash + 1) }
    ensures order { result.0 ≤ result.1 }
    ensures within { result.1 ≤ length hashes.now }
{
    let number = bucket_of(hash, starts.len() - 1);
    (starts[number] as usize, starts[number + 1] as usize)
}

// Where the hashes that equal one begin, and where they end.
fn hash_range(hashes: &[u64], starts: &[u32], hash: u64) -> (usize, usize)
    requires starts { AreStarts hashes.now starts.now }
    requires rising { IsNonDecreasing hashes.now }
    ensures { IsRange hashes.now hash result.0 result.1 }
{
    let (begin, end) = bucket_range(hashes, starts, hash);
    let bucket = &hashes[begin..end];
    let from = bucket.partition_point(|other| other.cmp(&hash).is_lt());
    let to = bucket.partition_point(|other| other.cmp(&hash).is_le());
    (begin + from, begin + to)
}

// The places, in order, of the rows with a key.
pub(crate) fn places_with<'a>(
    parts: &[Arc<Rows>],
    columns: &[usize],
    buckets: &'a Buckets,
    key: &[Value],
) -> &'a [RowPlace]
    requires { AreFound (record { lists = map (λ x. x.value) parts.now; columns = columns.now }) buckets.now.places.items buckets.now.hashes.items buckets.now.starts.items }
    ensures { let table : Table = record { lists = map (λ x. x.value) parts.now; columns = columns.now } in result.now ≡ filter (has_key table key.now) (places table.lists) }
{
    if columns.is_empty() {
        return run_with(parts, columns, buckets.places.as_slice(), key);
    }
    let (from, to) = hash_range(
        buckets.hashes.as_slice(),
        buckets.starts.as_slice(),
        hash_key(key),
    );
    run_with(parts, columns, &buckets.places[from..to], key)
}

// The places, in order, of the rows with another row's values in columns.
pub(crate) fn places_for<'a>(
    parts: &[Arc<Rows>],
    columns: &[usize],
    buckets: &'a Buckets,
    row: &[Value],
    others: &[usize],
) -> &'a [RowPlace]
    requires { AreFound (record { lists = map (λ x. x.value) parts.now; columns = columns.now }) buckets.now.places.items buckets.now.hashes.items buckets.now.starts.items }
    ensures { let table : Table = record { lists = map (λ x. x.value) parts.now; columns = columns.now } in result.now ≡ filter (has_key table (key_of others.now row.now)) (places table.lists) }
{
    if columns.is_empty() {
        return run_for(parts, columns, buckets.places.as_slice(), row, others);
    }
    let hash = hash_in(row, others);
    let (from, to) = hash_range(buckets.hashes.as_slice(), buckets.starts.as_slice(), hash);
    run_for(parts, columns, &buckets.places[from..to], row, others)
}
