ghost use Rattle.std.specs.Prelude.{◌≡◌, ◌<◌, [], ◌∷◌, ◌++◌, IfOk, map, ℕ};
ghost use Rattle.std.specs.List.{AllZip};
ghost use Rattle.plan_tree.specs.Pieces.{piece_of};
ghost use Rattle.pipeline.specs.KeptValues.{IsShapedValue};
ghost use Rattle.pipeline.specs.SamplePieces.{AreCollected, IsReady, IsSampleTable};

use crate::sample_pages::{PageLists, long_entries, written};
use crate::samples::{INDEX, chain, heap_scan, index_scan, ready_build, ready_counts};
use crate::{end_value, meets, run_position};
use hash_join::{Built, Inputs, Parts};
use heap_page::{BadPage, FetchErr, Page};
use plan_tree::Fragment;
use rows::{Row, Rows, Value};
use std::alloc::{AllocError, Global};
use std::sync::Arc;
use std::test::Fail;

// The names x, y and z, with the marks 1 and 2, null and 2, 3 and null.
const X: &[u8] = b"\x00\x00\x01x\x00\x00\x00\x01\x00\x00\x00\x02";

const Y: &[u8] = b"\x01\x00\x01y\x00\x00\x00\x02";

const Z: &[u8] = b"\x02\x00\x01z\x00\x00\x00\x03";

// A page of the heap file, with up to two items.
fn heap_page(alloc: Global, number: u32, items: &[&[u8]]) -> Result<Vec<u8>, AllocError> {
    let mut page = Page::empty(alloc, 0, number)?;
    for item in items {
        page.push(item);
    }
    Vec::from_slice(alloc, page.bytes())
}

// The rows on two pages.
fn three_rows(alloc: Global) -> Result<PageLists, AllocError> {
    let first = heap_page(alloc, 0, &[X, Y])?;
    let second = heap_page(alloc, 1, &[Z])?;
    Ok(PageLists {
        heap: vec![in alloc; first, second]?,
        index: Vec::new(alloc),
        index_pages: 0,
    })
}

// These rows behind the others.
fn with_rows(alloc: Global, mut parts: Parts, rows: Rows) -> Result<Parts, AllocError>
    ensures { IfOk result (λ made. made ≡ parts ++ rows ∷ []) }
{
    let rows = Arc::new(alloc, rows)?;
    match parts.push(rows) {
        Ok(()) => Ok(parts),
        Err(_) => Err(AllocError),
    }
}

// What one position gives, behind what earlier ones gave.
fn with_position(
    alloc: Global,
    fragment: &Fragment,
    position: u32,
    inputs: &Inputs,
    pages: &mut PageLists,
    parts: Parts,
) -> Result<Parts, FetchErr>
    requires ready { IsReady (piece_of fragment.now) pages.old.index_pages (map (λ x. x.value) inputs.now) }
    requires position { position < fragment.now.positions }
    requires parts { AreCollected (piece_of fragment.now) parts }
    ensures whole { pages.new.index_pages ≡ pages.old.index_pages }
    ensures collected { IfOk result (AreCollected (piece_of fragment.now)) }
{
    let rows = run_position(alloc, fragment, position, inputs, pages)?;
    let made = with_rows(alloc, parts, rows)?;
    Ok(made)
}

// What all positions give.
#[tactic(auto, using(crate::proofs::SampleRuns::collected_none))]
fn all_parts(
    alloc: Global,
    fragment: &Fragment,
    inputs: &Inputs,
    pages: &mut PageLists,
) -> Result<Parts, FetchErr>
    requires ready { IsReady (piece_of fragment.now) pages.old.index_pages (map (λ x. x.value) inputs.now) }
    ensures whole { pages.new.index_pages ≡ pages.old.index_pages }
    ensures collected { IfOk result (AreCollected (piece_of fragment.now)) }
{
    let mut parts = Parts::new(alloc);
    for position in 0..fragment.positions {
        parts = with_position(alloc, fragment, position, inputs, pages, parts)?;
    }
    Ok(parts)
}

// What all positions of a fragment give, as its end keeps it.
#[tactic(auto, using(crate::proofs::SampleRuns::shaped_value))]
fn value_of(
    alloc: Global,
    fragment: &Fragment,
    inputs: &Inputs,
    pages: &mut PageLists,
) -> Result<Built, FetchErr>
    requires ready { IsReady (piece_of fragment.now) pages.old.index_pages (map (λ x. x.value) inputs.now) }
    ensures whole { pages.new.index_pages ≡ pages.old.index_pages }
    ensures kept { IfOk result (IsShapedValue (piece_of fragment.now)) }
{
    let parts = all_parts(alloc, fragment, inputs, pages)?;
    Ok(end_value(alloc, fragment, parts)?)
}

// Adds the values of a row, with a comma behind each and a semicolon behind the last.
fn spell(alloc: Global, out: &mut Vec<u8>, row: &Row) -> Result<(), AllocError> {
    for value in row.items() {
        match value {
            Value::Null => out.push(b'-')?,
            Value::Number(number) => {
                let text = format!(in alloc; "{number}")?;
                out.extend_from_slice(text.as_bytes())?;
            }
            Value::Word(text) => out.extend_from_slice(text.items())?,
            Value::Truth(truth) => out.push(if *truth { b't' } else { b'f' })?,
        }
        out.push(b',')?;
    }
    out.push(b';')?;
    Ok(())
}

// The rows that are kept without keys.
fn spelled(alloc: Global, built: &Built) -> Result<Vec<u8>, AllocError> {
    let mut out = Vec::new(alloc);
    for at in built.matches(&Row::new(alloc)) {
        spell(alloc, &mut out, built.row(*at))?;
    }
    Ok(out)
}

// The table of a variable, by its first integer.
fn table_of(alloc: Global, var: u32, pages: &mut PageLists) -> Result<Arc<Built>, FetchErr>
    ensures whole { pages.new.index_pages ≡ pages.old.index_pages }
    ensures table { IfOk result (λ table. IsSampleTable var table.value) }
{
    let build = ready_build(alloc, var)?;
    let table = value_of(alloc, &build, &Inputs::new(alloc), pages)?;
    Ok(Arc::new(alloc, table)?)
}

fn one_table(alloc: Global, pages: &mut PageLists) -> Result<Inputs, FetchErr>
    ensures { IfOk result (λ inputs. AllZip IsSampleTable (1 ∷ []) (map (λ x. x.value) inputs)) }
{
    let first = table_of(alloc, 1, pages)?;
    Ok(Inputs::from_vec(vec![in alloc; first]?))
}

fn five_tables(alloc: Global, pages: &mut PageLists) -> Result<Inputs, FetchErr>
    ensures { IfOk result (λ inputs. AllZip IsSampleTable (1 ∷ 2 ∷ 3 ∷ 4 ∷ 5 ∷ []) (map (λ x. x.value) inputs)) }
{
    let first = table_of(alloc, 1, pages)?;
    let second = table_of(alloc, 2, pages)?;
    let third = table_of(alloc, 3, pages)?;
    let fourth = table_of(alloc, 4, pages)?;
    let fifth = table_of(alloc, 5, pages)?;
    Ok(Inputs::from_vec(vec![in alloc; first, second, third, fourth, fifth]?))
}

// The answer of a fragment with one probe.
fn pair_answer(alloc: Global, pages: &mut PageLists) -> Result<Built, FetchErr> {
    let tables = one_table(alloc, pages)?;
    let pair = chain(alloc, &[0, 1], &[0])?;
    value_of(alloc, &pair, &tables, pages)
}

// The answer of a fragment with five probes.
fn long_answer(alloc: Global, pages: &mut PageLists) -> Result<Built, FetchErr> {
    let tables = five_tables(alloc, pages)?;
    let long = chain(alloc, &[0, 1, 2, 3, 4, 5], &[0, 1, 2, 3, 4])?;
    value_of(alloc, &long, &tables, pages)
}

#[test]
fn a_null_key_matches_nothing(rt: HostRuntime) -> Result<(), Fail> {
    let alloc = rt.alloc();
    let mut pages = three_rows(alloc)?;
    let Ok(answer) = pair_answer(alloc, &mut pages) else {
        return Err(Fail::from("no answer"));
    };
    assert_eq!(rt;
        spelled(alloc, &answer)?.as_slice(),
        b"x,x,;z,z,;".as_slice()
    );
    let Ok(answer) = long_answer(alloc, &mut pages) else {
        return Err(Fail::from("no long answer"));
    };
    let long = b"x,x,x,x,x,x,;z,z,z,z,z,z,;";
    assert_eq!(rt; spelled(alloc, &answer)?.as_slice(), long.as_slice());
    Ok(())
}

// The rows that a position gives.
fn position_text(
    alloc: Global,
    fragment: &Fragment,
    position: u32,
    pages: &mut PageLists,
) -> Result<Vec<u8>, FetchErr>
    requires ready { IsReady (piece_of fragment.now) pages.old.index_pages [] }
    requires position { position < fragment.now.positions }
    ensures { pages.new.index_pages ≡ pages.old.index_pages }
{
    let rows = run_position(alloc, fragment, position, &Inputs::new(alloc), pages)?;
    let mut out = Vec::new(alloc);
    for row in rows.items() {
        spell(alloc, &mut out, row)?;
    }
    Ok(out)
}

#[test]
fn the_positions_of_a_scan_become_its_answer(rt: HostRuntime) -> Result<(), Fail> {
    let alloc = rt.alloc();
    let mut pages = three_rows(alloc)?;
    let scan = heap_scan(alloc)?;
    let table = value_of(alloc, &scan, &Inputs::new(alloc), &mut pages);
    let Ok(table) = table else {
        return Err(Fail::from("no answer"));
    };
    assert_eq!(rt; spelled(alloc, &table)?.as_slice(), b"x,;".as_slice());
    assert_eq!(rt; meets(&scan, X), Some(true));
    assert_eq!(rt; meets(&scan, Z), Some(false));
    assert_eq!(rt; meets(&scan, X.split_at(X.len() - 1).0), None);
    Ok(())
}

#[test]
fn the_rows_of_groups_are_counted(rt: HostRuntime) -> Result<(), Fail> {
    let alloc = rt.alloc();
    let mut pages = three_rows(alloc)?;
    let counts = ready_counts(alloc)?;
    let table = value_of(alloc, &counts, &Inputs::new(alloc), &mut pages);
    let Ok(table) = table else {
        return Err(Fail::from("no groups"));
    };
    assert_eq!(rt;
        spelled(alloc, &table)?.as_slice(),
        b"-,1,1,;2,2,2,;".as_slice()
    );
    Ok(())
}

// Changes one byte of a page.
fn change(pages: &mut Vec<Vec<u8>>, page: usize, at: usize, mask: u8) {
    if let Some(bytes) = pages.get_mut(page) {
        if at < bytes.len() {
            bytes[at] ^= mask;
        }
    }
}

fn bad(file: u32, page: u32, rule: u32) -> Result<Vec<u8>, FetchErr> {
    Err(FetchErr::BadPage(BadPage { file, page, rule }))
}

// Where a byte of the second heap page is, the bits that are changed, and the rule that the page then breaks.
const BROKEN: &[u8] = b"\x00\x00\x01\x01\x00\x05\x01\x02\x00\x12\x01\x03\
    \x00\x0b\x01\x04\x00\x0f\x02\x05\x00\x10\x80\x06\
    \x00\x11\x01\x07\x00\x20\x01\x08\x1f\xf8\x04\x09";

// What the second page gives, while these bits of a byte are changed.
fn changed_text(
    alloc: Global,
    scan: &Fragment,
    pages: &mut PageLists,
    at: usize,
    mask: u8,
) -> Result<Vec<u8>, FetchErr>
    requires ready { (n : ℕ) → IsReady (piece_of scan.now) n [] }
    requires positions { scan.now.positions ≡ 2 }
{
    change(&mut pages.heap, 1, at, mask);
    let found = position_text(alloc, scan, 1, pages);
    change(&mut pages.heap, 1, at, mask);
    found
}

#[test]
fn a_heap_scan_names_the_first_broken_rule(rt: HostRuntime) -> Result<(), Fail> {
    let alloc = rt.alloc();
    let mut pages = three_rows(alloc)?;
    let scan = heap_scan(alloc)?;
    for row in BROKEN.chunks(4) {
        if let [high, low, mask, rule] = row {
            let at = usize::from(*high) * 256 + usize::from(*low);
            let found = changed_text(alloc, &scan, &mut pages, at, *mask);
            assert_eq!(rt; found, bad(0, 1, u32::from(*rule)), "rule {rule}");
        }
    }
    Ok(())
}

// The three rows, with an index whose last entry leads to a slot that isn't there.
fn indexed_rows(alloc: Global) -> Result<PageLists, AllocError>
    ensures { IfOk result (λ pages. pages.index_pages ≡ 3) }
{
    let places = [(0, 0), (0, 1), (1, 0), (0, 0), (1, 0), (1, 1)];
    let entries = long_entries(alloc, &places)?;
    let mut pages = three_rows(alloc)?;
    pages.index_pages = 3;
    if let Some(index) = written(alloc, &entries, &INDEX)? {
        pages.index = index;
    }
    Ok(pages)
}

#[test]
fn an_index_scan_gives_the_row_of_each_entry(rt: HostRuntime) -> Result<(), Fail> {
    let alloc = rt.alloc();
    let mut pages = indexed_rows(alloc)?;
    let scan = index_scan(alloc)?;
    assert!(rt; position_text(alloc, &scan, 0, &mut pages) == Ok(Vec::from_slice(alloc, b"x,;")?));
    assert!(rt; position_text(alloc, &scan, 4, &mut pages) == Ok(Vec::new(alloc)));
    assert!(rt; position_text(alloc, &scan, 5, &mut pages) == bad(0, 1, 9));
    Ok(())
}
