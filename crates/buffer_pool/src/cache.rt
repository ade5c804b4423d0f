//! The pages used last.
ghost use Rattle.std.specs.Prelude.{◌≡◌, ◌<◌, [], None, Some, IfOk, IfErr, IfSome, OnOk, OnErr, MatchOption, MatchResult, nat_eq, option_map, vec_len};
ghost use Rattle.std.specs.Arc.{arc_value};
ghost use Rattle.std.specs.List.{All};
ghost use Rattle.std.specs.Map.{lookup};
ghost use Rattle.lru.specs.LruCache.{lru_cache};
ghost use Rattle.heap_page.specs.Pages.{head_fault};
ghost use Rattle.buffer_pool.specs.Lone.{IsEmptyCache};
ghost use Rattle.buffer_pool.specs.Used.{IsAnswer, IsBad, IsCachedBad, IsUsed};

use heap_page::{BadPage, FetchErr, FileKind, Page, check_head};
use lru::LruCache;
use std::alloc::{AllocError, Global};
use std::num::NonZeroUsize;
use std::sync::Arc;
use xp_outside::NoMemory;

/// Pages by their addresses on one drive.
pub(crate) type Cache = LruCache<u32, Arc<Page>>;

// A cache with room for so many pages.
pub(crate) fn new_cache(alloc: Global, frames: u32) -> Result<Cache, NoMemory>
    requires { 0 < frames }
    ensures { IfOk result (λ cache. cache ≡ lru_cache [] frames) }
{
    let Some(frames) = NonZeroUsize::new(frames as usize) else {
        unreachable!()
    };
    LruCache::new(alloc, frames)
}

// So many caches with so many frames each.
pub(crate) fn caches(alloc: Global, count: u32, frames: u32) -> Result<Vec<Cache>, NoMemory>
    requires { 0 < frames }
    ensures count { IfOk result (λ made. vec_len made ≡ count) }
    ensures empty { IfOk result (λ made. All (IsEmptyCache frames) made.items) }
{
    let mut made = Vec::new(alloc);
    for _number in 0..count {
        made.push(new_cache(alloc, frames)?)?;
    }
    Ok(made)
}

// The page that is cached at an address. The order stays.
fn look_up(cache: &Cache, address: u32) -> Result<Option<Arc<Page>>, AllocError>
    ensures { IfOk result (λ found. option_map arc_value found ≡ option_map arc_value (lookup (nat_eq address) cache.now.entries)) }
{
    match cache.peek(&address) {
        Some(page) => Ok(Some(Arc::try_clone(page)?)),
        None => Ok(None),
    }
}

// Tests whether this is the head of the page asked for.
fn accept(page: &Page, kind: FileKind, file: u32, number: u32) -> Result<(), FetchErr>
    ensures { MatchResult result (λ _. head_fault kind file number page.now ≡ None) (IsBad kind file number page.now) }
{
    match check_head(page.bytes(), kind, file, number) {
        Ok(()) => Ok(()),
        Err(rule) => Err(FetchErr::BadPage(BadPage {
            file,
            page: number,
            rule,
        })),
    }
}

// The page that is cached at an address, where it is the one asked for. It is then the one used last.
pub(crate) fn use_cached(
    cache: &mut Cache,
    kind: FileKind,
    file: u32,
    number: u32,
    address: u32,
) -> Result<Option<Arc<Page>>, FetchErr>
    ensures found { IfOk result (λ found. option_map arc_value found ≡ option_map arc_value (lookup (nat_eq address) cache.old.entries)) }
    ensures head { IfOk result (λ found. IfSome found (λ page. head_fault kind file number (arc_value page) ≡ None)) }
    ensures used { IfOk result (λ found. MatchOption found (cache.new ≡ cache.old) (λ page. IsUsed address (arc_value page) cache.old cache.new)) }
    ensures same { OnErr result (cache.new ≡ cache.old) }
    ensures err { IfErr result (IsCachedBad kind file number (lookup (nat_eq address) cache.old.entries)) }
{
    let Some(page) = look_up(cache, address)? else {
        return Ok(None);
    };
    accept(&page, kind, file, number)?;
    cache.promote(&address);
    Ok(Some(page))
}

// Keeps a page, which is then the one used last.
fn keep(alloc: Global, cache: &mut Cache, address: u32, page: Page) -> Result<Arc<Page>, AllocError>
    ensures value { IfOk result (λ kept. arc_value kept ≡ page) }
    ensures used { OnOk result (IsUsed address page cache.old cache.new) }
    ensures same { OnErr result (cache.new ≡ cache.old) }
{
    let page = Arc::new(alloc, page)?;
    cache.put(address, Arc::try_clone(&page)?)?;
    Ok(page)
}

// Keeps a page that was read, where it is the one asked for.
pub(crate) fn admit(
    alloc: Global,
    cache: &mut Cache,
    kind: FileKind,
    file: u32,
    number: u32,
    address: u32,
    page: Page,
) -> Result<Arc<Page>, FetchErr>
    ensures answer { IsAnswer kind file number page result }
    ensures used { OnOk result (IsUsed address page cache.old cache.new) }
    ensures same { OnErr result (cache.new ≡ cache.old) }
{
    accept(&page, kind, file, number)?;
    Ok(keep(alloc, cache, address, page)?)
}
