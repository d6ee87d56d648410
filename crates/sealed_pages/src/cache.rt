// Full pages of a blob that are held in memory, of which there is a bounded number.
ghost use Rattle.std.specs.Prelude.{◌≡◌, ◌+◌, ◌≤◌, ◌<◌, ◌^◌, ◌/◌, ◌++◌, ◌∷◌, [], ◌↔◌, true, nat_eq, length, take, slice_index, option_map, Some, IfSome, IfOk, ℕ, List};
ghost use Rattle.std.specs.List.{list_any};
ghost use Rattle.std.specs.Map.{lookup, keys_of};
ghost use Rattle.std.specs.NonZero.{non_zero_usize_get};
ghost use Rattle.std.specs.Option.{ForSome};

use lru::LruCache;
use std::alloc::{AllocError, Global};
use std::num::NonZeroUsize;

/// The full pages that were flushed last, by number.
#[derive(Drop)]
pub struct PageCache {
    /// How many pages are held at most; none where it is 0.
    most: u32,
    /// Their data bytes, without slots. The map is made with the first page (`held_in`).
    pages: Option<LruCache<u64, Vec<u8>>>,
    // No more are held than that.
    ghost bound: { ForSome pages (λ m. (m.cap ≡ most) × (length m.entries ≤ most)) },
}

impl PageCache {
    ghost use Rattle.sealed_pages.specs.Cached.{entries_of, held_in, full_pages, AreFull, AreWhole, AreCachedOf, PutsFull, IsAmong};
    ghost use Rattle.sealed_pages.specs.Reads.{IsWanted};
    ghost use Rattle.sealed_pages.specs.SealedPrefix.{place};
    ghost use Rattle.sealed_pages.specs.View.{view, page_at};

    /// No page, and room for so many.
    pub fn new(most: u32) -> PageCache
        ensures most { result.most ≡ most }
        ensures empty { held_in result ≡ [] }
    {
        PageCache { most, pages: None }
    }

    /// How many pages are held at most.
    pub fn most(&self) -> u32
        ensures { result ≡ self.now.most }
    {
        self.most
    }

    /// The data bytes of a page, if it is held.
    pub fn page(&self, page: u64) -> Option<&[u8]>
        ensures { option_map (λ b. b.now) result ≡ lookup (nat_eq page) (held_in self.now) }
    {
        match &self.pages {
            None => None,
            Some(pages) => match pages.peek(&page) {
                None => None,
                Some(bytes) => Some(bytes.as_slice()),
            },
        }
    }

    /// Whether a page is held.
    pub fn has(&self, page: u64) -> bool
        ensures { result ≡ list_any (nat_eq page) (keys_of (held_in self.now)) }
    {
        self.page(page).is_some()
    }

    /// Copies bytes of a page that is held, from its byte `skip` on.
    pub fn copy_part(&self, page_size: u16, page: u64, skip: usize, out: &mut [u8])
        requires whole { AreWhole page_size (held_in self.now) }
        requires held { IsAmong page (held_in self.now) }
        requires part { skip + length out.old ≤ page_size }
        ensures { (seal : List ℕ → ℕ) (c : List ℕ) → AreCachedOf seal page_size c (held_in self.now)
            → (i : ℕ) → i < length out.old
            → slice_index out.new i ≡ view c (page_at page_size page + (skip + i)) }
    {
        match self.page(page) {
            None => {}
            Some(bytes) => {
                let upto = skip + out.len();
                out.copy_from_slice(&bytes[skip..upto]);
            }
        }
    }

    /// Whether all pages from `page` on are held, up to the page `upto`.
    pub fn has_all(&self, page: u64, upto: u64) -> bool
        ensures { (result ≡ true) ↔ ((k : ℕ) → page ≤ k → k < upto → IsAmong k (held_in self.now)) }
    {
        let mut at = page;
        'pages: while at < upto {
            if !self.has(at) {
                return false;
            }
            at += 1;
        }
        true
    }

    /// Copies the bytes from `offset` on out of the pages, all of which are held.
    pub fn copy_out(&self, page_size: u16, offset: u64, out: &mut [u8])
        requires some { 1 ≤ page_size }
        requires whole { AreWhole page_size (held_in self.now) }
        requires fits { offset + length out.old < 2 ^ 64 }
        requires held { (k : ℕ) → IsWanted page_size offset (length out.old) k
            → IsAmong k (held_in self.now) }
        ensures { (seal : List ℕ → ℕ) (c : List ℕ) → AreCachedOf seal page_size c (held_in self.now)
            → (i : ℕ) → i < length out.old
            → slice_index out.new i ≡ view c (place page_size (offset + i)) }
    {
        let size = usize::from(page_size);
        let mut page = offset / u64::from(page_size);
        let mut skip = (offset % u64::from(page_size)) as usize;
        let mut at = 0;
        'pages: while at < out.len() {
            let n = (out.len() - at).min(size - skip);
            self.copy_part(page_size, page, skip, &mut out[at..at + n]);
            at += n;
            skip = 0;
            page += 1;
        }
    }

    // The map of these pages, which is made where there is none.
    fn map_of(
        pages: Option<LruCache<u64, Vec<u8>>>,
        alloc: Global,
        cap: NonZeroUsize,
    ) -> Result<LruCache<u64, Vec<u8>>, AllocError>
        requires { ForSome pages (λ m. m.cap ≡ non_zero_usize_get cap) }
        ensures pages { IfOk result (λ m. entries_of (Some m) ≡ entries_of pages) }
        ensures cap { IfOk result (λ m. m.cap ≡ non_zero_usize_get cap) }
    {
        match pages {
            Some(pages) => Ok(pages),
            // Sparse, since the bound may be far greater than what is ever held.
            None => LruCache::sparse(alloc, cap),
        }
    }

    // Puts a page in front of the others. Where there are too many then, the last one goes.
    fn put(self, alloc: Global, page: u64, bytes: &[u8]) -> Result<PageCache, AllocError>
        requires { AreFull (length bytes.now) page (held_in self) }
        ensures most { IfOk result (λ r. r.most ≡ self.most) }
        ensures pages { IfOk result (λ r. held_in r ≡ take self.most ((page, bytes.now) ∷ held_in self)) }
    {
        let PageCache { most, pages } = self;
        let Some(cap) = NonZeroUsize::new(most as usize) else {
            return Ok(PageCache::new(0));
        };
        let copy = bytes.to_vec(alloc)?;
        let mut pages = PageCache::map_of(pages, alloc, cap)?;
        match pages.put(page, copy) {
            Ok(_) => Ok(PageCache {
                most,
                pages: Some(pages),
            }),
            Err(_) => Err(AllocError),
        }
    }

    // Puts the full pages with which these bytes begin, in their order. The first of them is page `first`.
    fn put_each(
        self,
        alloc: Global,
        page_size: u16,
        first: u64,
        bytes: &[u8],
    ) -> Result<PageCache, AllocError>
        requires some { 1 ≤ page_size }
        requires before { AreFull page_size first (held_in self) }
        requires fits { first + length bytes.now / page_size < 2 ^ 64 }
        ensures { IfOk result (PutsFull page_size first bytes.now self) }
    {
        let size = usize::from(page_size);
        let full = bytes.len() / size;
        let mut this = self;
        let mut i = 0;
        'pages: while i < full {
            let at = i * size;
            this = this.put(alloc, first + i as u64, &bytes[at..at + size])?;
            i += 1;
        }
        Ok(this)
    }

    /// Puts the full pages with which these bytes begin, in their order. The first of them is page `first`. No page is copied
    /// that would go at once.
    pub fn put_full(
        self,
        alloc: Global,
        page_size: u16,
        first: u64,
        bytes: &[u8],
    ) -> Result<PageCache, AllocError>
        requires some { 1 ≤ page_size }
        requires before { AreFull page_size first (held_in self) }
        requires fits { first + length bytes.now / page_size < 2 ^ 64 }
        ensures { IfOk result (PutsFull page_size first bytes.now self) }
    {
        let size = usize::from(page_size);
        // The last ones stay: a long tip may have more pages than are held.
        let skip = (bytes.len() / size).saturating_sub(self.most as usize);
        self.put_each(alloc, page_size, first + skip as u64, &bytes[skip * size..])
    }
}
