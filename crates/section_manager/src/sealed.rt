// Sections in buffers whose pages carry seals.
ghost use Rattle.std.specs.Prelude.{◌≡◌, ◌≤◌, ◌<◌, ◌^◌, ⊤};

use crate::{BufferFactory, SectionBuffer};
use blob_device::{Device, Handle, RError};
use sealed_pages::{PageBlob, Pages};
use std::alloc::{AllocError, Global};
use std::marker::PhantomData;
use value_codec::Seal;

/// Makes buffers whose pages carry seals of this kind.
pub struct AppendFactory<S> {
    /// From how many bytes on a buffer flushes them.
    pub write_buffer: usize,
    /// How a blob is cut into pages, each of at least one data byte.
    pub pages: Pages,
    /// The kind of seal; no data.
    seal: PhantomData<S>,
    // A page has at least one byte.
    ghost valid: { 1 ≤ pages.page_size },
    // A page's length fits the two bytes of a slot.
    ghost small: { pages.page_size < 2 ^ 16 },
}

impl<S> Copy for AppendFactory<S> {}

impl<S> Clone for AppendFactory<S> {
    ghost is_clone = { λ s r. r ≡ s };

    ghost is_infallible = { λ _. ⊤ };

    fn clone(&self) -> Result<AppendFactory<S>, AllocError> {
        Ok(*self)
    }
}

impl<S: Seal> AppendFactory<S> {
    /// A factory of buffers that flush their bytes from so many on, in pages of this kind.
    pub fn new(write_buffer: usize, pages: Pages) -> AppendFactory<S>
        requires valid { 1 ≤ pages.page_size }
        ensures write_buffer { result.write_buffer ≡ write_buffer }
        ensures pages { result.pages ≡ pages }
    {
        AppendFactory {
            write_buffer,
            pages,
            seal: PhantomData,
        }
    }
}

impl<S: Seal> SectionBuffer for PageBlob<S> {
    ghost use Rattle.sealed_pages.specs.Shown.{shown};
    ghost use Rattle.sealed_pages.specs.Buffer.{key_of, size_of, bytes_of, IsSealed};
    ghost use Rattle.sealed_pages.specs.ChanceSeal.{NoChanceSeal};
    ghost use Rattle.sealed_pages.specs.Unrecovered.{IsSafeCut};
    ghost use Rattle.section_manager.specs.Sealed.{setting_of, is_unsettled, adopted_bytes, Stands, MayKeep};
    ghost use Rattle.section_manager.specs.SealedLaws.{passes, looser, counted, settled_within, no_chance, all_settled, rested, found_again};

    ghost setting = { λ u. setting_of (shown u) };

    ghost holds = { λ s content. adopted_bytes S.seal_of s.page_size content };

    ghost key = { λ u. key_of (shown u) };

    ghost extent = { λ u. u.end };

    ghost bytes = { λ u content. bytes_of (shown u) content };

    ghost byte_count = { λ u. size_of (shown u) };

    ghost settled = { λ u. u.settled };

    ghost unsettled = { λ u. is_unsettled (shown u) };

    ghost StartsReads = { ⊤ };

    ghost Stands = { λ u b. Stands S.seal_of (shown u) b };

    ghost IsWhole = { λ u b. IsSealed S.seal_of (shown u) b };

    ghost NoChanceSeal = { λ u contents c. NoChanceSeal S.seal_of u.page_size contents c };

    ghost MayKeep = { λ u b least contents c. MayKeep S.seal_of (shown u) b least c };

    ghost CanCut = { λ u b len. IsSafeCut S.seal_of (shown u) len b };

    fn size(&self) -> u64 {
        self.size()
    }

    fn needs_sync(&self) -> bool {
        self.needs_sync()
    }

    fn sync<D: Device>(self, dev: &mut D) -> Result<Self, RError> {
        // `PageBlob::sync` makes no call where nothing is unsettled, as the trait asks.
        self.sync(dev)
    }

    fn start_sync<D: Device>(self, dev: &mut D) -> Result<(Self, Handle), RError> {
        // Settled before the handle is given out: it is of a sync that has finished.
        let this = self.sync(dev)?;
        Ok((this, Handle::finished()))
    }

    fn wait_for_sync<D: Device>(self, _dev: &mut D) -> Result<Self, RError> {
        Ok(self)
    }

    fn truncate<D: Device>(self, dev: &mut D, len: u64) -> Result<Self, RError> {
        // The buffer's own cut settles what is pending first, and then the cut.
        self.truncate(dev, len)
    }

    ghost passes = { λ u b over. passes S.seal_of (shown u) u.fit u.order b over };

    ghost looser = { λ u b few more contents. looser S.seal_of (shown u) b few more };

    ghost counted = { λ u b stands. counted (shown u) b.content };

    ghost settled_within = { λ u b stands. settled_within S.seal_of (shown u) u.fit u.order };

    ghost no_chance = { λ u. no_chance S.seal_of u.page_size };

    ghost all_settled = { λ u. all_settled (shown u) };

    ghost rested = { λ u b over. rested S.seal_of (shown u) b over };

    ghost found_again = { λ u b stands. found_again S.seal_of (shown u) u.fit u.order b };
}

impl<S: Seal> BufferFactory for AppendFactory<S> {
    type Buffer = PageBlob<S>;

    ghost gives = { λ f. record {
      page_size = f.pages.page_size;
      capacity = f.write_buffer;
      cache_pages = f.pages.cache_pages;
    } };

    fn create<D: Device>(
        &self,
        alloc: Global,
        dev: &mut D,
        partition: &str,
        name: &[u8],
        size: u64,
    ) -> Result<PageBlob<S>, RError> {
        PageBlob::adopt(
            alloc,
            dev,
            partition,
            name,
            size,
            self.write_buffer,
            self.pages,
        )
    }
}
