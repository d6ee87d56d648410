//! Buffers over blobs whose pages carry seals.
//!
//! Two buffers mean a list of bytes each: [`PageBlob`], whose pages carry seals, and [`WriteBlob`], which has
//! none.
//!
//! ```rust
//! let end = dev.open_blob("p", b"x")?;
//! let pages = Pages { page_size: 4, cache_pages: 0 };
//! let blob = PageBlob::<Sha256Seal>::adopt(alloc, &mut dev, "p", b"x", end, 1024, pages)?;
//! let (blob, at) = blob.append(&mut dev, b"abcdef")?;     // in memory, below 1,024 bytes
//! let blob = blob.sync(&mut dev)?;                        // written page by page, and settled
//! blob.read_at(&mut dev, 3, buf)?;                        // from pages that a matching slot covers
//! ```
#![tactic(auto)]

mod cache;
mod cut;
mod flush;
mod open_blob;
mod page;
mod page_blob;
mod pages;
mod piece;
pub mod plain;
mod prefix;
mod range;
mod reading;
mod repair;
mod replay;
mod slot;
mod start;
mod write_blob;

pub use page_blob::PageBlob;
pub use pages::Pages;
pub use replay::PageReplay;
pub use write_blob::WriteBlob;
