//! The file in which a server keeps its cache while it does not run: a place for whole texts, the text
//! of a cache, and how it is read again.
#![tactic(auto)]

pub use faults::CacheFault;
pub use files::CacheFile;
pub use memory_file::MemFile;
pub use reading::read_cache;
pub use runtime_file::RuntimeFile;
pub use texts::cache_text;

pub mod faults;
pub mod files;
pub mod memory_file;
mod parts;
pub mod reading;
pub mod runtime_file;
pub mod texts;
