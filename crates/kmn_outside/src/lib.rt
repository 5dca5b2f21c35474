//! Defines traits for what is outside the program, a folder of files and a sink for text, with fakes in memory and adapters
//! over real files and writers.
//!
//! Depends on `kmn_base` and `thiserror`. The layers above use the traits `Folder` and `Sink`, whose contracts state what a
//! call reads, writes and counts. A call reports a fault only if the count of faults rises, and a read keeps to its limit. If a
//! folder or a sink exposes its contents, the contract of each call states what it read or wrote. `MemoryFolder` and
//! `MemorySink` expose all their contents, and the calls with given numbers fail. `DiskFolder` and `StreamSink` expose no
//! bytes, which no proof can see outside.
#![tactic(auto)]

mod counts;
mod disk;
mod memory_folder;
mod memory_sink;
mod saving;
mod stream;
mod traits;

pub use disk::DiskFolder;
pub use memory_folder::MemoryFolder;
pub use memory_sink::MemorySink;
pub use stream::StreamSink;
pub use traits::{Call, Folder, ReadError, Sink, WriteError};
