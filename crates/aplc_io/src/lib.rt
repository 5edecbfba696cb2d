//! What a program reads and writes: sources, sinks and hosts, in memory and over the runtime.
//! It knows nothing of the programs that are compiled or run.
#![tactic(auto)]

mod file_host;
mod memory_host;
mod memory_sink;
mod memory_source;
mod send;
mod standard;
mod traits;

pub use file_host::FsHost;
pub use memory_host::MemHost;
pub use memory_sink::MemSink;
pub use memory_source::MemSource;
pub use send::{put_all, write_all, write_pieces};
pub use standard::{StdSink, StdSource};
pub use traits::{Failed, FetchFault, Host, Sink, Source};
