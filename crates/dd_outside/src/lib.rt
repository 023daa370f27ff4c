//! Sources, from which bytes are read, and sinks, to which bytes are written. Each counts its faults: the calls that failed.
//! `read_all` reads a source to its end, and `write_whole` writes a whole piece, which is a slice of bytes, to a sink.
#![tactic(auto)]

mod faults;
mod memory;
mod quiet;
mod sink;
mod source;
mod standard;

pub use faults::{Failed, ReadAllFault, WriteFault};
pub use memory::{MemorySink, MemorySource};
pub use quiet::{QuietSink, QuietSource};
pub use sink::{Sink, write_whole};
pub use source::{Source, read_all};
pub use standard::{StdSink, StdSource};
