//! Files and a sink, as the program sees them: what they hold, and how often they failed.
//!
//! `HostFiles` and `HostSink` are the file system and standard output. `MemFiles` and `MemSink` lie in memory and
//! fail at planned calls, `SureFiles` and `SureSink` lie there and never fail.
#![tactic(auto)]

mod call_plan;
mod fault;
mod file_map;
mod files;
mod host_files;
mod host_sink;
mod mem_files;
mod mem_sink;
mod room;
mod sink;
mod sure_files;
mod sure_sink;
mod transfer;

pub use fault::{Failed, FileFault};
pub use files::Files;
pub use host_files::HostFiles;
pub use host_sink::HostSink;
pub use mem_files::MemFiles;
pub use mem_sink::MemSink;
pub use sink::Sink;
pub use sure_files::SureFiles;
pub use sure_sink::SureSink;
