//! The records of 32-bit little-endian ELF files, as the "Tool Interface Standard: Executable and Linking Format"
//! (version 1.2) has them: read from a file's bytes, and written.
#![tactic(auto)]

mod exact;
mod fault;
mod file;
mod flags;
mod header;
mod reading;
mod record;
mod rela;
mod section;
mod segment;
mod sequence;
mod symbol;
mod writing;

pub use exact::records_are_exact;
pub use fault::{ElfCause, ElfFault};
pub use file::{Contents, ElfFile, Part};
pub use flags::SectionFlags;
pub use header::Header;
pub use reading::read_file;
pub use record::Record;
pub use rela::Rela;
pub use section::{Section, SectionKind};
pub use segment::Segment;
pub use sequence::Sequence;
pub use symbol::Symbol;
pub use writing::write_file;

#[cfg(test)]
mod tests;
