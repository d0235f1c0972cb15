//! Reading a source by the rules of the grammar (C99 6.5 to 6.9, in this project's subset), looking one token ahead: its
//! productions, or the first token that can't stand where it stands.
#![tactic(auto)]

mod laws;
mod part;
mod read;
mod read_fault;
mod reader;
mod table;

pub use laws::{
    accepted_is_text, few_steps, first_fault, one_text, text_is_accepted, text_or_fault,
};
pub use read::read_entries;
pub use read_fault::ReadFault;
pub use reader::Entry;

#[cfg(test)]
mod tests;
