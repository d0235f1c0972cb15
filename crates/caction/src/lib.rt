//! What each production of the grammar makes of its parts (C99 6.5 to 6.9, in this project's subset).
#![tactic(auto)]

mod declaration;
mod empty;
mod expression;
mod list;
mod statement;
mod table;
mod token;
mod types;
mod unit;

pub use table::make;
