//! Host scripts: what happens from outside in each cycle, and what each core waits at shared memory.
#![tactic(auto)]

mod act;
mod action;
mod cause;
mod draft;
mod fault;
mod line;
mod reading;
mod script;

pub use action::{Act, Action};
pub use cause::ScriptCause;
pub use fault::ScriptFault;
pub use reading::read_script;
pub use script::{Acts, Numbers, Script};

#[cfg(test)]
mod tests;
