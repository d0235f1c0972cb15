//! What a meaning and a machine share: how a run stands, one run after another, and that a machine does what a meaning says.
//! Nothing here knows of C or of a core.
#![tactic(auto)]

mod laws;
mod stop;

pub use laws::{and_then_laws, reaches_laws, settled_laws};
pub use stop::Stop;

#[cfg(test)]
mod tests {
    use super::*;

    // the laws may be called at any types
    #[test]
    fn laws(rt: HostRuntime) {
        and_then_laws::<u8, u32, bool, u8, ()>();
        settled_laws::<u8, u32, bool>();
        reaches_laws::<u8, u32>();
        assert_ne!(rt; Stop::<u8>::Undefined(1), Stop::Undefined(2));
        assert_ne!(rt; Stop::<u8>::Dry, Stop::More);
        assert_eq!(rt; Stop::<u8>::Stuck, Stop::Stuck);
    }
}
