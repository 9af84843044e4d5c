#![tactic(auto)]

pub mod blocking;
pub mod bound;
pub mod look_ahead;
pub mod null;
