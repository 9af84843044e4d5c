#![tactic(auto)]

pub mod candidate;
pub mod faults;
pub mod slot;
pub mod stack;
pub mod work;
