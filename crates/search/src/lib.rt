#![tactic(auto)]

pub mod carrying;
pub mod deepening;
pub mod moves;
pub mod outcome;
mod reserved;
mod round;
pub mod workspace;
