#![tactic(auto)]

pub mod fault;
pub mod picture;
pub mod read;
pub mod request;
