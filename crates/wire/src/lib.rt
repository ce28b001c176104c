// Steps by which received bytes are read, and why they stop.
#![tactic(auto)]

mod bounds;
mod steps;
mod stop;

pub use bounds::Bounds;
pub use steps::{filled, first, number, pass, pass_end};
pub use stop::{ReadError, Stop};
