// Events carried out on the state of a desk and its pictures. Nothing here is clever: what is seen is found dot by dot.
#![tactic(auto)]

pub mod carry;
pub mod gaps;
pub mod laws;
pub mod look;
pub mod paint;
pub mod person;
pub mod told;
pub mod windows;
