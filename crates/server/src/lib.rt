// The window system on lent memory: a start, calls with events, and each program's own words.
#![tactic(auto)]

mod begin;
mod call;
mod laws;
pub mod mailbox;
mod outcome;
mod step;

pub use begin::start;
pub use call::event;
pub use laws::{histories_stand, rows_stand};
pub use outcome::Outcome;
