// The windows of the desk by number, and the stacking order: their numbers from the back to the front.
#![tactic(auto)]

pub mod changes;
pub mod front;
pub mod stacking;
pub mod state;
pub mod table;
