// Sizes of a desk, what lent memory they want, what is refused and by which numbers, and the state of a desk.
#![tactic(auto)]

pub mod budget;
mod bytes;
mod clip;
mod entry;
pub mod fresh;
mod head;
pub mod laws;
pub mod load;
mod order;
pub mod sizes;
pub mod state;
pub mod store;
mod table;
