// What is sent after an event, and the screen that it is sent to.
#![tactic(auto)]

pub mod apply;
mod cells;
mod edges;
mod head;
mod hurt;
mod scene;
pub mod send;
mod types;
