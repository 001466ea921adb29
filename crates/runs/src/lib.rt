// The run of a completion: the turns, from the start until no entry waits.

#![tactic(auto)]

mod running; // the turns, one after the other
mod starting; // all equations wait

pub use running::run_sheet;
