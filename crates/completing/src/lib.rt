// Completion of a sheet to a table.

#![tactic(auto)]

mod calls; // the public call
mod clearing; // the work buffer is left with zeros
mod closing; // the table of the state at the end

pub use calls::complete;
