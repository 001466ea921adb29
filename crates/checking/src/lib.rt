// The check of a table against a sheet: the six conditions.

#![tactic(auto)]

mod calls; // the check on slices, and the public call on files
mod one_normal; // conditions 5 and 6: one normal word for both sides of an equation, and for the reducts of a critical pair
mod reduced; // condition 4: no standing left word holds another

pub use calls::{check, check_lines};
