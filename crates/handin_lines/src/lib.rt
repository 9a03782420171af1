// The hand-in line, read beside the keys of a sheet's item names. In `by_name`, items and sets by their
// names; in `sets`, the sets of a line; in `lines`, the whole line; in `tasks`, what it asks of the register.

#![tactic(auto)]

pub mod by_name;
pub mod lines;
pub mod sets;
pub mod tasks;
