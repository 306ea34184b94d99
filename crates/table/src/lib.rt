// The table file, read where it lies.
#![tactic(auto)]

pub mod bytes;
pub mod header;
pub mod layout;
pub mod line;
mod lines_good;
pub mod reading;
pub mod view;
