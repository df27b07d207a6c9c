//! Whether a sheet is well formed.

#![tactic(auto)]

mod labels;
mod row_forms;
mod sheets;

pub use sheets::is_well_formed;
