// EDAC memory's read-only bytes (`rows`, by the `list` of them), and stores that leave them as they are (`store`).
#![tactic(auto)]

mod list;
mod rows;
pub mod store;
