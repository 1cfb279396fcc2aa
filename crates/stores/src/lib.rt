// Stores: what a panel keeps of its tree, by one meaning for every make of store.
#![tactic(auto)]

pub mod entry;
pub mod faults;
pub mod height;
pub mod laws;
pub mod lending;
pub mod making;
pub mod slots;
pub mod sorted;
pub mod spans;
pub mod storing;
pub mod table;
pub mod table_changes;
pub mod table_reads;
#[cfg(test)]
mod tests;
pub mod traits;
