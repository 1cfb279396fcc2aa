// Paths, stamps, grades and version vectors: values that cannot be out of range, and the refusals of every call.
#![tactic(auto)]

pub mod fault;
pub mod grade;
pub mod knobs;
pub mod laws;
pub mod notation;
pub mod parts;
pub mod path;
pub mod stamp;
#[cfg(test)]
mod tests;
pub mod vector;
