// The rows of a document, noted in one pass.
#![tactic(auto)]

pub mod note;
pub mod tags;
