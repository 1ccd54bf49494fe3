// The names of the open elements: up to 64 are kept, and the others are found again by walking back over the document.
#![tactic(auto)]

pub mod back;
pub mod names;
