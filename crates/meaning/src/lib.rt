// What matchers and records are stands in specs/, its laws in proofs/. Here are the rules' numbers by name, the refusals and the endings.
#![tactic(auto)]

pub mod endings;
pub mod kinds;
mod refusal;

pub use refusal::Refusal;
