// Labels and sizes of rows, from their spellings and from which row holds which: nothing here knows how a document is written.
#![tactic(auto)]

pub mod fill;
pub mod note;
