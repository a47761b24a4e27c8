//! C++ names (Itanium C++ ABI), first stage: the definition of the text that each stands for.
//! Nothing reads by it yet.
#![tactic(auto)]

mod laws;

pub use crate::laws::worked_names;
