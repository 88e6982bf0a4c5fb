//! What decides whether a page moves between the tiers: four probabilities, draws from a seeded generator, and a queue of
//! pages that were turned away.
#![tactic(auto)]

mod draws;
mod policy;
mod queue;

pub use draws::Draws;
pub use policy::{Policy, Question};
pub use queue::AdmissionQueue;
