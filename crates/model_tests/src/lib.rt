//! Tests of what stands lowest, by its public calls: the models of both devices, worlds in memory, and the texts.
//!
//! There is no code but for the tests.
#![tactic(auto)]

#[cfg(test)]
mod damage_texts;
#[cfg(test)]
mod fields;
#[cfg(test)]
mod nvm;
#[cfg(test)]
mod ssd;
#[cfg(test)]
mod worlds;
