//! The world of files by its public calls, over real files of the working folder.
#![tactic(auto)]

#[cfg(test)]
mod tests;
