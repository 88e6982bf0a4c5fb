//! The edge to real files: a world whose devices and settings are files of the working folder, and whose script and
//! output are the standard streams. Nothing is told of what they hold.
#![tactic(auto)]

mod counts;
mod device_file;
mod file_world;
mod gathered;
mod line_bytes;
mod line_cache;
mod line_memory;
mod nvm_file;
mod placed_line;
mod positioned;
mod run;
mod settings_file;
mod streams;
#[cfg(test)]
mod tests;
mod writing;

pub use file_world::FileWorld;
pub use positioned::PositionedFile;
