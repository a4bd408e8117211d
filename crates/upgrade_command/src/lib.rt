//! The command `upgrade`: the files of an archive become those of a new one of the last version.
#![tactic(auto)]

mod filling;
mod made;
mod old;
mod taking;
mod upgrade;

pub use upgrade::upgrade_archive;
