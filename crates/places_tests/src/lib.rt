//! Tests of archives whose log types and words stay on the disk, over the public calls of their
//! crates.
#![tactic(auto)]

#[cfg(test)]
mod archive;
#[cfg(test)]
mod archive_places_tests;
#[cfg(test)]
mod log_types;
#[cfg(test)]
mod type_texts_tests;
#[cfg(test)]
mod word_places_tests;
