//! Tests of rows over the two dictionaries of an archive, over the public calls of their crates.
#![tactic(auto)]

#[cfg(test)]
mod books;
#[cfg(test)]
mod codec_script;
#[cfg(test)]
mod filter_script;
#[cfg(test)]
mod filters;
#[cfg(test)]
mod machine;
#[cfg(test)]
mod many_script;
#[cfg(test)]
mod messages;
#[cfg(test)]
mod naming;
#[cfg(test)]
mod page_script;
#[cfg(test)]
mod pages;
#[cfg(test)]
mod place_script;
#[cfg(test)]
mod play;
#[cfg(test)]
mod row_rename_tests;
#[cfg(test)]
mod rows;
#[cfg(test)]
mod segments;
#[cfg(test)]
mod sieve;
#[cfg(test)]
mod sieve_script;
#[cfg(test)]
mod stamp_script;
#[cfg(test)]
mod texts;
#[cfg(test)]
mod value_script;
#[cfg(test)]
mod written;
