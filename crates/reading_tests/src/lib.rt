//! Tests of what is read of archives: counts by log type and by minute, the text of a file as a
//! source and into a sink, and the files of an archive as jobs. They call what the crates make
//! public.
#![tactic(auto)]

#[cfg(test)]
mod archive_jobs_tests;
#[cfg(test)]
mod archive_text_tests;
#[cfg(test)]
mod decode_tests;
#[cfg(test)]
mod group_count_tests;
#[cfg(test)]
mod group_table_tests;
