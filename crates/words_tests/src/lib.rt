//! Tests of the words of the command line.
#![tactic(auto)]

#[cfg(test)]
mod command_words_tests;
