//! Tests of the rules of text, over the public calls of their crates.
#![tactic(auto)]

#[cfg(test)]
mod line_cut_joiner_tests;
#[cfg(test)]
mod line_cut_tests;
#[cfg(test)]
mod logtype_text_tests;
#[cfg(test)]
mod telling;
#[cfg(test)]
mod time_patterns_tests;
#[cfg(test)]
mod token_rules_tests;
#[cfg(test)]
mod var_codec_tests;
#[cfg(test)]
mod wild_match_tests;
