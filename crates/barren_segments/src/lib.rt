//! Which segments a search need not open, as definitions that the crates above share.
#![tactic(auto)]
