//! Tests of the plans of searches.
#![tactic(auto)]

#[cfg(test)]
mod query_plan_tests;
#[cfg(test)]
mod slots_tests;
