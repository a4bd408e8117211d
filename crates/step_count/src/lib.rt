//! Counters of steps. A function that takes one says in its contract how often it did the work that
//! the counter stands for; the counter itself has no bytes, and counting does nothing at run time.
#![tactic(auto)]

mod steps;

pub use steps::Steps;
