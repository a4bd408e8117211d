//! What each command answers, as definitions: the words of the top call's contract.
#![tactic(auto)]
