// This crate has no function: it holds the definitions that every contract cites, and the theorems about them.
#![tactic(auto)]
