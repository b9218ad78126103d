// This crate has no function: it says what the contracts of the opening and of a turn let the day program print.
#![tactic(auto)]
