// This crate has no function: it holds the worked hall of docs/FORMATS.md and its cases, computed from the definitions.
#![tactic(auto)]
