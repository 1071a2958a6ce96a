// Strict mode: the ranges of a date's and a time's parts.
#![tactic(auto)]

pub mod strict_date;
