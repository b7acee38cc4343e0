#![tactic(auto)]

// Functions on the parts of a board: the table of modes, a standing, a refusal, a journal line as numbers.
pub mod entries;
pub mod modes;
pub mod refusals;
pub mod standings;
