// Scripts: their words, what a line asks for, and the lines that answer it.
#![tactic(auto)]

pub mod answer;
pub mod command;
pub mod fault;
pub mod hex;
pub mod listing;
pub mod outcome;
pub mod parse;
pub mod settings;
