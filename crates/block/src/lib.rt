// Blocks as a host uses them: rows that read bytes and write them back.
#![tactic(auto)]

pub mod rows;
#[cfg(test)]
mod tests;
