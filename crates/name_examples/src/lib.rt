//! Examples of the names of a file that are run.

#![tactic(auto)]

#[cfg(test)]
mod records;
