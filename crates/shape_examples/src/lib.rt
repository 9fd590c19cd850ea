//! Examples of point lists and repetitions that are run.

#![tactic(auto)]

#[cfg(test)]
mod copies;
#[cfg(test)]
mod lists;
