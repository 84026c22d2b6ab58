//! Tests of what no clause says and no program shows.
#![tactic(auto)]

#[cfg(test)]
mod tests;
