//! Tests of the search and of its answers, which call what is public: limits, gates, threads and
//! devices, of which no clause says.
#![tactic(auto)]

#[cfg(test)]
mod answers;
#[cfg(test)]
mod searches;
