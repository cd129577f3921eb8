//! Tests of states, walks, the book and the board, which call what is public: threads, and values
//! from outside, which no clause says; one run of each statement, each step of which is taken back;
//! and where instructions come from. All else is shown through the program.
#![tactic(auto)]

#[cfg(test)]
mod boards;
#[cfg(test)]
mod books;
#[cfg(test)]
mod places;
#[cfg(test)]
mod states;
#[cfg(test)]
mod walks;
