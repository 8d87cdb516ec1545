// Tests of the walker on recipe A.
// All of it is for the tests alone, so that no function of it is proved twice.
#![tactic(auto)]

#[cfg(test)]
mod lists;
#[cfg(test)]
mod steps;
