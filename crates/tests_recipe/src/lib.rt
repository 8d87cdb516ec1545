// Tests of recipe files: what is taken, checked, read and written, on files that are built here.
// All of it is for the tests alone, so that no function of it is proved twice.
#![tactic(auto)]

#[cfg(test)]
mod answers;
#[cfg(test)]
mod checking;
#[cfg(test)]
mod explained;
#[cfg(test)]
mod extremes;
#[cfg(test)]
mod keeping;
#[cfg(test)]
mod refusals;
#[cfg(test)]
mod taking;
#[cfg(test)]
mod telling;
#[cfg(test)]
mod whole;
#[cfg(test)]
mod writing;
