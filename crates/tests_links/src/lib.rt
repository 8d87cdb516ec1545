// Tests of links: where a new edge comes to stand, what digging finds then, and that links and digs in any order come to the same.
// All of it is for the tests alone, so that no function of it is proved twice.
#![tactic(auto)]

#[cfg(test)]
mod links;
#[cfg(test)]
mod orders;
#[cfg(test)]
mod refused;
#[cfg(test)]
mod steps;
#[cfg(test)]
mod tables;
