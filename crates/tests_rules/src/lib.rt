// Tests of the access rules and the watches, at the edges of what may be asked.
// All of it is for the tests alone, so that no function of it is proved twice.
#![tactic(auto)]

#[cfg(test)]
mod access;
#[cfg(test)]
mod combined;
#[cfg(test)]
mod sample;
#[cfg(test)]
mod watches;
