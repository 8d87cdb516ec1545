// Tests of what an inquiry refuses, and that it then changes nothing: tables and counts that do not fit, digs with other counts, and links.
// All of it is for the tests alone, so that no function of it is proved twice.
#![tactic(auto)]

#[cfg(test)]
mod idle;
#[cfg(test)]
mod links;
#[cfg(test)]
mod other_counts;
#[cfg(test)]
mod tables;
#[cfg(test)]
mod unfit;
