// Tests of what an inquiry finds: its tables row by row, digs in pieces, small tables, recipes that call themselves, and edge tables that were tampered with.
// All of it is for the tests alone, so that no function of it is proved twice.
#![tactic(auto)]

#[cfg(test)]
mod facts_of_a;
#[cfg(test)]
mod pieces;
#[cfg(test)]
mod places;
#[cfg(test)]
mod recursion;
#[cfg(test)]
mod tables;
#[cfg(test)]
mod tampering;
