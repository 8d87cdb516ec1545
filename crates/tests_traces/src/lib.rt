// Tests of traces: in outputs of every length, through calls and recursion, and too long to be told; the walker replays what is written.
// All of it is for the tests alone, so that no function of it is proved twice.
#![tactic(auto)]

#[cfg(test)]
mod digs;
#[cfg(test)]
mod long_traces;
#[cfg(test)]
mod tables;
#[cfg(test)]
mod traces;
#[cfg(test)]
mod walked;
