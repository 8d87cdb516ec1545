// A caller of an inquiry's functions: that they promise enough, call by call, to prove what a verdict means in terms of runs alone.
#![tactic(auto)]

mod linked;
#[cfg(test)]
mod verdicts;
