// Tests of judging: that the calls that get memory come to an answer, and judging in lent memory at the edges of its sizes.
#![tactic(auto)]

#[cfg(test)]
mod judged;
