// Tests of lists of requests: what each is answered, how many are made, and what the tables and the output hold at the end.
#![tactic(auto)]

#[cfg(test)]
mod linking;
#[cfg(test)]
mod lists;
#[cfg(test)]
mod unfit;
