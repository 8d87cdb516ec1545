// A linked recipe is written, read back and judged: the verdict is that of the inquiry that linked it.
#![tactic(auto)]

#[cfg(test)]
mod linked;
