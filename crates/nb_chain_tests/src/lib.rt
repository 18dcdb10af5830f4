// Tests of chains: two opens live on one graph. Begin with `beside`.
#![tactic(auto)]

#[cfg(test)]
mod beside;
#[cfg(test)]
mod steps;
