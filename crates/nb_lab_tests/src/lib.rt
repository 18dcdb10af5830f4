// Tests of nb_lab by its public calls: frames of a client as they stand on a wire, and the frames of the servers that
// answer them; the script; and the summary of hand-made records. Begin with `servers`.
#![tactic(auto)]

#[cfg(test)]
mod delivery;
#[cfg(test)]
mod servers;
#[cfg(test)]
mod summary;
#[cfg(test)]
mod wire;
