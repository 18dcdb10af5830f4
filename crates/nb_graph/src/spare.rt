use crate::{Fx, Node};
use nb_terms::NoMemory;
use std::alloc::Global;

/// The effects of an entry, and those of the entries within it. They are kept from one entry to the next:
/// whoever hands them to a node empties them first.
#[derive(Drop)]
pub(crate) struct Spare<N: Node> {
    pub(crate) fx: Fx<N, N::Load>,
    pub(crate) within: Option<Box<Spare<N>>>,
}

/// How many entries that run at once have effects that are kept; those beyond make their own.
const SPARE: usize = 8;

/// The effects that a new graph keeps.
pub(crate) fn spare_effects<N: Node>(alloc: Global) -> Result<Option<Box<Spare<N>>>, NoMemory> {
    let mut spare = None;
    for _ in 0..SPARE {
        let outer = Spare {
            fx: Fx::none(),
            within: spare,
        };
        spare = Some(Box::new(alloc, outer)?);
    }
    Ok(spare)
}
