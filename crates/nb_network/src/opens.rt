ghost use Rattle.std.specs.Prelude.{◌≡◌, [], IfOk};
ghost use Rattle.nb_network.specs.Many.{most_objects};

use crate::Living;
use nb_graph::Graph;
use nb_nodes::Obj;
use nb_terms::NoMemory;
use std::alloc::Global;
use std::marker::Model;

/// The most objects that live at a time.
pub(crate) const OBJECTS: usize = 16;

/// The opens that live.
#[derive(Drop)]
pub struct Opens {
    pub(crate) graph: Graph<Obj>,
    pub(crate) list: Vec<Living>,
}

impl Model for Opens {
    ghost use Rattle.nb_network.specs.Many.{Many};

    ghost Value = { Many };

    ghost view = { λ o. record { graph = o.graph; list = o.list.items } };
}

impl Opens {
    /// No open lives.
    pub fn new(alloc: Global) -> Result<Opens, NoMemory>
        ensures list { IfOk result (λ o. o.list ≡ []) }
        ensures made { IfOk result (λ o. o.graph.book.made ≡ 0) }
        ensures room { IfOk result (λ o. o.graph.book.room ≡ most_objects) }
        ensures objects { IfOk result (λ o. o.graph.book.objects ≡ []) }
    {
        Ok(Opens {
            graph: Graph::new(alloc, OBJECTS)?,
            list: Vec::new(alloc),
        })
    }
}
