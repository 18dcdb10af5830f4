//! A law of opens on one graph, a function that does nothing.

ghost use Rattle.nb_chains.specs.Chains.{StaysChained};
ghost use Rattle.nb_graph.specs.Whole.{Objects};
ghost use Rattle.nb_machine.specs.Lives.{Live};
ghost use Rattle.nb_nodes.specs.declared.obj.Obj.{Obj as TheObj};
ghost use Rattle.nb_open.specs.Objects.{objects_ids};
ghost use Rattle.nb_open.specs.Open.{IsOpenOf};
ghost use Rattle.nb_open.specs.declared.open.Open.{Open as TheOpen};

/// An open whose objects stay as they are stays what it is.
pub fn opens_stay()
    ensures { (g h : Objects TheObj) (o : TheOpen) (l : Live) → StaysChained (objects_ids o.objects) g h → IsOpenOf g o l
        → IsOpenOf h o l }
{}
