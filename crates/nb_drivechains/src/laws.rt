//! Laws of drives beside other objects of a graph, functions that do nothing.

ghost use Rattle.std.specs.Prelude.{◌∷◌, []};
ghost use Rattle.nb_chains.specs.Chains.{AreOthers};
ghost use Rattle.nb_drivechains.specs.declared.drive_chain.DriveChain.{DriveChain as TheDriveChain};
ghost use Rattle.nb_drivechains.specs.DriveChains.{IsReadyDrive, IsWaitingUnit, three_of};
ghost use Rattle.nb_graph.specs.Whole.{Objects};
ghost use Rattle.nb_ledger.specs.declared.port.ObjId.{ObjId as TheObjId};
ghost use Rattle.nb_nodes.specs.declared.obj.Obj.{Obj as TheObj};
ghost use Rattle.nb_webchains.specs.declared.web_chain.WebChain.{WebChain as TheWebChain};
ghost use Rattle.nb_webchains.specs.WebChains.{IsOpenWeb, web_ids};

/// Where the three were made, all ports between the user and the network are open.
pub fn ready_drives_are_open()
    ensures { (c : TheDriveChain) (g : Objects TheObj) → IsReadyDrive c g → IsOpenWeb (three_of c) g }
{}

/// A unit that waits is none of the three of an open that goes on, of a drive or by HTTP.
pub fn waiting_units_are_apart()
    ensures { (unit : TheObjId) (c : TheWebChain) (g : Objects TheObj) → IsWaitingUnit unit g → IsOpenWeb c g
        → AreOthers (web_ids c) (unit.0 ∷ []) }
{}
