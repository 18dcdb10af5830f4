ghost use Rattle.std.specs.Prelude.{◌≡◌, [], IfOk};
ghost use Rattle.nb_chains.specs.Kinds.{IsLowerOf, top_mark, top_number, top_rank};
ghost use Rattle.nb_nodes.specs.Objects.{kind_of_obj, mark_of_obj, rank_of_obj};
ghost use Rattle.nb_nodes.specs.Standing.{ObjStands};

use nb_nodes::Obj;
use nb_terms::NoMemory;
use std::alloc::Global;

/// What an open is for.
#[derive(Clone, Copy, Debug, PartialEq, Eq)]
pub enum ChainKind {
    /// A file by TFTP (RFC 1350): a Fetch, and below it a Tftp.
    File,
    /// The look-up of a name's address (RFC 1035): a Resolver.
    Name,
    /// A lease (RFC 2131): a Dhcp.
    Lease,
    /// An echo (RFC 792): a Ping.
    Echo,
    /// A drive of an iSCSI target (RFC 7143): a logical unit, as long as it waits; what is below it is none of a chain.
    Drive,
}

/// A new top object of such an open.
pub(crate) fn top_node(alloc: Global, kind: ChainKind) -> Result<Obj, NoMemory>
    ensures stands { IfOk result (λ o. ObjStands o []) }
    ensures number { IfOk result (λ o. kind_of_obj o ≡ top_number kind) }
    ensures rank { IfOk result (λ o. rank_of_obj o ≡ top_rank kind) }
    ensures mark { IfOk result (λ o. mark_of_obj o ≡ top_mark kind) }
{
    match kind {
        ChainKind::File => Ok(Obj::fetch(alloc)),
        ChainKind::Name => Obj::resolver(alloc),
        ChainKind::Lease => Obj::dhcp(alloc),
        ChainKind::Echo => Obj::ping(alloc),
        ChainKind::Drive => Obj::disk(alloc),
    }
}

/// A new object that is plugged below the top one, where such an open has one.
pub(crate) fn lower_node(alloc: Global, kind: ChainKind) -> Result<Option<Obj>, NoMemory>
    ensures { IfOk result (IsLowerOf kind) }
{
    match kind {
        ChainKind::File => Ok(Some(Obj::tftp(alloc)?)),
        ChainKind::Name => Ok(None),
        ChainKind::Lease => Ok(None),
        ChainKind::Echo => Ok(None),
        ChainKind::Drive => Ok(None),
    }
}
