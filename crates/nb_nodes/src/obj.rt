ghost use Rattle.std.specs.Prelude.{◌≡◌, ◌++◌, ◌∷◌, [], IfOk, List};
ghost use Rattle.nb_graph.specs.Trace.{NodeEntry, regain, LacksLoad};
ghost use Rattle.nb_nodes.specs.Objects.{kind_of_obj, mark_of_obj, rank_of_obj};
ghost use Rattle.nb_nodes.specs.Standing.{ObjStands, ObjHarvests};

use crate::{Asker, Fetch, Load, Tftp};
use nb_conns::Tcp;
use nb_dhcp::Dhcp;
use nb_dns::Dns;
use nb_drivenodes::{Iscsi, LogicalUnit};
use nb_graph::{Fx, Msg, Node};
use nb_ping::Ping;
use nb_terms::{Cause, NoMemory};
use nb_webnodes::Web;
use std::alloc::Global;

/// An object of an open, as a node of the graph. A kind with much of its own is boxed.
#[derive(Drop)]
pub enum Obj {
    Fetch(Fetch),
    Tftp(Box<Tftp>),
    Resolver(Box<Asker<Dns>>),
    Dhcp(Box<Asker<Dhcp>>),
    Ping(Box<Asker<Ping>>),
    Http(Box<Web>),
    Tcp(Box<Tcp>),
    Iscsi(Box<Iscsi>),
    Disk(Box<LogicalUnit>),
}

impl Obj {
    /// A Fetch of which nothing has come.
    pub fn fetch(alloc: Global) -> Obj
        ensures stands { ObjStands result [] }
        ensures rank { rank_of_obj result ≡ 5 }
        ensures kind { kind_of_obj result ≡ 1 }
        ensures mark { mark_of_obj result ≡ 0 }
    {
        Obj::Fetch(Fetch::new(alloc))
    }

    /// A Tftp that waits for what to ask for.
    pub fn tftp(alloc: Global) -> Result<Obj, NoMemory>
        ensures stands { IfOk result (λ o. ObjStands o []) }
        ensures rank { IfOk result (λ o. rank_of_obj o ≡ 2) }
        ensures kind { IfOk result (λ o. kind_of_obj o ≡ 4) }
        ensures mark { IfOk result (λ o. mark_of_obj o ≡ 0) }
    {
        Ok(Obj::Tftp(Box::new(alloc, Tftp::new(alloc)?)?))
    }

    /// A Resolver that waits for what to ask for.
    pub fn resolver(alloc: Global) -> Result<Obj, NoMemory>
        ensures stands { IfOk result (λ o. ObjStands o []) }
        ensures rank { IfOk result (λ o. rank_of_obj o ≡ 2) }
        ensures kind { IfOk result (λ o. kind_of_obj o ≡ 5) }
    {
        Ok(Obj::Resolver(Box::new(alloc, Asker::new(alloc)?)?))
    }

    /// A Dhcp that waits for what to ask for.
    pub fn dhcp(alloc: Global) -> Result<Obj, NoMemory>
        ensures stands { IfOk result (λ o. ObjStands o []) }
        ensures rank { IfOk result (λ o. rank_of_obj o ≡ 2) }
        ensures kind { IfOk result (λ o. kind_of_obj o ≡ 6) }
    {
        Ok(Obj::Dhcp(Box::new(alloc, Asker::new(alloc)?)?))
    }

    /// A Ping that waits for what to ask for.
    pub fn ping(alloc: Global) -> Result<Obj, NoMemory>
        ensures stands { IfOk result (λ o. ObjStands o []) }
        ensures rank { IfOk result (λ o. rank_of_obj o ≡ 5) }
        ensures kind { IfOk result (λ o. kind_of_obj o ≡ 7) }
    {
        Ok(Obj::Ping(Box::new(alloc, Asker::new(alloc)?)?))
    }

    /// An Http that waits for what to ask for.
    pub fn http(alloc: Global) -> Result<Obj, NoMemory>
        ensures stands { IfOk result (λ o. ObjStands o []) }
        ensures rank { IfOk result (λ o. rank_of_obj o ≡ 3) }
        ensures kind { IfOk result (λ o. kind_of_obj o ≡ 2) }
        ensures mark { IfOk result (λ o. mark_of_obj o ≡ 2) }
    {
        let waiting = Web::new(alloc)?;
        let web = Box::new(alloc, waiting)?;
        Ok(Obj::Http(web))
    }

    /// A Tcp that waits for what to ask for.
    pub fn tcp(alloc: Global) -> Result<Obj, NoMemory>
        ensures stands { IfOk result (λ o. ObjStands o []) }
        ensures rank { IfOk result (λ o. rank_of_obj o ≡ 2) }
        ensures kind { IfOk result (λ o. kind_of_obj o ≡ 3) }
        ensures mark { IfOk result (λ o. mark_of_obj o ≡ 3) }
    {
        let waiting = Tcp::new(alloc)?;
        let tcp = Box::new(alloc, waiting)?;
        Ok(Obj::Tcp(tcp))
    }

    /// A session that waits for what to ask for.
    pub fn iscsi(alloc: Global) -> Result<Obj, NoMemory>
        ensures stands { IfOk result (λ o. ObjStands o []) }
        ensures rank { IfOk result (λ o. rank_of_obj o ≡ 3) }
        ensures kind { IfOk result (λ o. kind_of_obj o ≡ 8) }
        ensures mark { IfOk result (λ o. mark_of_obj o ≡ 8) }
    {
        let waiting = Iscsi::new(alloc)?;
        let session = Box::new(alloc, waiting)?;
        Ok(Obj::Iscsi(session))
    }

    /// A logical unit that waits for what to ask for.
    pub fn disk(alloc: Global) -> Result<Obj, NoMemory>
        ensures stands { IfOk result (λ o. ObjStands o []) }
        ensures rank { IfOk result (λ o. rank_of_obj o ≡ 5) }
        ensures kind { IfOk result (λ o. kind_of_obj o ≡ 9) }
        ensures mark { IfOk result (λ o. mark_of_obj o ≡ 9) }
    {
        let waiting = LogicalUnit::new(alloc);
        let unit = Box::new(alloc, waiting)?;
        Ok(Obj::Disk(unit))
    }

    /// A load that was lent comes back. Not inlined, as only a Tftp's and a Tcp's are frequent.
    #[cold]
    #[inline(never)]
    fn take_back(&mut self, load: Load)
        ensures rank { rank_of_obj self.new ≡ rank_of_obj self.old }
        ensures kind { kind_of_obj self.new ≡ kind_of_obj self.old }
        ensures mark { mark_of_obj self.new ≡ mark_of_obj self.old }
        ensures stands { (t : List (NodeEntry Obj Load)) → ObjStands self.old t → LacksLoad t load
            → ObjStands self.new (t ++ regain load ∷ []) }
    {
        match self {
            Obj::Fetch(_) => {}
            Obj::Tftp(tftp) => tftp.regain(load),
            Obj::Resolver(resolver) => resolver.regain(load),
            Obj::Dhcp(dhcp) => dhcp.regain(load),
            Obj::Ping(ping) => ping.regain(load),
            Obj::Http(web) => web.regain::<Obj, Load>(load),
            Obj::Tcp(tcp) => tcp.regain::<Obj, Load>(load),
            Obj::Iscsi(session) => session.regain::<Obj, Load>(load),
            Obj::Disk(unit) => unit.regain::<Obj, Load>(load),
        }
    }
}

impl Node for Obj {
    type Load = Load;

    ghost rank_of = { rank_of_obj };

    ghost kind_of = { kind_of_obj };

    ghost mark_of = { mark_of_obj };

    ghost harvests = { ObjHarvests };

    ghost stands = { ObjStands };

    fn rank(&self) -> u8 {
        match self {
            Obj::Fetch(_) => 5,
            Obj::Tftp(_) => 2,
            Obj::Resolver(_) => 2,
            Obj::Dhcp(_) => 2,
            Obj::Ping(_) => 5,
            Obj::Http(_) => 3,
            Obj::Tcp(_) => 2,
            Obj::Iscsi(_) => 3,
            Obj::Disk(_) => 5,
        }
    }

    fn kind(&self) -> u8 {
        match self {
            Obj::Fetch(_) => 1,
            Obj::Tftp(_) => 4,
            Obj::Resolver(_) => 5,
            Obj::Dhcp(_) => 6,
            Obj::Ping(_) => 7,
            Obj::Http(_) => 2,
            Obj::Tcp(_) => 3,
            Obj::Iscsi(_) => 8,
            Obj::Disk(_) => 9,
        }
    }

    #[inline(always)]
    fn on_up(
        &mut self,
        slot: u8,
        msg: &Msg<'_>,
        now: u64,
        fx: &mut Fx<Obj, Load>,
    ) -> Result<(), NoMemory> {
        match self {
            Obj::Fetch(fetch) => fetch.on_up(slot, msg, fx),
            Obj::Tftp(tftp) => tftp.on_up(slot, msg, now, fx),
            Obj::Resolver(resolver) => resolver.on_up(slot, msg, now, fx),
            Obj::Dhcp(dhcp) => dhcp.on_up(slot, msg, now, fx),
            Obj::Ping(ping) => ping.on_up(slot, msg, now, fx),
            Obj::Http(web) => web.on_up(slot, msg, fx),
            Obj::Tcp(tcp) => tcp.on_up(slot, msg, now, fx),
            Obj::Iscsi(session) => session.on_up(slot, msg, fx),
            Obj::Disk(unit) => unit.on_up(slot, msg, fx),
        }
    }

    fn on_down(&mut self, msg: &Msg<'_>, now: u64, fx: &mut Fx<Obj, Load>) -> Result<(), NoMemory> {
        match self {
            Obj::Fetch(fetch) => {
                fetch.on_down(msg, fx);
                Ok(())
            }
            Obj::Tftp(tftp) => tftp.on_down(msg, now, fx),
            Obj::Resolver(resolver) => resolver.on_down(msg, now, fx),
            Obj::Dhcp(dhcp) => dhcp.on_down(msg, now, fx),
            Obj::Ping(ping) => ping.on_down(msg, now, fx),
            Obj::Http(web) => web.on_down(msg, fx),
            Obj::Tcp(tcp) => tcp.on_down(msg, now, fx),
            Obj::Iscsi(session) => session.on_down(msg, fx),
            Obj::Disk(unit) => unit.on_down(msg, fx),
        }
    }

    fn on_close(&mut self, slot: u8, cause: &Cause, _now: u64, fx: &mut Fx<Obj, Load>) {
        match self {
            Obj::Fetch(fetch) => fetch.on_close(slot, cause, fx),
            Obj::Tftp(tftp) => tftp.on_close(slot, cause, fx),
            Obj::Resolver(resolver) => resolver.on_close(slot, cause, fx),
            Obj::Dhcp(dhcp) => dhcp.on_close(slot, cause, fx),
            Obj::Ping(ping) => ping.on_close(slot, cause, fx),
            Obj::Http(web) => web.on_close(slot, cause, fx),
            Obj::Tcp(tcp) => tcp.on_close(slot, cause, fx),
            Obj::Iscsi(session) => session.on_close(slot, cause, fx),
            Obj::Disk(unit) => unit.on_close(slot, cause, fx),
        }
    }

    fn on_time(&mut self, now: u64, fx: &mut Fx<Obj, Load>) -> Result<(), NoMemory> {
        match self {
            Obj::Fetch(_) => Ok(()),
            Obj::Tftp(tftp) => tftp.on_time(now, fx),
            Obj::Resolver(resolver) => resolver.on_time(now, fx),
            Obj::Dhcp(dhcp) => dhcp.on_time(now, fx),
            Obj::Ping(ping) => ping.on_time(now, fx),
            Obj::Http(web) => {
                web.on_time(fx);
                Ok(())
            }
            Obj::Tcp(tcp) => tcp.on_time(now, fx),
            Obj::Iscsi(session) => {
                session.on_time(fx);
                Ok(())
            }
            Obj::Disk(unit) => {
                unit.on_time(fx);
                Ok(())
            }
        }
    }

    #[inline(always)]
    fn regain(&mut self, load: Load) {
        match self {
            Obj::Tftp(tftp) => tftp.regain(load),
            Obj::Tcp(tcp) => tcp.regain::<Obj, Load>(load),
            _ => self.take_back(load),
        }
    }

    fn harvest(&mut self) -> Option<Load> {
        match self {
            Obj::Fetch(fetch) => fetch.harvest(),
            Obj::Tftp(_) => None,
            Obj::Resolver(_) => None,
            Obj::Dhcp(_) => None,
            Obj::Ping(_) => None,
            Obj::Http(_) => None,
            Obj::Tcp(_) => None,
            Obj::Iscsi(_) => None,
            Obj::Disk(_) => None,
        }
    }
}
