//! A client's opens at work, over its link.

ghost use Rattle.std.specs.Prelude.{◌≡◌, ◌+◌, ◌<◌, [], false, IfOk};
ghost use Rattle.nb_chains.specs.declared.kind.ChainKind.TheVariants as kind;
ghost use Rattle.nb_defs.specs.Records.{IsTick};
ghost use Rattle.nb_network.specs.Many.{HasNoneTied, port_for};
ghost use Rattle.nb_open.specs.Opening.{CanOpen, chain_kind, own_by};

use crate::frames::Frame;
use crate::rows::{Row, rows_of};
use nb_chains::ChainKind;
use nb_network::{Opens, put_begun};
use nb_nodes::{Ask, LeaseAsk, PingAsk};
use nb_open::Opening;
use nb_record::{Log, NoMemory};
use nb_runner::{MAX_OPENS, own_port};
use nb_stack::{Addr, Stack};
use nb_teller::{Desk, lent};
use nb_terms::Plain;
use nb_wire::{Ip4, Mac};
use std::alloc::Global;
use std::marker::Model;

const MAC: Mac = Mac([0x52, 0x54, 0, 0, 0, 1]);

const SERVER: Ip4 = Ip4(0x0a00_0001);

const ADDRESS: Addr = Addr {
    ip: Ip4(0x0a00_0002),
    mask: Ip4(0xffff_ff00),
    gateway: None,
};

/// The opens of a client, and the records that the last call on them has put.
#[derive(Drop)]
pub(crate) struct Bench {
    alloc: Global,
    opens: Opens,
    net: Stack,
    desk: Desk,
    log: Log,
    /// How many opens were made.
    made: u16,
    /// How many records were used.
    used: u32,
    /// The time, in milliseconds.
    now: u64,
}

impl Model for Bench {
    ghost use Rattle.nb_client_tests.specs.Benches.{AreWell, Benched};

    ghost Value = { Benched };

    ghost view = { λ b. record { made = b.made; many = b.opens } };

    ghost invariant = { λ b. AreWell b.made b.net b.opens };
}

impl Bench {
    /// A client with an address, of which START was used.
    pub(crate) fn new(alloc: Global) -> Result<Bench, NoMemory>
        ensures { IfOk result (λ b. HasNoneTied b.many) }
    {
        let mut net = Stack::new(MAC);
        net.set_address(Some(ADDRESS));
        net.set_up(true);
        Ok(Bench {
            alloc,
            opens: Opens::new(alloc)?,
            net,
            desk: lent(alloc, None)?,
            log: Log::new(alloc, 4096)?,
            made: 0,
            used: 1,
            now: 0,
        })
    }

    /// What the last call has put.
    pub(crate) fn rows(&self) -> Result<Vec<Row>, NoMemory> {
        rows_of(self.alloc, self.log.bytes())
    }

    /// The next open begins, for a file of the server.
    pub(crate) fn fetch(self) -> Result<Bench, NoMemory> {
        if self.made >= MAX_OPENS {
            return Err(NoMemory);
        }
        let ask = Ask {
            server: SERVER,
            port: 69,
            own_port: own_port(0, self.made),
            path: b"k".as_slice(),
        };
        self.begin(&Opening::File(ask))
    }

    /// The next open begins, for an echo of the server.
    pub(crate) fn ping(self) -> Result<Bench, NoMemory> {
        let ask = PingAsk {
            host: SERVER,
            ident: self.made,
        };
        self.begin(&Opening::Echo(ask))
    }

    /// The next open begins, for a lease.
    pub(crate) fn lease(self) -> Result<Bench, NoMemory>
        requires { HasNoneTied self.many }
    {
        self.begin(&Opening::Lease(lease_ask()))
    }

    /// The next open begins.
    fn begin(self, opening: &Opening<'_>) -> Result<Bench, NoMemory>
        requires can { CanOpen opening.now }
        requires own { own_by opening.now ≡ port_for (chain_kind opening.now) 0 self.made }
        requires tied { chain_kind opening.now ≡ kind.Lease → HasNoneTied self.many }
    {
        let Bench {
            alloc,
            mut opens,
            mut net,
            desk,
            mut log,
            made,
            used,
            now,
        } = self;
        if made >= MAX_OPENS {
            return Err(NoMemory);
        }
        let (ended, desk) = opens.begin(alloc, &mut net, opening, made, None, used, now, desk)?;
        log.clear();
        put_begun(opening, made, ended, &desk, &mut log);
        Ok(Bench {
            alloc,
            opens,
            net,
            desk,
            log,
            made: made + 1,
            used,
            now,
        })
    }

    /// Whether no lease can be begun.
    pub(crate) fn refuses_lease(self) -> bool {
        let Bench {
            alloc,
            mut opens,
            mut net,
            desk,
            made,
            used,
            now,
            ..
        } = self;
        let opening = Opening::Lease(lease_ask());
        match opens.begin(alloc, &mut net, &opening, made, None, used, now, desk) {
            Ok(_) => false,
            Err(NoMemory) => true,
        }
    }

    /// A frame arrives while this open is awaited. Returns the number of what is told to have ended.
    pub(crate) fn take(
        self,
        frame: &Frame,
        awaited: Option<u16>,
    ) -> Result<(Bench, Option<u16>), NoMemory> {
        let Bench {
            alloc,
            mut opens,
            mut net,
            desk,
            mut log,
            made,
            used,
            now,
        } = self;
        log.clear();
        let used = used.saturating_add(1);
        let (ended, desk) = opens.take_frame(
            alloc,
            &mut net,
            used,
            now,
            frame.as_slice(),
            awaited,
            desk,
            &mut log,
        )?;
        let bench = Bench {
            alloc,
            opens,
            net,
            desk,
            log,
            made,
            used,
            now,
        };
        Ok((bench, ended.map(|open| open.into_inner().number)))
    }

    /// So many milliseconds pass.
    pub(crate) fn tick(self, ms: u16) -> Result<Bench, NoMemory>
        requires { IsTick ms }
    {
        let Bench {
            alloc,
            mut opens,
            mut net,
            desk,
            mut log,
            made,
            used,
            now,
        } = self;
        log.clear();
        let used = used.saturating_add(1);
        let Some(now) = now.checked_add(u64::from(ms)) else {
            return Err(NoMemory);
        };
        let (_, desk) = opens.pass_time(alloc, &mut net, used, ms, now, None, desk, &mut log)?;
        Ok(Bench {
            alloc,
            opens,
            net,
            desk,
            log,
            made,
            used,
            now,
        })
    }

    /// The run ends: what that puts.
    pub(crate) fn shut(self) -> Result<Vec<Row>, NoMemory> {
        let Bench {
            alloc,
            mut opens,
            mut net,
            desk,
            mut log,
            now,
            ..
        } = self;
        log.clear();
        let stopped = Plain::Stopped.cause();
        let _desk = opens.shut_all(
            &mut net,
            None,
            ChainKind::File,
            0,
            &stopped,
            now,
            desk,
            &mut log,
        )?;
        rows_of(alloc, log.bytes())
    }
}

fn lease_ask() -> LeaseAsk {
    LeaseAsk {
        mac: MAC,
        uuid: [0; 16],
        arch: 0,
        xid: 1,
    }
}
