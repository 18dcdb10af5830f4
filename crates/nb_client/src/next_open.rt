//! What the next open asks for, by what its command asks.

ghost use Rattle.std.specs.Prelude.{◌≡◌, ◌<◌, List};
ghost use Rattle.nb_chains.specs.declared.kind.ChainKind.TheVariants as chain;
ghost use Rattle.nb_drivenodes.specs.DriveAsks.{info_of};
ghost use Rattle.nb_imagecmd.specs.Asking.{target_port, target_text};
ghost use Rattle.nb_machine.specs.Findings.{asker_at, first_word, open_words, query_id};
ghost use Rattle.nb_machine.specs.Lives.{Live};
ghost use Rattle.nb_machine.specs.Scripts.{transfer_for};
ghost use Rattle.nb_machine.specs.Starting.{own_port};
ghost use Rattle.nb_nodes.specs.LeaseExchanges.{asker_of};
ghost use Rattle.nb_runner.specs.CommandWords.{IsAskedWell, wanted_of};
ghost use Rattle.nb_network.specs.Many.{port_for};
ghost use Rattle.nb_network.specs.Openings.{AsksFrom};
ghost use Rattle.nb_open.specs.Opening.{CanOpen, chain_kind, live_by, own_by};
ghost use Rattle.nb_client.specs.Asked.{live_asked};
ghost use Rattle.nb_client.specs.Beginnings.{IsConnectionBy, IsLookupBy, OpensOwn, asked_kind, own_address};
ghost use Rattle.nb_client.specs.Snapshots.{state_of_world};
ghost use Rattle.nb_client.specs.Soundness.{FitsAsked};

use crate::{Asked, AskedDisk};
use nb_conns::ConnAsk;
use nb_drivenodes::{DriveAsk, DriveNames};
use nb_machine::Identity;
use nb_nodes::{Ask, LeaseAsk, LookupAsk, PingAsk};
use nb_open::{DriveOpening, Opening, WebOpening};
use nb_runner::{Query, Wanted, World, own_port};
use nb_uri::UriTarget;
use nb_webnodes::WebAsk;
use nb_wire::{Ip4, Text};
use rand_chacha::ChaCha8Rng;
use rand_core::SeedableRng;
use rand_core::utils::NextWord;

/// The first word that the open of this number takes from START's key.
#[tactic(auto, unfolding(nb_machine::specs::Findings::first_word))]
fn first_word(machine: &Identity, number: u16) -> u32
    ensures { result ≡ first_word machine.now number }
{
    let mut words = ChaCha8Rng::from_seed(machine.key);
    words.set_word_pos(16 * u128::from(number));
    words.next_word()
}

/// The eight words that the open of this number takes from START's key.
#[tactic(auto, unfolding(nb_machine::specs::Findings::open_words))]
pub(crate) fn open_words(machine: &Identity, number: u16) -> [u32; 8]
    ensures { result ≡ open_words machine.now number }
{
    let mut words = ChaCha8Rng::from_seed(machine.key);
    words.set_word_pos(16 * u128::from(number));
    [
        words.next_word(),
        words.next_word(),
        words.next_word(),
        words.next_word(),
        words.next_word(),
        words.next_word(),
        words.next_word(),
        words.next_word(),
    ]
}

/// The number of an open's query: the low half of its first word.
fn query_id(machine: &Identity, number: u16) -> u16
    ensures { result ≡ query_id machine.now number }
{
    (first_word(machine, number) % 65_536) as u16
}

fn lease_ask(world: &World) -> LeaseAsk
    ensures { asker_of result ≡ asker_at world.now.net.mac world.now.machine world.now.opens }
{
    LeaseAsk {
        mac: world.net.mac(),
        uuid: world.machine.uuid,
        arch: world.machine.arch,
        xid: first_word(&world.machine, world.opens),
    }
}

/// What the next open asks of a name server, for the address of this name.
fn lookup_ask<'a>(world: &World, name: &'a [u8], by: Ip4) -> LookupAsk<'a>
    requires w { world.now.w < 16384 }
    requires few { world.now.opens < 16384 }
    ensures { IsLookupBy world.now name.now by result }
{
    LookupAsk {
        server: by,
        own_port: own_port(world.w, world.opens),
        id: query_id(&world.machine, world.opens),
        name,
    }
}

/// What the next open asks a server for, by its protocol.
fn file_opening<'a>(world: &World, wanted: &'a Wanted) -> Opening<'a>
    requires w { world.now.w < 16384 }
    requires few { world.now.opens < 16384 }
    ensures live { (live : List Live) → live_by result world.now.opens world.now.time ≡ transfer_for (state_of_world world.now live) (wanted_of wanted.now) }
    ensures kind { chain_kind result ≡ chain.File }
    ensures can { IsAskedWell wanted.now.asking → CanOpen result }
    ensures own { own_by result ≡ own_port world.now.w world.now.opens }
    ensures address { AsksFrom world.now.net.address result }
{
    match &wanted.asking.target {
        UriTarget::Http {
            host,
            port,
            path,
            whole,
        } => {
            let conn = connection_ask(world, wanted.server, *port);
            Opening::Web(web_opening(conn, host, path, whole))
        }
        UriTarget::Tftp { .. } => Opening::File(path_ask(world, wanted)),
        UriTarget::Iscsi { .. } => Opening::File(path_ask(world, wanted)),
    }
}

/// What the next open asks a TFTP server for.
fn path_ask<'a>(world: &World, wanted: &'a Wanted) -> Ask<'a>
    requires w { world.now.w < 16384 }
    requires few { world.now.opens < 16384 }
    ensures server { result.server ≡ wanted.now.server }
    ensures port { result.port ≡ target_port wanted.now.asking.target }
    ensures own { result.own_port ≡ own_port world.now.w world.now.opens }
    ensures path { result.path.now ≡ target_text wanted.now.asking.target }
{
    Ask {
        server: wanted.server,
        port: wanted.port(),
        own_port: own_port(world.w, world.opens),
        path: wanted.path(),
    }
}

/// What is asked for by this connection.
fn web_opening<'a>(conn: ConnAsk, host: &'a Text, path: &'a Text, url: &'a Text) -> WebOpening<'a>
    ensures conn { result.ask.conn ≡ conn }
    ensures host { result.ask.host.now ≡ host.now }
    ensures path { result.ask.path.now ≡ path.now }
    ensures url { result.url.now ≡ url.now }
{
    WebOpening {
        ask: WebAsk {
            conn,
            host: host.as_slice(),
            path: path.as_slice(),
        },
        url: url.as_slice(),
    }
}

/// The connection that the next open asks for, to this port of the server.
fn connection_ask(world: &World, server: Ip4, port: u16) -> ConnAsk
    requires w { world.now.w < 16384 }
    requires few { world.now.opens < 16384 }
    ensures { IsConnectionBy world.now server port result }
{
    ConnAsk {
        peer: server,
        peer_port: port,
        own: own_address(world),
        own_port: own_port(world.w, world.opens),
        isn: first_word(&world.machine, world.opens),
    }
}

/// What the next open asks a disk's server for.
fn drive_opening<'a>(world: &World, disk: &'a AskedDisk) -> DriveOpening<'a>
    requires w { world.now.w < 16384 }
    requires few { world.now.opens < 16384 }
    ensures conn { IsConnectionBy world.now disk.now.server disk.now.hooking.disk.port result.ask.conn }
    ensures info { info_of result.ask ≡ disk.now.login }
    ensures target { result.target.now ≡ disk.now.target }
    ensures lun { result.ask.lun ≡ disk.now.login.lun }
    ensures name { result.ask.names.target.now ≡ disk.now.login.target }
{
    let login = &disk.login;
    DriveOpening {
        ask: DriveAsk {
            conn: connection_ask(world, disk.server, disk.hooking.disk.port),
            lun: login.lun,
            words: login.words,
            names: DriveNames {
                initiator: login.initiator.as_slice(),
                target: login.target.as_slice(),
                user: login.user.as_slice(),
                secret: login.secret.as_slice(),
                reverse_user: login.reverse_user.as_slice(),
                reverse_secret: login.reverse_secret.as_slice(),
            },
        },
        target: disk.target.as_slice(),
    }
}

/// The client's own address; 0.0.0.0 where it has none, and no way to any server.
fn own_address(world: &World) -> Ip4
    ensures { result ≡ own_address world.now.net.address }
{
    match world.net.address() {
        Some(address) => address.ip,
        None => Ip4(0),
    }
}

/// What the next open asks for.
pub(crate) fn opening_of<'a>(world: &World, asked: &'a Asked) -> Opening<'a>
    requires w { world.now.w < 16384 }
    requires few { world.now.opens < 16384 }
    requires opens { OpensOwn asked.now }
    ensures live { (live : List Live) → live_by result world.now.opens world.now.time ≡ live_asked (state_of_world world.now live) asked.now }
    ensures kind { chain_kind result ≡ asked_kind asked.now }
    ensures can { FitsAsked asked.now → CanOpen result }
    ensures own { own_by result ≡ port_for (asked_kind asked.now) world.now.w world.now.opens }
    ensures address { AsksFrom world.now.net.address result }
{
    match asked {
        Asked::File(wanted) => file_opening(world, wanted),
        Asked::Disk(disk) => Opening::Drive(drive_opening(world, disk)),
        Asked::Block(_) => unreachable!(),
        Asked::Query(Query::Lease) => Opening::Lease(lease_ask(world)),
        Asked::Query(Query::Echo(host)) => Opening::Echo(PingAsk {
            host: *host,
            ident: world.opens,
        }),
        Asked::Query(Query::Address { name, by, .. } | Query::Host { name, by, .. }) => {
            Opening::Name(lookup_ask(world, name.as_slice(), *by))
        }
    }
}
