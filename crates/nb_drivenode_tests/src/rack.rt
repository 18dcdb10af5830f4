//! A graph's nodes for the tests: sessions, logical units, and users that keep what goes up.

ghost use Rattle.std.specs.Prelude.{◌≡◌, ◌+◌, ◌<◌, ◌≤◌, [], length, None, IfOk, OnOk, refl};
ghost use Rattle.nb_graph.specs.Effects.{IsNothing};
ghost use Rattle.nb_drivenode_tests.specs.Racks.{cargo_carrier, cargo_first, cargo_second, rank_of_rack, kind_of_rack, RackStands, TakerKeeps, TakerPasses};

use nb_drivenodes::{CarriesText, DriveTag, Iscsi, LogicalUnit};
use nb_graph::{Emit, Fx, Msg, Node, Parts};
use nb_terms::{Cause, NoMemory};
use nb_wire::Text;
use std::alloc::Global;

/// What the messages of these nodes carry.
#[derive(Drop)]
pub struct Cargo(pub Text);

impl Parts for Cargo {
    ghost first = { cargo_first };

    ghost second = { cargo_second };

    fn parts(&self) -> (&[u8], &[u8]) {
        (self.0.as_slice(), &[])
    }
}

impl CarriesText for Cargo {
    ghost texts = { cargo_carrier };

    ghost text_parts = { λ load. refl };

    fn load_of(text: Text) -> Cargo {
        Cargo(text)
    }

    fn text_of(self) -> Option<Text> {
        Some(self.0)
    }
}

/// A user of a drive: it keeps the bytes of blocks, and each size and kind of CHAP that an answer brought. What comes
/// from above it hands down.
#[derive(Drop)]
pub struct Taker {
    pub blocks: Vec<u8>,
    pub answers: Vec<(u32, u32)>,
}

impl Taker {
    fn on_up(&mut self, msg: &Msg<'_>, fx: &mut Fx<Rack, Cargo>) -> Result<(), NoMemory>
        requires { IsNothing fx.old }
        ensures few { TakerKeeps (length msg.now.first.now + length msg.now.second.now) fx.new }
        ensures some { 0 < length msg.now.first.now + length msg.now.second.now → 0 < fx.new.took }
    {
        fx.took = whole(msg);
        if msg.tag == u8::from(DriveTag::Answered) {
            self.answers.push((msg.a, msg.b))?;
        }
        self.blocks.extend_from_slice(msg.first)?;
        self.blocks.extend_from_slice(msg.second)?;
        Ok(())
    }

    fn on_down(&self, msg: &Msg<'_>, fx: &mut Fx<Rack, Cargo>)
        requires { IsNothing fx.old }
        ensures { TakerPasses (length msg.now.first.now + length msg.now.second.now) fx.new }
    {
        fx.downs.first.put(Emit {
            slot: 1,
            tag: msg.tag,
            a: msg.a,
            b: msg.b,
            from: 0,
            to: whole(msg),
            load: None,
        });
    }
}

/// All of a message, or as much as a number of 32 bits can say.
fn whole(msg: &Msg<'_>) -> u32
    ensures within { result ≤ length msg.now.first.now + length msg.now.second.now }
    ensures some { 0 < length msg.now.first.now + length msg.now.second.now → 0 < result }
{
    (msg.first.len() + msg.second.len()).min(u32::MAX as usize) as u32
}

/// A node of the tests.
#[derive(Drop)]
pub enum Rack {
    Taker(Taker),
    Unit(Box<LogicalUnit>),
    Session(Box<Iscsi>),
}

impl Rack {
    /// A session that waits for what to ask for.
    pub fn session(alloc: Global) -> Result<Rack, NoMemory>
        ensures stands { IfOk result (λ k. RackStands k []) }
    {
        let waiting = Iscsi::new(alloc)?;
        let session = Box::new(alloc, waiting)?;
        Ok(Rack::Session(session))
    }

    /// A unit that waits for what to ask for.
    pub fn unit(alloc: Global) -> Result<Rack, NoMemory>
        ensures stands { IfOk result (λ k. RackStands k []) }
    {
        let waiting = LogicalUnit::new(alloc);
        let unit = Box::new(alloc, waiting)?;
        Ok(Rack::Unit(unit))
    }
}

impl Node for Rack {
    type Load = Cargo;

    ghost rank_of = { rank_of_rack };

    ghost kind_of = { kind_of_rack };

    ghost mark_of = { λ _. 0 };

    ghost harvests = { λ _ r _. r ≡ None };

    ghost stands = { RackStands };

    fn rank(&self) -> u8 {
        match self {
            Rack::Taker(_) => 7,
            Rack::Unit(_) => 5,
            Rack::Session(_) => 3,
        }
    }

    fn kind(&self) -> u8 {
        match self {
            Rack::Taker(_) => 1,
            Rack::Unit(_) => 2,
            Rack::Session(_) => 3,
        }
    }

    fn on_up(
        &mut self,
        slot: u8,
        msg: &Msg<'_>,
        _now: u64,
        fx: &mut Fx<Rack, Cargo>,
    ) -> Result<(), NoMemory> {
        match self {
            Rack::Taker(taker) => taker.on_up(msg, fx),
            Rack::Unit(unit) => unit.on_up(slot, msg, fx),
            Rack::Session(session) => session.on_up(slot, msg, fx),
        }
    }

    fn on_down(
        &mut self,
        msg: &Msg<'_>,
        _now: u64,
        fx: &mut Fx<Rack, Cargo>,
    ) -> Result<(), NoMemory> {
        match self {
            Rack::Taker(taker) => {
                taker.on_down(msg, fx);
                Ok(())
            }
            Rack::Unit(unit) => unit.on_down(msg, fx),
            Rack::Session(session) => session.on_down(msg, fx),
        }
    }

    fn on_close(&mut self, slot: u8, cause: &Cause, _now: u64, fx: &mut Fx<Rack, Cargo>) {
        match self {
            Rack::Taker(_) => {}
            Rack::Unit(unit) => unit.on_close(slot, cause, fx),
            Rack::Session(session) => session.on_close(slot, cause, fx),
        }
    }

    fn on_time(&mut self, _now: u64, fx: &mut Fx<Rack, Cargo>) -> Result<(), NoMemory> {
        match self {
            Rack::Taker(_) => {}
            Rack::Unit(unit) => unit.on_time(fx),
            Rack::Session(session) => session.on_time(fx),
        }
        Ok(())
    }

    fn regain(&mut self, load: Cargo) {
        match self {
            Rack::Taker(_) => {}
            Rack::Unit(unit) => unit.regain::<Rack, Cargo>(load),
            Rack::Session(session) => session.regain::<Rack, Cargo>(load),
        }
    }

    fn harvest(&mut self) -> Option<Cargo> {
        None
    }
}
