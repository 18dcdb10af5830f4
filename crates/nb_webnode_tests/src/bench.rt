//! A graph's nodes for the tests: fetches, and users that keep what goes up.

ghost use Rattle.std.specs.Prelude.{◌≡◌, ◌+◌, ◌<◌, ◌≤◌, [], length, None, IfOk, OnOk, refl};
ghost use Rattle.nb_graph.specs.Effects.{IsNothing};
ghost use Rattle.nb_webnode_tests.specs.Benches.{words_carrier, words_first, words_second, rank_of_bench, kind_of_bench, BenchStands, KeepsAll, PassesDown};

use nb_graph::{Emit, Fx, Msg, Node, Parts};
use nb_terms::{Cause, NoMemory};
use nb_webnodes::{CarriesWeb, MOVED, Web};
use nb_wire::Text;
use std::alloc::Global;

/// What the messages of these nodes carry.
#[derive(Drop)]
pub struct Words(pub Text);

impl Parts for Words {
    ghost first = { words_first };

    ghost second = { words_second };

    fn parts(&self) -> (&[u8], &[u8]) {
        (self.0.as_slice(), &[])
    }
}

impl CarriesWeb for Words {
    ghost web = { words_carrier };

    ghost web_parts = { λ load. refl };

    fn carry_text(text: Text) -> Words {
        Words(text)
    }

    fn into_text(self) -> Option<Text> {
        Some(self.0)
    }
}

/// A user of a fetch: it keeps the bytes of the body and the text of a move. What comes from above it hands down.
#[derive(Drop)]
pub struct Keeper {
    pub body: Vec<u8>,
    pub moved: Vec<u8>,
    pub closes_at: usize,
}

impl Keeper {
    fn on_up(&mut self, msg: &Msg<'_>, fx: &mut Fx<Bench, Words>) -> Result<(), NoMemory>
        requires { IsNothing fx.old }
        ensures few { KeepsAll (length msg.now.first.now + length msg.now.second.now) fx.new }
        ensures some { 0 < length msg.now.first.now + length msg.now.second.now → 0 < fx.new.took }
    {
        fx.took = whole(msg);
        let kept = if msg.tag == MOVED {
            &mut self.moved
        } else {
            &mut self.body
        };
        kept.extend_from_slice(msg.first)?;
        kept.extend_from_slice(msg.second)?;
        if self.body.len() >= self.closes_at {
            fx.closes.push((1, Cause::default()));
        }
        Ok(())
    }

    fn on_down(&self, msg: &Msg<'_>, fx: &mut Fx<Bench, Words>)
        requires { IsNothing fx.old }
        ensures { PassesDown (length msg.now.first.now + length msg.now.second.now) fx.new }
    {
        fx.downs.first.put(Emit {
            slot: 1,
            tag: msg.tag,
            a: msg.a,
            b: msg.b,
            from: 0,
            to: whole(msg),
            load: None,
        });
    }
}

/// All of a message, or as much as a number of 32 bits can say.
fn whole(msg: &Msg<'_>) -> u32
    ensures within { result ≤ length msg.now.first.now + length msg.now.second.now }
    ensures some { 0 < length msg.now.first.now + length msg.now.second.now → 0 < result }
{
    (msg.first.len() + msg.second.len()).min(u32::MAX as usize) as u32
}

/// A node of the tests.
#[derive(Drop)]
pub enum Bench {
    Keeper(Keeper),
    Web(Box<Web>),
}

impl Bench {
    /// A fetch that waits for what to ask for.
    pub fn web(alloc: Global) -> Result<Bench, NoMemory>
        ensures stands { IfOk result (λ k. BenchStands k []) }
    {
        let waiting = Web::new(alloc)?;
        let web = Box::new(alloc, waiting)?;
        Ok(Bench::Web(web))
    }
}

impl Node for Bench {
    type Load = Words;

    ghost rank_of = { rank_of_bench };

    ghost kind_of = { kind_of_bench };

    ghost mark_of = { λ _. 0 };

    ghost harvests = { λ _ r _. r ≡ None };

    ghost stands = { BenchStands };

    fn rank(&self) -> u8 {
        match self {
            Bench::Keeper(_) => 5,
            Bench::Web(_) => 3,
        }
    }

    fn kind(&self) -> u8 {
        match self {
            Bench::Keeper(_) => 1,
            Bench::Web(_) => 2,
        }
    }

    fn on_up(
        &mut self,
        slot: u8,
        msg: &Msg<'_>,
        _now: u64,
        fx: &mut Fx<Bench, Words>,
    ) -> Result<(), NoMemory> {
        match self {
            Bench::Keeper(keeper) => keeper.on_up(msg, fx),
            Bench::Web(web) => web.on_up(slot, msg, fx),
        }
    }

    fn on_down(
        &mut self,
        msg: &Msg<'_>,
        _now: u64,
        fx: &mut Fx<Bench, Words>,
    ) -> Result<(), NoMemory> {
        match self {
            Bench::Keeper(keeper) => {
                keeper.on_down(msg, fx);
                Ok(())
            }
            Bench::Web(web) => web.on_down(msg, fx),
        }
    }

    fn on_close(&mut self, slot: u8, cause: &Cause, _now: u64, fx: &mut Fx<Bench, Words>) {
        match self {
            Bench::Keeper(_) => {}
            Bench::Web(web) => web.on_close(slot, cause, fx),
        }
    }

    fn on_time(&mut self, _now: u64, fx: &mut Fx<Bench, Words>) -> Result<(), NoMemory> {
        match self {
            Bench::Keeper(_) => {}
            Bench::Web(web) => web.on_time(fx),
        }
        Ok(())
    }

    fn regain(&mut self, load: Words) {
        match self {
            Bench::Keeper(_) => {}
            Bench::Web(web) => web.regain::<Bench, Words>(load),
        }
    }

    fn harvest(&mut self) -> Option<Words> {
        None
    }
}
