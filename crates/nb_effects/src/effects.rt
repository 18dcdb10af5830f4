ghost use Rattle.std.specs.Prelude.{◌≡◌, None};
ghost use Rattle.nb_effects.specs.Effects.{IsNothing};

use crate::Asked;
use arrayvec::ArrayVec;
use nb_terms::Cause;

/// A message that an entry asks for: it leaves by `slot`. Its bytes are the load's, or without one
/// bytes `from` to `to` of the message being delivered. A load moves from its node and back, so
/// large bytes stand in a box or a place of it.
#[derive(Drop)]
pub struct Emit<L> {
    pub slot: u8,
    pub tag: u8,
    pub a: u32,
    pub b: u32,
    pub from: u32,
    pub to: u32,
    pub load: Option<L>,
}

/// A new object that an entry asks for; its slot 0 is plugged to the maker's `slot`. The node moves
/// into the graph's table, so one of many kinds, or a large one, is to be boxed.
#[derive(Drop)]
pub struct Make<N> {
    pub node: N,
    pub slot: u8,
}

/// At most two; `second` is None where `first` is.
#[derive(Drop)]
pub struct Few<E> {
    pub first: Asked<E>,
    pub second: Asked<E>,
}

impl<L> Emit<L> {
    /// A message that isn't asked for.
    fn blank() -> Emit<L> {
        Emit {
            slot: 0,
            tag: 0,
            a: 0,
            b: 0,
            from: 0,
            to: 0,
            load: None,
        }
    }
}

/// What an entry asks for. It runs in the order makes, downs, ups, closes. `took` says how many
/// bytes of its message an entry from below has taken. The graph makes one at each call of a node
/// and lends it to all that runs it.
#[derive(Drop)]
pub struct Fx<N, L> {
    pub makes: Option<Make<N>>,
    pub downs: Few<Emit<L>>,
    pub ups: Few<Emit<L>>,
    pub closes: ArrayVec<(u8, Cause), 4>,
    pub took: u32,
}

impl<N, L> Fx<N, L> {
    /// Nothing is asked.
    pub fn none() -> Fx<N, L>
        ensures { IsNothing result }
    {
        Fx {
            makes: None,
            downs: Few {
                first: Asked::none(Emit::blank()),
                second: Asked::none(Emit::blank()),
            },
            ups: Few {
                first: Asked::none(Emit::blank()),
                second: Asked::none(Emit::blank()),
            },
            closes: ArrayVec::new(),
            took: 0,
        }
    }
}

impl<N: Drop, L: Drop> Fx<N, L> {
    /// Asks for nothing any more. Where nothing is asked for that is all that is read.
    #[inline(always)]
    pub fn empty(&mut self)
        ensures { IsNothing self.new }
    {
        if self.makes.is_some() {
            self.makes = None;
        }
        self.downs.first.clear();
        self.downs.second.clear();
        self.ups.first.clear();
        self.ups.second.clear();
        if !self.closes.is_empty() {
            self.closes.clear();
        }
        self.took = 0;
    }
}
