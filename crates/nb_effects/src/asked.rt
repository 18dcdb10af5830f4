ghost use Rattle.std.specs.Prelude.{◌≡◌, Some, None};

use std::marker::Model;
use std::mem;

/// What is asked for, or nothing. What was asked for before stays where it stood, so that nothing is written
/// where nothing is asked for.
#[derive(Drop)]
pub struct Asked<E> {
    /// Whether it is asked for.
    pub is: bool,
    /// What is asked for, or was before.
    pub what: E,
}

impl<E> Model for Asked<E> {
    ghost use Rattle.std.specs.Prelude.{Option};
    ghost use Rattle.nb_effects.specs.Asked.{asked};

    ghost Value = { Option E };

    ghost view = { λ a. asked a.is a.what };
}

impl<E> Asked<E> {
    /// Nothing is asked for. `blank` has no meaning.
    pub fn none(blank: E) -> Asked<E>
        ensures { result ≡ None }
    {
        Asked {
            is: false,
            what: blank,
        }
    }

    /// Nothing is asked for any more.
    #[inline(always)]
    pub fn clear(&mut self)
        ensures { self.new ≡ None }
    {
        self.is = false;
    }
}

impl<E: Drop> Asked<E> {
    /// This is asked for. What stood there was run, and isn't dropped again.
    #[inline(always)]
    pub fn put(&mut self, what: E)
        requires { self.old ≡ None }
        ensures { self.new ≡ Some what }
    {
        mem::forget(mem::replace(&mut self.what, what));
        self.is = true;
    }
}
