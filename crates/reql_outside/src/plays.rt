// Lists that are played in order.
ghost use Rattle.std.specs.Prelude.{◌≡◌, get_or};
ghost use Rattle.reql_outside.specs.Source.{PlaysOn, Gives, opening, source};

use std::marker::Model;

/// A list that is played in order, with what comes past its end for good, and the calls that fail.
#[derive(Drop)]
pub(crate) struct Plays<T> {
    list: Vec<T>,
    rest: T,
    given: u64,
    calls: u64,
    fails: Vec<u64>,
    faults: u64,
}

impl<T> Model for Plays<T> {
    ghost use Rattle.reql_outside.specs.Source.{Played};

    ghost Value = { Played T };

    ghost view = { λ p. record {
      list = p.list.items;
      rest = p.rest;
      given = p.given;
      calls = p.calls;
      fails = p.fails.items;
      faults = p.faults;
    } };
}

impl<T: Copy + Drop> Plays<T> {
    /// Plays these in order, and the rest for good; the k-th call, from 0, fails where k is among `fails`.
    /// It takes no memory.
    pub(crate) fn new(list: Vec<T>, rest: T, fails: Vec<u64>) -> Plays<T>
        ensures { result ≡ opening list.items rest fails.items }
    {
        Plays {
            list,
            rest,
            given: 0,
            calls: 0,
            fails,
            faults: 0,
        }
    }

    // The one at a place.
    fn at(&self, place: u64) -> T
        ensures { result ≡ get_or self.now.list place self.now.rest }
    {
        match self.list.get(place as usize) {
            Some(item) => *item,
            None => self.rest,
        }
    }

    /// Plays the next one, or fails.
    pub(crate) fn next(&mut self) -> Option<T>
        ensures plays { PlaysOn self.old self.new result }
        ensures gives { Gives (source self.old) (source self.new) result }
    {
        let given = self.given;
        let fails = self.fails.contains(&self.calls);
        self.calls = self.calls.saturating_add(1);
        if fails {
            self.faults = self.faults.saturating_add(1);
            return None;
        }
        let item = self.at(given);
        self.given = given.saturating_add(1);
        Some(item)
    }
}
