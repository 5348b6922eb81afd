// A persistent map in the order of its keys.
ghost use Rattle.std.specs.Prelude.{◌≡◌, ◌+◌, ◌*◌, ◌≤◌, [], length, take, drop, reverse, slice_get, IfOk, IfErr, is_ok, option_map, if◌then◌else◌};
ghost use Rattle.std.specs.List.{count_by};
ghost use Rattle.reql_datum.specs.View.{plain};
ghost use Rattle.reql_ptree.specs.Next.{behind, next_of, prev_of};
ghost use Rattle.reql_ptree.specs.Pairs.{AreRising, find, put, without};
ghost use Rattle.reql_ptree.specs.Range.{range_of};
ghost use Rattle.reql_ptree.specs.Seen.{pair_seen};
ghost use Rattle.reql_ptree.specs.Tall.{tall};

use crate::in_place::top_put;
use crate::look::{count_in, next_in, prev_in, value_in};
use crate::put::side_put;
use crate::range::{Cut, Range, range_in};
use crate::rank::place_in;
use crate::remove::side_remove;
use crate::remove_in_place::top_remove;
use crate::side::Side;
use crate::steps::Steps;
use reql_datum::{Datum, Items, Memory, Refused};
use std::alloc::Global;
use std::marker::Model;

/// A map from keys to documents. Contracts see the list of its pairs, rising by key.
///
/// It is persistent: a call that changes it gives a new tree, which shares all but the way to the
/// change. A step is one node, or one pair of a chunk, looked at.
#[derive(Drop)]
pub struct Tree {
    alloc: Global,
    top: Side,
}

impl Model for Tree {
    ghost use Rattle.std.specs.Prelude.{List};
    ghost use Rattle.std.specs.Coded.{coded_list, coded×};
    ghost use Rattle.reql_datum.specs.Plain.{Plain};
    ghost use Rattle.reql_datum.specs.Code.{plain_code};

    ghost Value = { List (Plain × Plain) };

    ghost coded = { coded_list (coded× plain_code plain_code) };

    ghost view = { λ a. a.top.0 };
}

impl Tree {
    /// The tree of nothing.
    pub fn new(alloc: Global) -> Tree
        ensures { result ≡ [] }
    {
        Tree {
            alloc,
            top: Side::empty(),
        }
    }

    /// An equal tree, which shares all nodes. Memory where the count of sharers is full.
    pub fn share(&self) -> Result<Tree, Memory>
        ensures { IfOk result (λ tree. tree ≡ self.now) }
    {
        let top = self.top.share()?;
        Ok(Tree {
            alloc: self.alloc,
            top,
        })
    }

    /// How many pairs it has.
    pub fn len(&self) -> u64
        ensures { result ≡ length self.now }
    {
        self.top.len()
    }

    /// The value at a key.
    pub fn get<L>(&self, key: &Datum, steps: &mut Steps<L>) -> Option<&Datum>
        ensures found { option_map (λ d. plain d.now) result ≡ find (plain key.now) self.now }
        ensures counted { steps.new ≤ steps.old + tall (length self.now) }
    {
        value_in(&self.top, key, steps)
    }

    /// A tree with a value at a key. Refused for want of memory, the pair is handed back.
    pub fn put<L>(
        &self,
        key: Datum,
        value: Datum,
        steps: &mut Steps<L>,
    ) -> Result<Tree, Refused<(Datum, Datum)>>
        ensures pairs { IfOk result (λ tree. tree ≡ put (plain key) (plain value) self.now) }
        ensures back { IfErr result (λ refused. refused.back ≡ (key, value)) }
        ensures counted { steps.new ≤ steps.old + (6 * tall (length self.now) + 6) }
    {
        let _facts = self.top.height();
        match side_put(self.alloc, &self.top, &key, &value, steps) {
            Ok(top) => Ok(Tree {
                alloc: self.alloc,
                top,
            }),
            Err(_) => Err(Refused { back: (key, value) }),
        }
    }

    /// Puts a value at a key, in place where nobody shares the tree. Refused for want of memory, the
    /// tree is as it was and the pair is handed back.
    pub fn put_own<L>(
        &mut self,
        key: Datum,
        value: Datum,
        steps: &mut Steps<L>,
    ) -> Result<(), Refused<(Datum, Datum)>>
        ensures pairs { self.new ≡ (if is_ok result then put (plain key) (plain value) self.old
            else self.old) }
        ensures back { IfErr result (λ refused. refused.back ≡ (key, value)) }
        ensures counted { steps.new ≤ steps.old + (6 * tall (length self.old) + 6) }
    {
        if let Err(_) = top_put(self.alloc, &mut self.top, &key, &value, steps) {
            return Err(Refused { back: (key, value) });
        }
        Ok(())
    }

    /// A tree without a key.
    pub fn remove<L>(&self, key: &Datum, steps: &mut Steps<L>) -> Result<Tree, Memory>
        ensures pairs { IfOk result (λ tree. tree ≡ without (plain key.now) self.now) }
        ensures counted { steps.new ≤ steps.old + (6 * tall (length self.now) + 6) }
    {
        let _facts = self.top.height();
        let top = side_remove(self.alloc, &self.top, key, steps)?;
        Ok(Tree {
            alloc: self.alloc,
            top,
        })
    }

    /// Leaves out a key, in place where nobody shares the tree. Refused for want of memory, the tree
    /// is as it was.
    pub fn remove_own<L>(&mut self, key: &Datum, steps: &mut Steps<L>) -> Result<(), Memory>
        ensures pairs { self.new ≡ (if is_ok result then without (plain key.now) self.old
            else self.old) }
        ensures counted { steps.new ≤ steps.old + (6 * tall (length self.old) + 6) }
    {
        top_remove(self.alloc, &mut self.top, key, steps)
    }

    /// The pair of the first key at or above this one, the key itself left out if `past`.
    pub fn next_from<L>(
        &self,
        key: &Datum,
        past: bool,
        steps: &mut Steps<L>,
    ) -> Option<(&Datum, &Datum)>
        ensures found { option_map pair_seen result ≡ next_of (plain key.now) past self.now }
        ensures counted { steps.new ≤ steps.old + tall (length self.now) }
    {
        next_in(&self.top, key, past, steps)
    }

    /// The pair of the last key at or below this one, the key itself left out if `past`.
    pub fn prev_from<L>(
        &self,
        key: &Datum,
        past: bool,
        steps: &mut Steps<L>,
    ) -> Option<(&Datum, &Datum)>
        ensures found { option_map pair_seen result ≡ prev_of (plain key.now) past self.now }
        ensures counted { steps.new ≤ steps.old + tall (length self.now) }
    {
        prev_in(&self.top, key, past, steps)
    }

    /// How many keys are below this one, which counts itself if `past`.
    pub fn count_below<L>(&self, key: &Datum, past: bool, steps: &mut Steps<L>) -> u64
        ensures found { result ≡ count_by (behind (plain key.now) past) self.now }
        ensures counted { steps.new ≤ steps.old + tall (length self.now) }
    {
        count_in(&self.top, key, past, steps)
    }

    /// The pair at a place among all pairs, counted from 0.
    pub fn at<L>(&self, place: u64, steps: &mut Steps<L>) -> Option<(&Datum, &Datum)>
        ensures found { option_map pair_seen result ≡ slice_get self.now place }
        ensures counted { steps.new ≤ steps.old + tall (length self.now) }
    {
        place_in(&self.top, place, steps)
    }

    /// The values at the keys from one to another, an end itself left out if it is open.
    pub fn range<L>(
        &self,
        low: &Datum,
        low_open: bool,
        high: &Datum,
        high_open: bool,
        steps: &mut Steps<L>,
    ) -> Result<Items, Memory>
        ensures values { IfOk result (λ items. items ≡ range_of (plain low.now) low_open
            (plain high.now) high_open self.now) }
        ensures counted { steps.new ≤ steps.old + (2 * tall (length self.now) + length
            (range_of (plain low.now) low_open (plain high.now) high_open self.now)) }
    {
        let range = Range {
            low: Some(Cut {
                key: low,
                at: low_open,
            }),
            high: Some(Cut {
                key: high,
                at: !high_open,
            }),
            falling: false,
            most: self.top.len(),
        };
        range_in(self.alloc, &self.top, &range, steps)
    }

    /// The first values of a range, at most so many.
    pub fn range_first<L>(
        &self,
        low: &Datum,
        low_open: bool,
        high: &Datum,
        high_open: bool,
        most: u64,
        steps: &mut Steps<L>,
    ) -> Result<Items, Memory>
        ensures values { IfOk result (λ items. items ≡ take most
            (range_of (plain low.now) low_open (plain high.now) high_open self.now)) }
        ensures counted { steps.new ≤ steps.old + (2 * tall (length self.now) + length
            (take most (range_of (plain low.now) low_open (plain high.now) high_open self.now))) }
    {
        let range = Range {
            low: Some(Cut {
                key: low,
                at: low_open,
            }),
            high: Some(Cut {
                key: high,
                at: !high_open,
            }),
            falling: false,
            most,
        };
        range_in(self.alloc, &self.top, &range, steps)
    }

    /// The last values of a range, the last first, at most so many.
    pub fn range_last<L>(
        &self,
        low: &Datum,
        low_open: bool,
        high: &Datum,
        high_open: bool,
        most: u64,
        steps: &mut Steps<L>,
    ) -> Result<Items, Memory>
        ensures values { IfOk result (λ items. items ≡ take most
            (reverse (range_of (plain low.now) low_open (plain high.now) high_open self.now))) }
        ensures counted { steps.new ≤ steps.old + (2 * tall (length self.now) + length
            (take most (range_of (plain low.now) low_open (plain high.now) high_open self.now))) }
    {
        let range = Range {
            low: Some(Cut {
                key: low,
                at: low_open,
            }),
            high: Some(Cut {
                key: high,
                at: !high_open,
            }),
            falling: true,
            most,
        };
        range_in(self.alloc, &self.top, &range, steps)
    }

    // The keys rise.
    fn rising(&self)
        ensures { AreRising self.now }
    {
        let _facts = self.top.height();
    }

    /// The values of a range from a place in it on, at most so many. What stands before that place
    /// is counted, and not read.
    pub fn range_from<L>(
        &self,
        low: &Datum,
        low_open: bool,
        high: &Datum,
        high_open: bool,
        from: u64,
        most: u64,
        steps: &mut Steps<L>,
    ) -> Result<Items, Memory>
        ensures values { IfOk result (λ items. items ≡ take most (drop from
            (range_of (plain low.now) low_open (plain high.now) high_open self.now))) }
        ensures counted { steps.new ≤ steps.old + (4 * tall (length self.now) + length
            (take most (drop from
            (range_of (plain low.now) low_open (plain high.now) high_open self.now)))) }
    {
        let _rises = self.rising();
        let _all = self.len();
        let before = self.count_below(low, low_open, steps);
        let Some(place) = before.checked_add(from) else {
            return Ok(Items::new(self.alloc));
        };
        let Some((key, _)) = self.at(place, steps) else {
            return Ok(Items::new(self.alloc));
        };
        self.range_first(key, false, high, high_open, most, steps)
    }

    /// The values of a range in falling order, from a place in that on, at most so many.
    pub fn range_back<L>(
        &self,
        low: &Datum,
        low_open: bool,
        high: &Datum,
        high_open: bool,
        from: u64,
        most: u64,
        steps: &mut Steps<L>,
    ) -> Result<Items, Memory>
        ensures values { IfOk result (λ items. items ≡ take most (drop from (reverse
            (range_of (plain low.now) low_open (plain high.now) high_open self.now)))) }
        ensures counted { steps.new ≤ steps.old + (4 * tall (length self.now) + length
            (take most (drop from (reverse
            (range_of (plain low.now) low_open (plain high.now) high_open self.now))))) }
    {
        let _rises = self.rising();
        let through = self.count_below(high, !high_open, steps);
        if from >= through {
            return Ok(Items::new(self.alloc));
        }
        let Some((key, _)) = self.at(through - from - 1, steps) else {
            unreachable!()
        };
        self.range_last(low, low_open, key, false, most, steps)
    }
}
