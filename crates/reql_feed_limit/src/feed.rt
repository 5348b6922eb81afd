// A limit feed: its elements, and what a change of its table does to them.
ghost use Rattle.std.specs.Prelude.{◌≡◌, ◌+◌, ◌*◌, ◌<◌, ◌≤◌, ◌^◌, List, true, length, map, nat_eq, false, is_some, Some, IfOk, IfSome, IfNone, option_map, vec_capacity};
ghost use Rattle.reql_datum.specs.Members.{find};
ghost use Rattle.reql_datum.specs.View.{plain};
ghost use Rattle.reql_feed_spec.specs.Feeds.{opened_from};
ghost use Rattle.reql_feed_spec.specs.Items.{limit_items};
ghost use Rattle.reql_feed_limit.specs.Boundary as law;
ghost use Rattle.reql_feed_limit.specs.Bounded.{bounds_of};
ghost use Rattle.reql_feed_limit.specs.Deciding.{Stays, Exchanges, Leaves};
ghost use Rattle.reql_feed_limit.specs.Edits.{with_gone, Hits};
ghost use Rattle.reql_feed_limit.specs.Feed.{ArePrintable, IsItsTree, IsTreeOf, KeepsTree, Names, Shows, Stands, entries_of, limit_of, told as told_of};
ghost use Rattle.reql_feed_limit.specs.Items.{item, folded};
ghost use Rattle.reql_feed_limit.specs.Order.{IsSingle, bounds_in, first_in, spot_of, pairs_in};
ghost use Rattle.reql_feed_limit.specs.Seen.{order_of, seen, seen_step};
ghost use Rattle.reql_feed_limit.specs.Selection as sel;
ghost use Rattle.reql_feed_limit.specs.Stands as pairs;
ghost use Rattle.reql_datum.specs.Order.{order as plain_order};
ghost use Rattle.reql_memory.specs.Sorted.{AreRisingBy};
ghost use Rattle.reql_ptree.specs.Tall.{tall};
ghost use Rattle.reql_table.specs.Edits.{told};
ghost use Rattle.reql_table.specs.Seen.{documents_of, indexes_of, numbered_of};
ghost use Rattle.reql_term.specs.Views.{Document, documents_in, index_of};
ghost use Rattle.reql_table.specs.Trees.{HasOwnTrees, has_tree, index_at, tree_pairs};

use crate::bounds::Bounds;
use crate::deciding::{arrive, exchange, leave, nothing};
use crate::element::{Element, LimitStep};
use crate::held::{copies, let_go, put_in, take_out};
use crate::nearest::nearest;
use crate::order::bounds;
use crate::pairs::{element_between, pair_between};
use crate::printing::opening_items;
use crate::reading::{first_elements, within};
use crate::search::{is_after_all, place_left};
use reql_datum::{Items, Memory};
use reql_feed_read::Order;
use reql_ptree::Steps;
use reql_table::{Change, IndexDef, Table};
use std::alloc::Global;
use std::marker::Model;

/// The first so many documents of an order. Contracts see what it follows, the number of the tree
/// of its order, and its elements as they lie in that tree.
///
/// It keeps room for all of its elements, so that a step is installed without memory.
#[derive(Drop)]
pub struct LimitFeed {
    order: Order,
    tree: u128,
    bounds: Bounds,
    held: Vec<Element>,
}

impl Model for LimitFeed {
    ghost use Rattle.std.specs.Prelude.{map, vec_capacity};
    ghost use Rattle.std.specs.Coded.{codes};
    ghost use Rattle.reql_datum.specs.Code.{plain_code};
    ghost use Rattle.reql_term.specs.FormCode.{form_code};
    ghost use Rattle.reql_feed_limit.specs.Feed.{Feed};
    ghost use Rattle.reql_feed_limit.specs.Bounded.{bounds_of};
    ghost use Rattle.reql_feed_limit.specs.Inside.{Keeps};
    ghost use Rattle.reql_feed_limit.specs.Seen.{order_of, seen};

    ghost Value = { Feed };

    ghost coded = { Prim.hlevel (codes, plain_code, form_code) };

    ghost view = { λ f. record { order = order_of f.order; tree = f.tree; elements = map seen f.held.items } };

    ghost invariant = { λ f. Keeps (order_of f.order) f.tree (bounds_of f.bounds) (vec_capacity f.held) };
}

// What comes, unless the elements are full and it comes after all of them.
fn coming(held: &[Element], descending: bool, size: usize, come: Option<Element>) -> Option<Element>
    requires rising { AreRisingBy (sel.facing descending) (map seen held.now) }
    ensures { option_map seen result ≡ law.coming (sel.facing descending) size (map seen held.now) (option_map seen come) }
{
    match come {
        None => None,
        Some(element) => {
            if held.len() < size || !is_after_all(held, descending, &element.pair) {
                Some(element)
            } else {
                None
            }
        }
    }
}

impl LimitFeed {
    /// The feed of an order of a table, with its first elements read from the tree of the order.
    /// It looks at the tree once for each element, and once more where there are fewer.
    ///
    /// The index is no multi index, and has a tree of its own in the table.
    #[tactic(auto, using(crate::proofs::Bridge::its_number, crate::proofs::Bridge::its_keeps))]
    pub fn open<L>(
        alloc: Global,
        order: Order,
        table: &Table,
        steps: &mut Steps<L>,
    ) -> Result<LimitFeed, Memory>
        requires single { IsSingle (order_of order).index }
        requires there { Names order table.now }
        requires own { HasOwnTrees table.now }
        ensures order { IfOk result (λ f. f.order ≡ order_of order) }
        ensures shows { IfOk result (λ f. Shows f (documents_of table.now)) }
        ensures tree { IfOk result (λ f. KeepsTree f table.now) }
        ensures there { IfOk result (λ f. has_tree table.now f.tree ≡ true) }
    {
        let tree = tree_of(table, &order);
        let bounds = bounds(alloc, &order)?;
        let held = first_elements(alloc, &order, &bounds, table, tree, steps)?;
        Ok(LimitFeed {
            order,
            tree,
            bounds,
            held,
        })
    }

    /// An equal feed that later calls on the first don't change.
    pub fn share(&self, alloc: Global) -> Result<LimitFeed, Memory>
        ensures { IfOk result (λ f. f ≡ self.now) }
    {
        let order = self.order.copy()?;
        let bounds = self.bounds.copy()?;
        let held = copies(alloc, &self.held, self.order.most as usize)?;
        Ok(LimitFeed {
            order,
            tree: self.tree,
            bounds,
            held,
        })
    }

    /// The number of the tree of its order: 0 is the primary order's.
    pub fn tree(&self) -> u128
        ensures tree { result ≡ self.now.tree }
        ensures single { IsSingle self.now.order.index }
        ensures numbered { IsTreeOf self.now.tree self.now.order.index }
        ensures small { self.now.order.most < 2 ^ 32 }
    {
        self.tree
    }

    /// The elements, in the order of the feed; where they are what it shows of documents, so are the
    /// entries that they stand for.
    #[tactic(auto, using(crate::proofs::Bridge::entries_shown))]
    pub fn elements(&self) -> &[Element]
        ensures elements { map seen result.now ≡ self.now.elements }
        ensures entries { (docs : List Document) → Shows self.now docs
            → entries_of self.now ≡ first_in self.now.order docs }
    {
        self.held.as_slice()
    }

    /// The opening items, one for each element in order, with places and types where these are
    /// asked for.
    pub fn opening(&self, alloc: Global, offsets: bool, types: bool) -> Result<Items, Memory>
        ensures { IfOk result (λ items. items ≡ opened_from (record { offsets = offsets; types = types }) 0 (documents_in (entries_of self.now))) }
    {
        opening_items(alloc, &self.held, offsets, types)
    }

    // What follows the elements where they are full: the next one of the order after the last.
    fn follower<L>(
        &self,
        alloc: Global,
        after: &Table,
        steps: &mut Steps<L>,
    ) -> Result<Option<Element>, Memory>
        requires indexed { has_tree after.now self.now.tree ≡ true → tree_pairs after.now self.now.tree ≡ sel.index_list (spot_of self.now.order.index) (documents_of after.now) }
        ensures follows { IfOk result (λ o. pairs.Follows (limit_of self.now) self.now.elements (documents_of after.now) (option_map seen o)) }
        ensures counted { has_tree after.now self.now.tree ≡ true → steps.new ≤ steps.old + tall (length (tree_pairs after.now self.now.tree)) }
    {
        if self.held.len() < self.order.most as usize {
            return Ok(None);
        }
        let Some(last) = self.held.last() else {
            return Ok(None);
        };
        let found = nearest(
            alloc,
            &self.order.index,
            after,
            self.tree,
            self.order.down,
            &last.pair,
            steps,
        )?;
        Ok(within(&self.bounds, found))
    }

    // The place of the pair that goes, if it is there.
    fn leaving(&self, alloc: Global, change: &Change) -> Result<Option<usize>, Memory>
        requires rising { AreRisingBy (sel.facing self.now.order.down) self.now.elements }
        ensures hit { IfOk result (λ r. IfSome r (Hits (sel.facing self.now.order.down) (pairs.going (limit_of self.now) (told change.now)) self.now.elements)) }
        ensures absent { IfOk result (λ r. IfNone r (with_gone (sel.facing self.now.order.down) (pairs.going (limit_of self.now) (told change.now)) self.now.elements ≡ self.now.elements)) }
        ensures within { IfOk result (λ r. IfSome r (λ i. i < length self.now.elements)) }
    {
        let gone = pair_between(
            alloc,
            &self.order.index,
            &self.bounds,
            &change.key,
            &change.old,
        )?;
        Ok(place_left(&self.held, self.order.down, &gone))
    }

    // The element that comes, unless the elements are full and it comes after all of them.
    fn arriving(&self, alloc: Global, change: &Change) -> Result<Option<Element>, Memory>
        requires rising { AreRisingBy (sel.facing self.now.order.down) self.now.elements }
        ensures { IfOk result (λ r. option_map seen r ≡ law.coming (sel.facing self.now.order.down) self.now.order.most self.now.elements (pairs.arriving (limit_of self.now) (told change.now))) }
    {
        let come = element_between(
            alloc,
            &self.order.index,
            &self.bounds,
            &change.key,
            &change.new,
        )?;
        Ok(coming(&self.held, self.order.down, self.order.most as usize, come))
    }

    // The step of a change, in pairs.
    fn decided<L>(
        &self,
        alloc: Global,
        change: &Change,
        after: &Table,
        steps: &mut Steps<L>,
    ) -> Result<LimitStep, Memory>
        requires stands { pairs.Stands (limit_of self.now) self.now.elements (told change.now) (documents_of after.now) }
        requires indexed { has_tree after.now self.now.tree ≡ true → tree_pairs after.now self.now.tree ≡ sel.index_list (spot_of self.now.order.index) (documents_of after.now) }
        ensures item { IfOk result (λ s. seen_step s ≡ item self.now.elements (sel.value (limit_of self.now) (documents_of after.now))) }
        ensures installs { IfOk result (λ s. pairs.Installs self.now.order.most self.now.elements (seen_step s)) }
        ensures counted { has_tree after.now self.now.tree ≡ true → steps.new ≤ steps.old + 3 * tall (length (tree_pairs after.now self.now.tree)) }
    {
        let left = self.leaving(alloc, change)?;
        let come = self.arriving(alloc, change)?;
        match left {
            None => self.unmoved(come),
            Some(from) => match come {
                Some(came) => self.exchanged(from, came),
                None => {
                    let next = self.follower(alloc, after, steps)?;
                    self.followed(from, next)
                }
            },
        }
    }

    /// What a change of one document does to the elements. `after` is the table after the change.
    ///
    /// It looks at the tree of its order at most once; where the index was dropped it walks over
    /// the documents.
    pub fn prepare<L>(
        &self,
        alloc: Global,
        change: &Change,
        after: &Table,
        steps: &mut Steps<L>,
    ) -> Result<LimitStep, Memory>
        requires stands { Stands self.now (told change.now) (documents_of after.now) }
        requires tree { KeepsTree self.now after.now }
        ensures item { IfOk result (λ s. told_of (seen_step s) ≡ limit_items (entries_of self.now) (first_in self.now.order (documents_of after.now))) }
        ensures shows { IfOk result (λ s. folded (seen_step s) self.now.elements ≡ pairs_in (is_some self.now.order.index) (first_in self.now.order (documents_of after.now))) }
        ensures installs { IfOk result (λ s. pairs.Installs self.now.order.most self.now.elements (seen_step s)) }
        ensures places { IfOk result (λ s. ArePrintable (seen_step s)) }
        ensures counted { has_tree after.now self.now.tree ≡ true → steps.new ≤ steps.old + 3 * tall (length (tree_pairs after.now self.now.tree)) }
    {
        let _tree = self.tree();
        let step = self.decided(alloc, change, after, steps)?;
        Ok(step)
    }

    // None of the elements goes by the change itself.
    fn unmoved(&self, come: Option<Element>) -> Result<LimitStep, Memory>
        requires rising { AreRisingBy (sel.facing self.now.order.down) self.now.elements }
        ensures { IfOk result (λ s. Stays self.now.order.down self.now.order.most self.now.elements (option_map seen come) (seen_step s)) }
    {
        match come {
            None => Ok(nothing()),
            Some(came) => arrive(&self.held, self.order.down, self.order.most as usize, came),
        }
    }

    // One of the elements goes, and another comes.
    fn exchanged(&self, from: usize, came: Element) -> Result<LimitStep, Memory>
        requires rising { AreRisingBy (sel.facing self.now.order.down) self.now.elements }
        requires within { from < length self.now.elements }
        ensures { IfOk result (λ s. Exchanges self.now.order.down self.now.elements from (seen came) (seen_step s)) }
    {
        exchange(&self.held, self.order.down, from, came)
    }

    // One of the elements goes, and what follows comes.
    fn followed(&self, from: usize, next: Option<Element>) -> Result<LimitStep, Memory>
        requires within { from < length self.now.elements }
        ensures { IfOk result (λ s. Leaves self.now.elements from (option_map seen next) (seen_step s)) }
    {
        leave(&self.held, from, next)
    }

    /// Puts a prepared step into effect. It takes no memory.
    pub fn install(&mut self, step: LimitStep)
        requires { pairs.Installs self.old.order.most self.old.elements (seen_step step) }
        ensures elements { self.new.elements ≡ folded (seen_step step) self.old.elements }
        ensures order { self.new.order ≡ self.old.order }
        ensures tree { self.new.tree ≡ self.old.tree }
    {
        let LimitStep { left, came } = step;
        take_out(&mut self.held, &left);
        let_go(left);
        put_in(&mut self.held, came);
    }
}

// The number of the tree of an order.
fn tree_of(table: &Table, order: &Order) -> u128
    requires there { Names order.now table.now }
    requires own { HasOwnTrees table.now }
    ensures there { has_tree table.now result ≡ true }
    ensures own { IsItsTree result (order_of order.now).index table.now }
    ensures rising { AreRisingBy plain_order (documents_of table.now) }
{
    let _rising = table.has_tree(0);
    match &order.index {
        None => 0,
        Some(def) => tree_of_index(table, def),
    }
}

#[tactic(auto, using(crate::proofs::Numbers::its_other, crate::proofs::Numbers::its_index, crate::proofs::Numbers::its_there, crate::proofs::Numbers::no_tree))]
fn tree_of_index(table: &Table, def: &IndexDef) -> u128
    requires there { find def.now.name (indexes_of table.now) ≡ Some (index_of def.now) }
    requires own { HasOwnTrees table.now }
    ensures there { has_tree table.now result ≡ true }
    ensures other { nat_eq result 0 ≡ false }
    ensures own { index_at result (numbered_of table.now) ≡ Some (index_of def.now) }
{
    match table.tree_of(Some(&def.name)) {
        Some(tree) => tree,
        None => unreachable!(),
    }
}
