// The trees of a table by their numbers.
ghost use Rattle.std.specs.Prelude.{◌≡◌, ◌+◌, ◌≤◌, List, length, map, true, option_map};
ghost use Rattle.std.specs.List.{AllByRecursion};
ghost use Rattle.reql_memory.specs.Sorted.{AreRisingBy};
ghost use Rattle.reql_datum.specs.Order.{order};
ghost use Rattle.reql_datum.specs.View.{plain};
ghost use Rattle.reql_ptree.specs.Next.{next_of, prev_of};
ghost use Rattle.reql_ptree.specs.Seen.{pair_seen};
ghost use Rattle.reql_ptree.specs.Tall.{tall};
ghost use Rattle.reql_term.specs.Views.{Document};
ghost use Rattle.reql_table.specs.Seen.{documents_of, numbered, GivesNumbers, IsFiled};
ghost use Rattle.reql_table.specs.Trees.{HasOwnTrees, index_tree, pairs_at, tree_pairs, number_of, has_tree};

use crate::filed::FiledIndex;
use crate::table::Table;
use reql_datum::{Datum, Name};
use reql_ptree::{Steps, Tree};

// The tree of the index with a number.
#[tactic(auto, using(crate::proofs::Named::filed_on))]
fn tree_in(indexes: &[FiledIndex], number: u128) -> Option<&Tree>
    ensures { (docs : List Document) → AllByRecursion (IsFiled docs) indexes.now
        → option_map (λ t. t.now) result
        ≡ index_tree docs number (map numbered indexes.now) }
{
    for index in indexes {
        if index.number == number {
            return Some(&index.entries);
        }
    }
    None
}

impl Table {
    // The tree of a number.
    fn tree_at(&self, tree: u128) -> Option<&Tree>
        ensures { option_map (λ t. t.now) result ≡ pairs_at self.now tree }
    {
        if tree == 0 {
            return Some(self.tree());
        }
        tree_in(self.all_indexes(), tree)
    }

    /// The number of the tree in which the entries of an index lie; 0 for the primary order, which
    /// no index names. None exactly where no index has the name.
    pub fn tree_of(&self, index: Option<&Name>) -> Option<u128>
        ensures { result ≡ number_of (option_map (λ n. n.now) index.entry) self.now }
    {
        match index {
            None => Some(0),
            Some(name) => match self.filed(name.as_str()) {
                None => None,
                Some(index) => Some(index.number),
            },
        }
    }

    /// Whether a tree is there: that of the primary order is, and that of each index by its number.
    #[tactic(auto, using(crate::proofs::Owned::own_trees))]
    pub fn has_tree(&self, tree: u128) -> bool
        ensures there { result ≡ has_tree self.now tree }
        ensures rising { AreRisingBy order (documents_of self.now) }
        ensures own { HasOwnTrees self.now }
        ensures numbers { GivesNumbers self.now }
    {
        let _tree = self.tree();
        let _indexes = self.all_indexes();
        self.tree_at(tree).is_some()
    }

    /// The first pair at or above this one in a tree, the pair itself left out if `past`, with its
    /// document. In the primary order a pair is a key; in an index it is the list of an entry's
    /// value and its primary key.
    pub fn next_pair<L>(
        &self,
        tree: u128,
        pair: &Datum,
        past: bool,
        steps: &mut Steps<L>,
    ) -> Option<(&Datum, &Datum)>
        requires there { has_tree self.now tree ≡ true }
        ensures found { option_map pair_seen result
            ≡ next_of (plain pair.now) past (tree_pairs self.now tree) }
        ensures counted { steps.new ≤ steps.old + tall (length (tree_pairs self.now tree)) }
    {
        let Some(pairs) = self.tree_at(tree) else {
            unreachable!()
        };
        pairs.next_from(pair, past, steps)
    }

    /// The last pair at or below this one in a tree, the pair itself left out if `past`, with its
    /// document.
    pub fn prev_pair<L>(
        &self,
        tree: u128,
        pair: &Datum,
        past: bool,
        steps: &mut Steps<L>,
    ) -> Option<(&Datum, &Datum)>
        requires there { has_tree self.now tree ≡ true }
        ensures found { option_map pair_seen result
            ≡ prev_of (plain pair.now) past (tree_pairs self.now tree) }
        ensures counted { steps.new ≤ steps.old + tall (length (tree_pairs self.now tree)) }
    {
        let Some(pairs) = self.tree_at(tree) else {
            unreachable!()
        };
        pairs.prev_from(pair, past, steps)
    }
}
