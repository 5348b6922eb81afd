// What the feeds of a table will be.
use crate::following::Following;
use crate::keyed::Keyed;
use crate::shadow::Shadow;
use std::marker::Model;

/// Changes of one command of which the feeds of a table were told beside themselves. Contracts see
/// for each feed what it has become, if it has, and what is to be queued for it.
#[derive(Drop)]
pub struct Draft<F: Following> {
    pub(crate) shadows: Vec<Shadow<Keyed<F>>>,
}

impl<F: Following> Model for Draft<F> {
    ghost use Rattle.std.specs.Prelude.{List};
    ghost use Rattle.std.specs.Coded.{coded_list};
    ghost use Rattle.reql_feeds.specs.Ahead.{Pending, pending_code};
    ghost use Rattle.reql_feeds.specs.Shadows.{all_pending};

    ghost Value = { List (Pending F) };

    ghost coded = { coded_list (pending_code F.code) };

    ghost view = { λ d. all_pending d.shadows.items };
}
