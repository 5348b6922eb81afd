// All that is open in a session.
ghost use Rattle.std.specs.Prelude.{◌≡◌, ◌<◌, [], None, Some, IfOk, drop, map, option_map, vec_len, vec_capacity};
ghost use Rattle.reql_session_spec.specs.Books.{closed, cursor_of, feed_of, has_token, is_open, no_books, opened, saw_names, waits, with_cursor, with_feed, with_left, with_rest, without};
ghost use Rattle.reql_session_spec.specs.Books as books;
ghost use Rattle.reql_open_cursors.specs.Kept.{books_of, cursor_kept, feed_kept, items_left};
ghost use Rattle.reql_open_cursors.specs.Apart.{IsApart};

use crate::open::{Cursor, Open};
use crate::{cursors, feeds, waiting};
use reql_memory::Memory;
use reql_session_api::Shown;
use std::alloc::Global;
use std::mem;

/// What a session holds open between its requests.
#[derive(Drop)]
pub struct Shelf {
    pub cursors: Vec<Cursor>,
    pub feeds: Vec<Open>,
    /// The tokens of feeds that have a CONTINUE which waits, in order.
    pub waiting: Vec<u64>,
    /// The place of the catalogue that was seen last.
    pub names: u64,
}

impl Shelf {
    /// Nothing is open.
    pub fn new(alloc: Global) -> Shelf
        ensures { books_of result ≡ no_books }
    {
        Shelf {
            cursors: Vec::new(alloc),
            feeds: Vec::new(alloc),
            waiting: Vec::new(alloc),
            names: 0,
        }
    }

    /// The cursor of a token.
    pub fn cursor(&self, token: u64) -> Option<&Cursor>
        ensures { option_map (λ c. cursor_kept c.now) result ≡ cursor_of token (books_of self.now).cursors }
    {
        cursors::find(self.cursors.as_slice(), token)
    }

    /// The feed of a token.
    pub fn feed(&self, token: u64) -> Option<&Open>
        ensures { option_map (λ f. feed_kept f.now) result ≡ feed_of token (books_of self.now).feeds }
    {
        feeds::find(self.feeds.as_slice(), token)
    }

    /// Whether a token has something open.
    pub fn is_open(&self, token: u64) -> bool
        ensures { result ≡ is_open token (books_of self.now) }
    {
        self.cursor(token).is_some() || self.feed(token).is_some()
    }

    /// Whether a token has a CONTINUE that waits.
    pub fn waits(&self, token: u64) -> bool
        ensures { result ≡ has_token token (books_of self.now).waiting }
    {
        waiting::waits(self.waiting.as_slice(), token)
    }

    /// How many cursors and feeds are open. Memory where a `u32` doesn't hold it.
    pub fn opened(&self) -> Result<u32, Memory>
        ensures { IfOk result (λ n. n ≡ opened (books_of self.now)) }
    {
        match u32::try_from(self.cursors.len() + self.feeds.len()) {
            Ok(count) => Ok(count),
            Err(_) => Err(Memory),
        }
    }

    /// Room for one more cursor.
    pub fn room_for_cursor(&mut self) -> Result<(), Memory>
        ensures same { books_of self.new ≡ books_of self.old }
        ensures room { IfOk result (λ _. vec_len self.new.cursors < vec_capacity self.new.cursors) }
    {
        match self.cursors.reserve(1) {
            Ok(()) => Ok(()),
            Err(_) => Err(Memory),
        }
    }

    /// Opens a cursor, in the room that was made for it.
    pub fn open_cursor(&mut self, cursor: Cursor)
        requires room { vec_len self.old.cursors < vec_capacity self.old.cursors }
        ensures { books_of self.new ≡ with_cursor (cursor_kept cursor) (books_of self.old) }
    {
        self.cursors.push_reserved(cursor);
    }

    /// Room for one more feed.
    pub fn room_for_feed(&mut self) -> Result<(), Memory>
        ensures same { books_of self.new ≡ books_of self.old }
        ensures room { IfOk result (λ _. vec_len self.new.feeds < vec_capacity self.new.feeds) }
    {
        match self.feeds.reserve(1) {
            Ok(()) => Ok(()),
            Err(_) => Err(Memory),
        }
    }

    /// Opens a feed, in the room that was made for it.
    pub fn open_feed(&mut self, feed: Open)
        requires room { vec_len self.old.feeds < vec_capacity self.old.feeds }
        ensures { books_of self.new ≡ with_feed (feed_kept feed) (books_of self.old) }
    {
        self.feeds.push_reserved(feed);
    }

    /// Room for one more token that waits.
    pub fn room_to_wait(&mut self) -> Result<(), Memory>
        ensures same { books_of self.new ≡ books_of self.old }
        ensures room { IfOk result (λ _. vec_len self.new.waiting < vec_capacity self.new.waiting) }
    {
        match self.waiting.reserve(1) {
            Ok(()) => Ok(()),
            Err(_) => Err(Memory),
        }
    }

    /// A token waits, in the room that was made for it.
    pub fn wait(&mut self, token: u64)
        requires room { vec_len self.old.waiting < vec_capacity self.old.waiting }
        ensures { books_of self.new ≡ waits token (books_of self.old) }
    {
        self.waiting.push_reserved(token);
    }

    /// A token waits no longer.
    pub fn stop_waiting(&mut self, token: u64)
        ensures { books_of self.new ≡ record (books_of self.old) {
          waiting = without token (books_of self.old).waiting;
        } }
    {
        waiting::forget(&mut self.waiting, token);
    }

    /// The tokens that wait, in order. None waits any longer.
    pub fn take_waiting(&mut self, alloc: Global) -> Vec<u64>
        ensures none { books_of self.new ≡ record (books_of self.old) { waiting = [] } }
        ensures tokens { result.items ≡ (books_of self.old).waiting }
    {
        mem::replace(&mut self.waiting, Vec::new(alloc))
    }

    /// A batch of a cursor was told.
    pub fn advance_cursor(&mut self, token: u64)
        ensures { (c : books.Cursor) → IsApart (books_of self.old)
            → cursor_of token (books_of self.old).cursors ≡ Some c
            → books_of self.new ≡ with_rest token (drop c.batch c.rest) (books_of self.old) }
    {
        cursors::advance(&mut self.cursors, token);
    }

    /// A batch of the items of a feed that are left was told.
    pub fn advance_feed(&mut self, token: u64)
        ensures { (f : books.Open) → IsApart (books_of self.old)
            → feed_of token (books_of self.old).feeds ≡ Some f
            → books_of self.new ≡ with_left token (drop f.batch f.left) (books_of self.old) }
    {
        feeds::advance(&mut self.feeds, token);
    }

    /// These are the items of a feed that are left, from a place on.
    pub fn put_left(&mut self, token: u64, items: Vec<Shown>, from: usize)
        ensures { (f : books.Open) → IsApart (books_of self.old)
            → feed_of token (books_of self.old).feeds ≡ Some f
            → books_of self.new ≡ with_left token (items_left f.arms items.items from) (books_of self.old) }
    {
        feeds::put_left(&mut self.feeds, token, items, from);
    }

    /// The catalogue was seen at a place.
    pub fn saw_names(&mut self, place: u64)
        ensures { books_of self.new ≡ saw_names place (books_of self.old) }
    {
        self.names = place;
    }

    /// A token has nothing open any more, and no longer waits.
    #[tactic(auto, using(crate::proofs::Closing::cursors_kept, crate::proofs::Closing::feeds_kept))]
    pub fn close(&mut self, token: u64)
        ensures { books_of self.new ≡ closed token (books_of self.old) }
    {
        cursors::forget(&mut self.cursors, token);
        feeds::forget(&mut self.feeds, token);
        waiting::forget(&mut self.waiting, token);
    }

    /// Takes the feed of a token out. The token has nothing open any more, and no longer waits.
    #[tactic(auto, using(crate::proofs::Closing::cursors_kept, crate::proofs::Closing::feeds_kept))]
    pub fn remove_feed(&mut self, token: u64) -> Option<Open>
        ensures closed { books_of self.new ≡ closed token (books_of self.old) }
        ensures feed { option_map feed_kept result ≡ feed_of token (books_of self.old).feeds }
    {
        let feed = feeds::take(&mut self.feeds, token);
        cursors::forget(&mut self.cursors, token);
        waiting::forget(&mut self.waiting, token);
        feed
    }
}
