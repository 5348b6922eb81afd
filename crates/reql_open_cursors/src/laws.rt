// What keeps a token from having two things open, the feeds of tokens that wait quiet, and the slots of arms there.
ghost use Rattle.std.specs.Prelude.{◌≡◌, ◌<◌, ℕ, nat_eq, List, [], ◌∷◌, ◌++◌, All, filter, flat_map, not, false, Some};
ghost use Rattle.reql_datum.specs.Plain.{Plain};
ghost use Rattle.reql_session_spec.specs.Requests.{Shown};
ghost use Rattle.reql_session_spec.specs.Books as books;
ghost use Rattle.reql_session_spec.specs.Books.{Books, closed, feed_of, has_token, is_open, no_books, saw_names, waits, with_cursor, with_feed, with_left, with_rest, without};
ghost use Rattle.reql_session_api.specs.declared.answered.Arm as coded;
ghost use Rattle.reql_session_api.specs.Meant.{arms_of};
ghost use Rattle.reql_open_cursors.specs.Apart.{IsApart, feeds_with};
ghost use Rattle.reql_open_cursors.specs.Quiet.{AllQuiet, IsQuiet};
ghost use Rattle.reql_open_cursors.specs.There.{AllThere, AreThere};

/// Nothing that is done with books gives a token a second cursor or feed, where nothing is opened for one that has
/// something open.
pub fn shelf_laws()
    ensures at_first { IsApart no_books }
    ensures cursor { (b : Books) (c : books.Cursor) → IsApart b → is_open c.token b ≡ false
        → IsApart (with_cursor c b) }
    ensures feed { (b : Books) (f : books.Open) → IsApart b → is_open f.token b ≡ false
        → IsApart (with_feed f b) }
    ensures closed { (b : Books) (t : ℕ) → IsApart b → IsApart (closed t b) }
    ensures rest { (b : Books) (t : ℕ) (rest : List Plain) → IsApart b → IsApart (with_rest t rest b) }
    ensures left { (b : Books) (t : ℕ) (left : List Shown) → IsApart b → IsApart (with_left t left b) }
    ensures waits { (b : Books) (t : ℕ) → IsApart b → IsApart (waits t b) }
    ensures without { (b : Books) (t : ℕ) → IsApart b → IsApart (record b { waiting = without t b.waiting }) }
    ensures names { (b : Books) (place : ℕ) → IsApart b → IsApart (saw_names place b) }
{}

/// Tokens that wait, apart from one another and each with a feed of which nothing is left, stay so where one of them waits no
/// longer or begins to wait, where a feed is opened, and where what another token has open goes on or is closed.
pub fn waiting_laws()
    ensures dropping { (fs : List books.Open) (ws : List ℕ) (t : ℕ) (ts : List ℕ) → AllQuiet fs (ws ++ t ∷ ts)
        → AllQuiet fs (ws ++ ts) × (has_token t (ws ++ ts) ≡ false) × IsQuiet (feed_of t fs) }
    ensures left { (fs : List books.Open) (t : ℕ) (left : List Shown) (ts : List ℕ) → has_token t ts ≡ false
        → AllQuiet fs ts → AllQuiet (feeds_with t left fs) ts }
    ensures closed { (fs : List books.Open) (t : ℕ) (ts : List ℕ) → AllQuiet fs ts
        → AllQuiet (filter (λ f. not (nat_eq f.token t)) fs) (without t ts) }
    ensures elsewhere { (fs : List books.Open) (t : ℕ) (ts : List ℕ) → has_token t ts ≡ false
        → AllQuiet fs ts → AllQuiet (filter (λ f. not (nat_eq f.token t)) fs) ts }
    ensures feed { (fs : List books.Open) (f : books.Open) (ts : List ℕ) → AllQuiet fs ts → AllQuiet (fs ++ f ∷ []) ts }
    ensures waits { (fs : List books.Open) (t : ℕ) (ts : List ℕ) → AllQuiet fs ts → has_token t ts ≡ false
        → IsQuiet (feed_of t fs) → AllQuiet fs (ts ++ t ∷ []) }
    ensures again { (fs : List books.Open) (ws : List ℕ) (t : ℕ) (ts : List ℕ) → AllQuiet fs (ws ++ t ∷ ts)
        → AllQuiet fs ((ws ++ t ∷ []) ++ ts) }
    ensures none_waits { (t : ℕ) (ts : List ℕ) → has_token t ts ≡ false → without t ts ≡ ts }
    ensures without { (fs : List books.Open) (t : ℕ) (ts : List ℕ) → AllQuiet fs ts → AllQuiet fs (without t ts) }
{}

/// Where the slots of all feeds' arms are there, they stay there, whatever is opened, goes on or is closed. So are then the
/// slots of one feed's arms, and of all feeds' arms one after another; and arms of the program mean arms with the same slots.
pub fn slot_laws()
    ensures at_first { (count : ℕ) → AllThere count [] }
    ensures feed { (count : ℕ) (fs : List books.Open) (f : books.Open) → AllThere count fs → AreThere count f.arms
        → AllThere count (fs ++ f ∷ []) }
    ensures closed { (count : ℕ) (t : ℕ) (fs : List books.Open) → AllThere count fs
        → AllThere count (filter (λ f. not (nat_eq f.token t)) fs) }
    ensures left { (count : ℕ) (t : ℕ) (left : List Shown) (fs : List books.Open) → AllThere count fs
        → AllThere count (feeds_with t left fs) }
    ensures found { (count : ℕ) (t : ℕ) (fs : List books.Open) (f : books.Open) → feed_of t fs ≡ Some f
        → AllThere count fs → AreThere count f.arms }
    ensures all { (count : ℕ) (fs : List books.Open) → AllThere count fs
        → AreThere count (flat_map (λ f. f.arms) fs) }
    ensures meant { (count : ℕ) (xs : List coded.Arm) → All (λ a. a.slot < count) xs → AreThere count (arms_of xs) }
    ensures coded { (count : ℕ) (xs : List coded.Arm) → AreThere count (arms_of xs) → All (λ a. a.slot < count) xs }
{}
