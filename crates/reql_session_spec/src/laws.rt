// Laws of explained sessions.
ghost use Rattle.reql_hall.specs.Shares.{IsKept};
ghost use Rattle.reql_session_spec.specs.Answering.{EachIsAnswered};
ghost use Rattle.reql_session_spec.specs.Arms.{ArmsAreApart};
ghost use Rattle.reql_session_spec.specs.Beginning.{EachBegins};
ghost use Rattle.reql_session_spec.specs.Continuing.{EachContinues};
ghost use Rattle.reql_session_spec.specs.Endings.{FeedsEnd};
ghost use Rattle.reql_session_spec.specs.Endings.{FeedsOpen, FeedsEnd};
ghost use Rattle.reql_session_spec.specs.Explained.{ExplainedBy};
ghost use Rattle.reql_session_spec.specs.Laws.{InOrder, FramesHandled, LoginRollsFirst, WornLate, FirstFailed, ValidCloses, OneMore, Learning, NothingLeft, FeedsHold, SkipsAreSent, TakesArePlaced, SubscribesArePlaced};
ghost use Rattle.reql_session_spec.specs.Opened.{EachIsOpened};
ghost use Rattle.reql_session_spec.specs.Owed.{NothingKeptBack};
ghost use Rattle.reql_session_spec.specs.Printed.{FeedsAreTold, BatchesAreOfFeeds, TakesAreOfFeeds, AllIsSaid};
ghost use Rattle.reql_session_spec.specs.Owed.{NothingKeptBack, AllIsSent};
ghost use Rattle.reql_session_spec.specs.Printed.{FeedsAreTold, BatchesAreOfFeeds, BatchesAreFull, TakesAreOfFeeds, AllIsSaid};
ghost use Rattle.reql_session_spec.specs.Waiting.{StartsToWait, WaitsOn, NothingWasThere};

use crate::planning::Planning;

/// What came in was handled in order, frame by frame, after a greeting or a login, or is held.
pub fn in_order<F: Planning>()
    ensures { (f : F) → InOrder (F.talk f) }
{}

/// Every whole frame that an explained session was given was handled, in order, unless it ended by a failed send, worn,
/// or for want of memory: what it held at its end is no whole greeting, message of a login or frame where its input ended
/// or failed, the header that is too long, or the greeting or the message that was refused. Frames are handled only after
/// a greeting that was accepted or a login that was admitted.
pub fn frames_handled<F: Planning>()
    ensures { (f : F) → FramesHandled (F.talk f) }
{}

/// The rolls of a login come before those of requests.
pub fn login_rolls_first<F: Planning>()
    ensures { (f : F) → LoginRollsFirst (F.talk f) }
{}

/// A session uses up all its turns only where what it was given, twice over, with its idle receives and two more, is above
/// their limit: each turn takes a greeting, a message of a login, a frame or some bytes, is idle, or is the last.
pub fn worn_late<F: Planning>()
    ensures { (f : F) → WornLate (F.talk f) }
{}

/// The first failed send ends a session: after an answer that was sent in part alone only feeds are closed, and the end is
/// WriteFault; and a session ends so only after such an answer.
pub fn first_failed<F: Planning>()
    ensures { (f : F) → FirstFailed (F.talk f) }
{}

/// Each frame that wants an answer is given just one, with its token, before the next one is taken, but for a CONTINUE that
/// waits, which is answered later, or not at all where the session ends first. A START, and a body that can't be read or
/// planned, wants none where it comes with `noreply`; a body for which memory is wanted while it is read wants one whatever it
/// says. It is told by counting, for each token, the answers that its frames want and those that were said with it. Where a
/// send failed no more were said than that.
pub fn each_is_answered<F: Planning>()
    ensures { (f : F) → EachIsAnswered (F.talk f) }
{}

/// Each feed that a session has open is that of a START of its own token, which had nothing open then: the plan that its body
/// asked for came, by what it found and with no frame taken since, to its end with just the feed's arms and notes, and the
/// feed's batches have that plan's size. What is left of it is a tail of the plan's first items, or of the changes that a Take
/// of one of its arms gave since. No two open feeds have a token in common.
pub fn each_is_opened<F: Planning>()
    ensures { (f : F) → EachIsOpened (F.talk f) }
{}

/// Where a plan comes to its end with a feed, the next answer, with no turn, visit or frame before it, has the plan's token. It
/// is the first batch of the plan's items, with its notes, and when that was sent whole the feed is open, with all its arms and
/// the rest left; or the fault of a first batch that is too long; or INTERNAL, where memory was wanted.
pub fn each_begins<F: Planning>()
    ensures { (f : F) → EachBegins (F.talk f) }
{}

/// A CONTINUE comes to wait only where nothing was there for it. It was visited, which it is where it is taken up and where it
/// waits and a visit to it begins, with nothing of its feed left to be sent; and a Take of each arm of the feed, in order, of a
/// batch of the plan's at most, found neither items nor a skip, a dropped table or a full history. No arm is taken from behind
/// one whose changes came to no item. Whoever waits was visited so in vain in this very turn, and has waited since. In a hall
/// that explains the session each of those Takes found its feed open in its table, with nothing skipped; and, where its batches
/// have an item at least, with nothing queued in a table that wasn't dropped, or with changes queued of which the net is
/// nothing. Of batches that have no item nothing is said of what was queued.
pub fn starts_to_wait<F: Planning>()
    ensures starts { (f : F) → StartsToWait (F.talk f) }
    ensures goes_on { (f : F) → WaitsOn (F.talk f) }
    ensures for_nothing { (f : F) → NothingWasThere (F.talk f) }
{}

/// Where a CONTINUE on an open feed is visited, the next answer, with no turn, further visit or frame before it, has its token.
/// It tells of what was left of the feed; or, where nothing was left, of what the first Take gave that found something, of the
/// feed's arms in their order; and of an item at least where batches have one. Or it is the fault of such an answer that is too
/// long, of a table of which the first such Take was told that it was dropped, or of a history of which it was told that it is
/// full; or INTERNAL, where memory was wanted. With it the visit is over, and where a batch was sent whole the feed is open
/// still, with the rest left.
pub fn each_continues<F: Planning>()
    ensures { (f : F) → EachContinues (F.talk f) }
{}

/// What a session was given, with more to come only where its input wasn't over, is valid where it is nothing, or a
/// greeting that is accepted, or a login that is admitted by the session's own rolls, and then frames within the limit
/// alone. Then the session handled the first of these frames,
/// in order, and is never cut, refused or told of a header that is too long: it closed, as its input was over, with every
/// frame handled, or a receive or a send failed, its turns were too few, or memory was wanted.
pub fn valid_closes<F: Planning>()
    ensures { (f : F) → ValidCloses (F.talk f) }
{}

/// A session that a hall explains is explained, with the same share, by each hall whose histories go on from there.
pub fn kept<F: Planning>()
    ensures { (f : F) → IsKept (ExplainedBy (F.talk f)) }
{}

/// One more session lengthens what a desk did by its share; what the desk learns of others leaves that as it is; and
/// the desk's own entries and its marks are those of its sessions, in order, with nothing left.
pub fn joined<F: Planning>()
    ensures one_more { (f : F) → OneMore (F.talk f) }
    ensures learning { (f : F) → Learning (F.talk f) }
    ensures nothing_left { (f : F) → NothingLeft (F.talk f) }
{}

/// Every feed of an explained session: the fold of the changes that were sent of it, up to any change up to which its
/// answers are whole, over its value at the opening, is its value there.
pub fn feeds_hold<F: Planning>()
    ensures { (f : F) → FeedsHold (F.talk f) }
{}

/// Every feed of an explained session: what was sent of it as changes, and as what tells that some were skipped, is, in order, a
/// beginning of what the answers of its Takes give; and these tell just what its queue skipped.
pub fn skips_are_sent<F: Planning>()
    ensures { (f : F) → SkipsAreSent (F.talk f) }
{}

/// Every feed of an explained session, wherever it is open: of what the answers of its Takes gave, what was not sent is what the
/// answer that is being told has of it, and then what the books keep to be sent; so where neither is, everything was sent, as
/// wherever its token waits between tasks.
pub fn nothing_kept_back<F: Planning>()
    ensures kept { (f : F) → NothingKeptBack (F.talk f) }
    ensures sent { (f : F) → AllIsSent (F.talk f) }
{}

/// Wherever a token has an open feed, a plan came to it, since when it has been open: all that was said with the token from there
/// on, and then what is still to be said, in the answer that is being told and in the books, is the plan's first items and then
/// what the answers of its Takes give, in order, the item of a skip ahead of its batch. It is so of each item as it is printed,
/// with its arm's place among the plan's, whatever its sort; and each batch has the plan's notes. A batch is said only with a token
/// that has an open feed, and leaves nothing behind it, or has as many items as it may have. Every Take is asked for by a token
/// whose feed has that arm. Wherever a token waits, nothing of its feed is still to be said.
pub fn feeds_are_told<F: Planning>()
    ensures told { (f : F) → FeedsAreTold (F.talk f) }
    ensures of_feeds { (f : F) → BatchesAreOfFeeds (F.talk f) }
    ensures full { (f : F) → BatchesAreFull (F.talk f) }
    ensures takes { (f : F) → TakesAreOfFeeds (F.talk f) }
    ensures all { (f : F) → AllIsSaid (F.talk f) }
{}

/// Where a plan comes to a feed, its token has an open feed, or its client is told a fault. While a session goes on, the open feed of
/// a token is closed only where its client is told so: by a fault, or by the answer to a STOP that was the last frame.
pub fn feeds_end<F: Planning>()
    ensures opens { (f : F) → FeedsOpen (F.talk f) }
    ensures ends { (f : F) → FeedsEnd (F.talk f) }
{}

/// No feed that a session has open has an arm twice, and no two have one in common, by the arms' slots and numbers: so it is at
/// each moment of an explained session.
pub fn arms_are_apart<F: Planning>()
    ensures { (f : F) → ArmsAreApart (F.talk f) }
{}

/// Each Take and each Subscribe of an explained session that is answered (neither is where memory is wanted) is answered as the
/// table of its slot says at its place, with the stamp that this has there. A Take of an open feed is told Nothing only while its table isn't dropped, and Gone only when it was. A
/// Subscribe is answered Gone exactly where its table was dropped; where it wasn't, and the history has room, that the index is
/// missing exactly where nothing is kept of the request, that there are too many feeds exactly where it is kept and as many are
/// open as may be, and else by a feed.
pub fn answers_are_placed<F: Planning>()
    ensures takes { (f : F) → TakesArePlaced (F.talk f) }
    ensures subscribes { (f : F) → SubscribesArePlaced (F.talk f) }
{}
