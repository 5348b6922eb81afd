ghost use Rattle.std.specs.Prelude.{◌≡◌, ◌<◌, ◌^◌, ◌-◌, ◌++◌, ◌↔◌, ◌⊎◌, ℕ, List};
ghost use Rattle.std.specs.List.{AllByRecursion};
ghost use Rattle.reql_wire.specs.Frames.{BeginsWith, Fits, Frames, IsBytes, NoFrame, Over};
ghost use Rattle.reql_wire.specs.Frames.{More, TooLong, Whole, front, spelling, spellings};
ghost use Rattle.reql_wire.specs.declared.frame.Frame.{Frame};

/// A frame that was spelled is read again, whatever follows.
pub fn front_of_spelling()
    ensures { (limit : ℕ) (frame : Frame) (rest : List ℕ) →
        limit < 2 ^ 32 → Fits limit frame →
        front limit (spelling frame ++ rest) ≡ Whole frame rest }
{}

/// What is read is spelled so.
pub fn spelled()
    ensures { (limit : ℕ) (bytes : List ℕ) (frame : Frame) (rest : List ℕ) →
        IsBytes bytes → front limit bytes ≡ Whole frame rest →
        (bytes ≡ spelling frame ++ rest) × Fits limit frame × IsBytes rest }
{}

/// No spelling begins another.
pub fn one_reading()
    ensures { (f g : Frame) (a b : List ℕ) →
        Fits (2 ^ 32 - 1) f → Fits (2 ^ 32 - 1) g → spelling f ++ a ≡ spelling g ++ b →
        (f ≡ g) × (a ≡ b) }
{}

/// Where no frame is read, none is spelled there, and a length above the limit is the cause exactly
/// where it is said to be.
pub fn front_decides()
    ensures more { (limit : ℕ) (bytes : List ℕ) →
        limit < 2 ^ 32 → front limit bytes ≡ More → NoFrame limit bytes }
    ensures too_long { (limit : ℕ) (bytes : List ℕ) (len : ℕ) →
        (front limit bytes ≡ TooLong len) ↔ Over limit bytes len }
    ensures over { (limit : ℕ) (bytes : List ℕ) (len : ℕ) →
        limit < 2 ^ 32 → Over limit bytes len → NoFrame limit bytes }
    ensures none { (limit : ℕ) (bytes : List ℕ) → IsBytes bytes → NoFrame limit bytes →
        (front limit bytes ≡ More) ⊎ ((len : ℕ) × Over limit bytes len) }
{}

/// A header that is too long is so when more bytes come.
pub fn over_stands()
    ensures { (limit : ℕ) (bytes more : List ℕ) (len : ℕ) →
        Over limit bytes len → Over limit (bytes ++ more) len }
{}

/// Bytes have one reading as frames.
pub fn frames_are_once()
    ensures { (limit : ℕ) (bytes : List ℕ) (fs gs : List Frame) (a b : List ℕ) →
        limit < 2 ^ 32 → Frames limit bytes fs a → Frames limit bytes gs b → (fs ≡ gs) × (a ≡ b) }
{}

/// Frames whose bytes begin with those of others begin with these, and what is left of the bytes is
/// spelled by what is left of the frames.
pub fn frames_begin_with()
    ensures { (limit : ℕ) (fs gs : List Frame) (rest : List ℕ) → limit < 2 ^ 32 →
        AllByRecursion (Fits limit) fs → AllByRecursion (Fits limit) gs →
        spellings fs ≡ spellings gs ++ rest → BeginsWith limit fs gs rest }
{}
