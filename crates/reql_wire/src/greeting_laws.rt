ghost use Rattle.std.specs.Prelude.{◌≡◌, ◌≤◌, ◌<◌, ◌+◌, ◌++◌, ℕ, List, [], ◌∷◌, length, take, drop};
ghost use Rattle.reql_wire.specs.Frames.{IsBytes};
ghost use Rattle.reql_wire.specs.Greeting.{Greets, greeting_by, kept, longest_greeting, longest_key};
ghost use Rattle.reql_wire.specs.declared.greeter.Greeting.{Greeting};
ghost use Rattle.reql_wire.specs.declared.greeter.Greeting.TheVariants.{Accepted, Login, More};

/// What a greeter keeps is enough: what it and a piece are as a greeting, all bytes are.
pub fn greeting_is_cut()
    ensures kept { (bytes piece : List ℕ) → kept (kept bytes ++ piece) ≡ kept (bytes ++ piece) }
    ensures verdict { (key bytes piece : List ℕ) (verdict : Greeting) →
        Greets key (kept bytes ++ piece) verdict → Greets key (bytes ++ piece) verdict }
    ensures more { (key bytes : List ℕ) → Greets key bytes More → length bytes < longest_greeting }
{}

/// Bytes have one verdict as a greeting.
pub fn one_verdict()
    ensures { (key bytes : List ℕ) (a b : Greeting) →
        Greets key bytes a → Greets key bytes b → a ≡ b }
{}

/// A verdict stands when more bytes come.
pub fn verdict_stands()
    ensures { (key bytes more : List ℕ) (verdict : Greeting) → (verdict ≡ More → ⊥) →
        Greets key bytes verdict → Greets key (bytes ++ more) verdict }
{}

/// The greeting by a key is accepted, whatever follows it, and no other is.
pub fn one_greeting_by_a_key()
    ensures accepted { (key rest : List ℕ) → length key ≤ longest_key →
        Greets key (greeting_by key ++ rest) (Accepted (12 + length key)) }
    ensures spelled { (key bytes : List ℕ) (used : ℕ) → IsBytes bytes →
        Greets key bytes (Accepted used) →
        (used ≡ 12 + length key) × (bytes ≡ greeting_by key ++ drop used bytes) }
{}

/// The version of a login is these four bytes, c3 bd c2 34, whatever follows it.
pub fn one_login()
    ensures called { (key bytes : List ℕ) → take 4 bytes ≡ 195 ∷ 189 ∷ 194 ∷ 52 ∷ [] →
        Greets key bytes (Login 4) }
    ensures spelled { (key bytes : List ℕ) (used : ℕ) → IsBytes bytes → Greets key bytes (Login used) →
        (used ≡ 4) × (take 4 bytes ≡ 195 ∷ 189 ∷ 194 ∷ 52 ∷ []) }
{}

/// An accepted greeting is accepted by its own bytes, which are all there.
pub fn greeting_is_its_own()
    ensures { (key bytes : List ℕ) (used : ℕ) → Greets key bytes (Accepted used) →
        (used ≤ length bytes) × Greets key (take used bytes) (Accepted used) }
{}
