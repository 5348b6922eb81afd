// Laws of maps by rising keys, in any order of keys.
ghost use Rattle.std.specs.Prelude.{◌≡◌, List, ◌++◌, map, option_map, Some, None, if◌then◌else◌};
ghost use Rattle.std.specs.Ordering.{is_eq};
ghost use Rattle.std.specs.declared.cmp.Ordering.TheVariants.{Equal};
ghost use Rattle.reql_memory.specs.Sorted.{find_by, put_by, without_by, AreRisingBy, FindSameBy, AreBelowBy, AllBelowBy, OpensAboveBy};

/// The laws of maps by rising keys: what is found after an edit, that a map is known by what is
/// found in it, what an edit of three joined parts is, and what becomes of one whose values are
/// changed.
pub fn sorted_laws<K: Ord, V, W>()
    ensures find_put { (ms : List (K × V)) (k q : K) (v : V)
        → find_by K.cmp q (put_by K.cmp k v ms)
        ≡ (if is_eq (K.cmp q k) then Some v else find_by K.cmp q ms) }
    ensures find_without { (ms : List (K × V)) (k q : K) → AreRisingBy K.cmp ms
        → find_by K.cmp q (without_by K.cmp k ms)
        ≡ (if is_eq (K.cmp k q) then None else find_by K.cmp q ms) }
    ensures put_rises { (ms : List (K × V)) (k : K) (v : V) → AreRisingBy K.cmp ms
        → AreRisingBy K.cmp (put_by K.cmp k v ms) }
    ensures without_rises { (ms : List (K × V)) (k : K) → AreRisingBy K.cmp ms
        → AreRisingBy K.cmp (without_by K.cmp k ms) }
    ensures same_found { ((j k : K) → K.cmp j k ≡ Equal → j ≡ k) → (ms ns : List (K × V))
        → AreRisingBy K.cmp ms → AreRisingBy K.cmp ns → FindSameBy K.cmp ms ns → ms ≡ ns }
    ensures joined_rises { (l r : List (K × V)) → AreRisingBy K.cmp l → AreRisingBy K.cmp r
        → AreBelowBy K.cmp l r → AreRisingBy K.cmp (l ++ r) }
    ensures find_middle { (k : K) (l m r : List (K × V)) → AllBelowBy K.cmp k l
        → OpensAboveBy K.cmp k r → AreRisingBy K.cmp r
        → find_by K.cmp k (l ++ (m ++ r)) ≡ find_by K.cmp k m }
    ensures put_middle { (k : K) (v : V) (l m r : List (K × V)) → AllBelowBy K.cmp k l
        → OpensAboveBy K.cmp k r
        → put_by K.cmp k v (l ++ (m ++ r)) ≡ l ++ (put_by K.cmp k v m ++ r) }
    ensures without_middle { (k : K) (l m r : List (K × V)) → AllBelowBy K.cmp k l
        → OpensAboveBy K.cmp k r → AreRisingBy K.cmp r
        → without_by K.cmp k (l ++ (m ++ r)) ≡ l ++ (without_by K.cmp k m ++ r) }
    ensures find_mapped { (g : V → W) (k : K) (ms : List (K × V))
        → find_by K.cmp k (map (λ m. (m.0, g m.1)) ms) ≡ option_map g (find_by K.cmp k ms) }
    ensures put_mapped { (g : V → W) (k : K) (v : V) (ms : List (K × V))
        → put_by K.cmp k (g v) (map (λ m. (m.0, g m.1)) ms)
        ≡ map (λ m. (m.0, g m.1)) (put_by K.cmp k v ms) }
    ensures without_mapped { (g : V → W) (k : K) (ms : List (K × V))
        → without_by K.cmp k (map (λ m. (m.0, g m.1)) ms)
        ≡ map (λ m. (m.0, g m.1)) (without_by K.cmp k ms) }
{}
