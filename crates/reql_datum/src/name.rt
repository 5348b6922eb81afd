// A text, seen as its bytes.
ghost use Rattle.std.specs.Prelude.{◌≡◌, IfOk};
ghost use Rattle.std.specs.Ordering.{MatchOrdering, is_eq};
ghost use Rattle.reql_datum.specs.Members.{text_order};
ghost use Rattle.reql_datum.specs.Order.{text_less};

use crate::short::Short;
use reql_memory::Memory;
use std::alloc::Global;
use std::cmp::Ordering;
use std::marker::Model;
use std::sync::ArcStr;

// Where the text is.
#[derive(Drop)]
enum Chars {
    Short(Short),
    Shared(ArcStr),
}

/// A text: a name, or the text of a document. A short one, of at most 16 bytes, lies in the value
/// itself, a longer one is shared. Contracts see its bytes.
#[derive(Drop)]
pub struct Name {
    chars: Chars,
}

impl Model for Name {
    ghost use Rattle.std.specs.Prelude.{ℕ, List};
    ghost use Rattle.reql_datum.specs.Chars.{chars_bytes};

    ghost Value = { List ℕ };

    ghost view = { λ a. chars_bytes a.chars };
}

// So many bytes of two texts are compared one by one, before the kit compares the others.
const NEAR: usize = 16;

// How two texts stand by their bytes. Most are short, or differ in the first ones.
pub(crate) fn text_order(a: &str, b: &str) -> Ordering
    ensures { result ≡ text_order a.now b.now }
{
    let (a, b) = (a.as_bytes(), b.as_bytes());
    let mut place = 0;
    while place < NEAR {
        match (a.get(place), b.get(place)) {
            (Some(x), Some(y)) => {
                if x != y {
                    return x.cmp(y);
                }
            }
            (None, Some(_)) => return Ordering::Less,
            (Some(_), None) => return Ordering::Greater,
            (None, None) => return Ordering::Equal,
        }
        place += 1;
    }
    a[place..].cmp(&b[place..])
}

impl Name {
    /// A text of its own. Code that makes many like objects copies their names instead.
    pub fn of(alloc: Global, text: &str) -> Result<Name, Memory>
        ensures { IfOk result (λ n. n ≡ text.now) }
    {
        if let Some(short) = Short::of(text) {
            return Ok(Name {
                chars: Chars::Short(short),
            });
        }
        let shared = ArcStr::from_str(alloc, text)?;
        Ok(Name {
            chars: Chars::Shared(shared),
        })
    }

    /// The text.
    pub fn as_str(&self) -> &str
        ensures { result.now ≡ self.now }
    {
        match &self.chars {
            Chars::Short(short) => short.as_str(),
            Chars::Shared(shared) => shared.as_str(),
        }
    }

    /// Whether it is this text. Most others have another length.
    pub(crate) fn is(&self, text: &str) -> bool
        ensures { result ≡ is_eq (text_order text.now self.now) }
    {
        let own = self.as_str();
        if own.len() != text.len() {
            return false;
        }
        text_order(text, own).is_eq()
    }

    /// How it stands to a text, by their bytes, which is by code points.
    #[tactic(auto, using(crate::proofs::Order::text_says))]
    pub fn order(&self, text: &str) -> Ordering
        ensures answer { result ≡ text_order self.now text.now }
        ensures meaning { MatchOrdering result (text_less self.now text.now) (self.now ≡ text.now)
            (text_less text.now self.now) }
    {
        text_order(self.as_str(), text)
    }

    /// An equal name, which shares a text that is shared. Memory where the count of sharers is full.
    pub fn copy(&self) -> Result<Name, Memory>
        ensures { IfOk result (λ n. n ≡ self.now) }
    {
        match &self.chars {
            Chars::Short(short) => {
                let short = short.copy();
                Ok(Name {
                    chars: Chars::Short(short),
                })
            }
            Chars::Shared(shared) => {
                let shared = shared.clone()?;
                Ok(Name {
                    chars: Chars::Shared(shared),
                })
            }
        }
    }
}

impl PartialEq for Name {
    ghost use Rattle.std.specs.Ordering.{eq_by_cmp};
    ghost use Rattle.std.specs.Cmp.{partial_equiv_from_equiv, eq_by_cmp_equiv};
    ghost use Rattle.std.proofs.lemmas.Cmp.{nat_list_cmp_total};

    ghost eq = { eq_by_cmp text_order };

    ghost laws = { partial_equiv_from_equiv (eq_by_cmp_equiv nat_list_cmp_total) };

    fn eq(&self, other: &Name) -> bool {
        self.order(other.as_str()).is_eq()
    }
}

impl Eq for Name {
    ghost use Rattle.std.specs.Cmp.{eq_by_cmp_equiv};
    ghost use Rattle.std.proofs.lemmas.Cmp.{nat_list_cmp_total};

    ghost laws = { eq_by_cmp_equiv nat_list_cmp_total };
}

impl PartialOrd for Name {
    ghost use Rattle.std.specs.Ordering.{as_partial_cmp};
    ghost use Rattle.std.specs.Cmp.{po};
    ghost use Rattle.std.proofs.lemmas.Cmp.{nat_list_cmp_total};
    ghost use Rattle.std.proofs.Common.{refl};

    ghost partial_cmp = { as_partial_cmp text_order };

    ghost laws = { po nat_list_cmp_total (λ x y. refl) };

    fn partial_cmp(&self, other: &Name) -> Option<Ordering> {
        Some(self.order(other.as_str()))
    }
}

impl Ord for Name {
    ghost use Rattle.std.proofs.lemmas.Cmp.{nat_list_cmp_total};
    ghost use Rattle.std.proofs.Common.{refl};

    ghost cmp = { text_order };

    ghost total = { nat_list_cmp_total };

    ghost matches_partial_cmp = { λ x y. refl };

    ghost matches_eq = { λ x y. refl };

    fn cmp(&self, other: &Name) -> Ordering {
        self.order(other.as_str())
    }
}
