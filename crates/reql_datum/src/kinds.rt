// The kind of a document: the name of its type, LITERALs, and what may be shown and stored.
ghost use Rattle.std.specs.Prelude.{◌≡◌};
ghost use Rattle.reql_datum.specs.Kinds.{type_name, is_literal, is_storable};
ghost use Rattle.reql_datum.specs.Plain.{object, pairs_of};
ghost use Rattle.reql_datum.specs.View.{plain};

use crate::datum::{Datum, Fields};

impl Datum {
    /// The name of its type, as TYPE_OF gives it (ReQL reference, typeOf).
    pub fn type_name(&self) -> &'static str
        ensures { result.now ≡ type_name (plain self.now) }
    {
        match self {
            Datum::Low => "MINVAL",
            Datum::List(_) => "ARRAY",
            Datum::Bool(_) => "BOOL",
            Datum::Null => "NULL",
            Datum::Num(_) => "NUMBER",
            Datum::Obj(fields) => fields.type_name(),
            Datum::Binary(_) => "PTYPE<BINARY>",
            Datum::Time(_) => "PTYPE<TIME>",
            Datum::Text(_) => "STRING",
            Datum::High => "MAXVAL",
        }
    }

    /// Whether it may be shown, stored, or be part of a key, in a constant number of steps: neither
    /// MINVAL, MAXVAL nor a LITERAL stands in it.
    pub fn is_storable(&self) -> bool
        ensures { result ≡ is_storable (plain self.now) }
    {
        self.shape().storable
    }
}

impl Fields {
    /// Whether it is a LITERAL, a mark for MERGE: an object with the name `$reql_type$`.
    #[tactic(auto, using(crate::proofs::Back::back))]
    pub fn is_literal(&self) -> bool
        ensures { result ≡ is_literal (pairs_of self.now) }
    {
        self.get("$reql_type$").is_some()
    }

    fn type_name(&self) -> &'static str
        ensures { result.now ≡ type_name (object (pairs_of self.now)) }
    {
        if self.is_literal() {
            "PTYPE<LITERAL>"
        } else {
            "OBJECT"
        }
    }
}
