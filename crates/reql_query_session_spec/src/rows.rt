// Worked rows, computed on the definitions.
ghost use Rattle.reql_query_session_spec.specs.Worked.{Documents, Refused, Options, Batches, Feeds};

/// Worked rows of whole talks, from the bodies of requests to those of their answers: a document that is put in and read,
/// what is refused before anything is looked at, the options of a request, a cursor, and a feed.
#[tactic(auto, using(crate::proofs::Worked::documents, crate::proofs::Worked::refused, crate::proofs::Worked::options, crate::proofs::Worked::batches, crate::proofs::Worked::feeds))]
pub fn worked_rows()
    ensures documents { Documents }
    ensures refused { Refused }
    ensures options { Options }
    ensures batches { Batches }
    ensures feeds { Feeds }
{}
