// How the two ways between documents and values meet.
ghost use Rattle.reql_json.specs.Inverse.{ShowsStorable, ReadsBack, ShowsBack, KeepsReading};

/// Showing and reading undo each other.
///
/// A document has a value exactly where it may be stored, and reads back from it, if its numbers,
/// bytes and zones are in their ranges, as they are in each document; the document of a value is
/// shown as that value, in its one spelling, and may be stored.
pub fn json_laws()
    ensures shows_storable { ShowsStorable }
    ensures reads_back { ReadsBack }
    ensures shows_back { ShowsBack }
    ensures keeps_reading { KeepsReading }
{}
