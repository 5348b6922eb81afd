// Laws of the catalogue machine.
ghost use Rattle.reql_catalog.specs.Agreeing.{NamesAgree, SlotsStay};

/// Along every history of a catalogue, from any tables that it was opened with, a table is found at a
/// slot by its names exactly where that slot stands for the table of these names; so no two names
/// stand for one slot, and no two slots for one name. A slot that was given stands for the same table
/// until that is dropped, and never for another after.
pub fn names_and_slots()
    ensures agree { NamesAgree }
    ensures stay { SlotsStay }
{}
