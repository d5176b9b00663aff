ghost use Rattle.verdict_tables.specs.Places.{OpeningsStay};

/// The openings of a structure at two tags with no place between them are the same, with their lists and what is certain.
pub fn openings_stay()
    ensures { OpeningsStay }
{}
