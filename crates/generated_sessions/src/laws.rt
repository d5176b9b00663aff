//! How the entries of a session come.
ghost use Rattle.std.specs.Prelude.{◌≡◌, ◌≤◌, ◌+◌, ◌++◌, [], ℕ, All, length};
ghost use Rattle.generated_sessions.specs.Generated as made;
ghost use Rattle.generated_sessions.specs.Entries.{IsShortEntry};

/// The session of no rounds has no entries before the last ones, a round more has the entries of that round more, and at the
/// end the last entries come.
pub fn rounds_come_one_by_one()
    ensures none { (seed : ℕ) → made.rounds seed 0 ≡ [] }
    ensures more { (seed count : ℕ) → made.rounds seed (count + 1) ≡ made.rounds seed count ++ made.round_entries seed count }
    ensures end { (seed count : ℕ) → made.generated seed count ≡ made.rounds seed count ++ made.late_entries seed count }
{}

/// The entries of a round are few, and so are the last ones. Each holds no more octets than a packet has.
pub fn entries_are_short()
    ensures round { (seed round : ℕ) → All IsShortEntry (made.round_entries seed round) }
    ensures few { (seed round : ℕ) → length (made.round_entries seed round) ≤ 32 }
    ensures late { (seed count : ℕ) → All IsShortEntry (made.late_entries seed count) }
    ensures one { (seed count : ℕ) → length (made.late_entries seed count) ≤ 1 }
{}
