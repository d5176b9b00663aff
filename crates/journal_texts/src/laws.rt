//! Each moment has its text, and no other text is read as it.
ghost use Rattle.std.specs.Prelude.{◌≡◌, ℕ, List, Some};
ghost use Rattle.hk_world.specs.declared.moment.Moment.{Moment};
ghost use Rattle.journal_texts.specs.JournalTexts.{journal_text};
ghost use Rattle.journal_texts.specs.Moments.{IsMoment};
ghost use Rattle.journal_texts.specs.Reading.{moment_in_text};

/// A moment is read from its text, and from no other. So two moments have two texts.
pub fn lines_are_read_back()
    ensures again { (m : Moment) → IsMoment m → moment_in_text (journal_text m) ≡ Some m }
    ensures only { (text : List ℕ) (m : Moment) → moment_in_text text ≡ Some m → IsMoment m × (journal_text m ≡ text) }
{
    message_words::lines_are_divided();
    message_words::numbers_are_read_back();
}
