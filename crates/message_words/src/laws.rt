//! Each request of the grammar has its words, and no other line is read as it.
ghost use Rattle.std.specs.Prelude.{◌≡◌, ◌==◌, ◌<◌, ◌^◌, ◌∷◌, ℕ, ℤ, List, Some, true};
ghost use Rattle.std.specs.List.{slice_split};
ghost use Rattle.std.specs.Fmt.{decimal, signed_decimal};
ghost use Rattle.hk_base.specs.Fields.{FitsSignedOctets};
ghost use Rattle.hk_base.specs.TailoringParts.{TailoringParts};
ghost use Rattle.hk_base.specs.Fit.{IsFit};
ghost use Rattle.pus_messages.specs.declared.message.Request.{Request};
ghost use Rattle.message_words.specs.Words.{text_of_words, request_text};
ghost use Rattle.message_words.specs.Lines.{IsWord, AreWords};
ghost use Rattle.message_words.specs.Numbers.{number_in, wide_number_in, value_in};
ghost use Rattle.message_words.specs.Grammar.{IsOfGround};
ghost use Rattle.message_words.specs.Reading.{is_ascii, request_in_words};

/// A request of the grammar is read from its words, and from no other line.
pub fn words_are_read_back()
    ensures again { (t : TailoringParts) (r : Request) → IsFit t → IsOfGround t r → request_in_words t (request_text r) ≡ Some r }
    ensures only { (t : TailoringParts) (line : List ℕ) (r : Request) → IsFit t → request_in_words t line ≡ Some r → IsOfGround t r × (request_text r ≡ line) }
{
    st03_grammar::requests_are_spelled();
    st04_grammar::requests_are_spelled();
    st20_grammar::requests_are_spelled();
}

/// Words are found again in a line of them, which is ASCII.
pub fn lines_are_divided()
    ensures words { (word : List ℕ) (words : List (List ℕ)) → IsWord word → AreWords words
        → slice_split (λ octet. octet == 32) (text_of_words (word ∷ words)) ≡ word ∷ words }
    ensures ascii { (words : List (List ℕ)) → AreWords words → is_ascii (text_of_words words) ≡ true }
{}

/// A number has its word, and is read from it: a number of 32 bits, one of 64, and a value of 128 bits, of 16 octets.
pub fn numbers_are_read_back()
    ensures number { (n : ℕ) → n < 2 ^ 32 → number_in (decimal n) ≡ n }
    ensures wide { (n : ℕ) → n < 2 ^ 64 → wide_number_in (decimal n) ≡ n }
    ensures value { (v : ℤ) → FitsSignedOctets 16 v → value_in (signed_decimal v) ≡ v }
    ensures word { (n : ℕ) → n < 2 ^ 64 → IsWord (decimal n) }
    ensures value_word { (v : ℤ) → FitsSignedOctets 16 v → IsWord (signed_decimal v) }
{}
