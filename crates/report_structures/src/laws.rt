//! The changes that requests ask for, and the structures that reports tell.
ghost use Rattle.std.specs.Prelude.{◌≡◌, ℕ, Some};
ghost use Rattle.hk_base.specs.TailoringParts.{TailoringParts};
ghost use Rattle.hk_base.specs.Definitions.{IsWellFormed};
ghost use Rattle.hk_base.specs.declared.types.Key.{Key};
ghost use Rattle.hk_base.specs.declared.types.Structure.{Structure};
ghost use Rattle.st03_grammar.specs.declared.bodies.Request03.{Request03};
ghost use Rattle.st03_grammar.specs.Instructions.{StructureChange, instruction_at};
ghost use Rattle.st03_grammar.specs.Spelling.{IsRequest03, IsReport03};
ghost use Rattle.st03_grammar.specs.declared.bodies.Report03.TheVariants as told;
ghost use Rattle.report_structures.specs.Changes.{IsGrammarChange};

/// Each instruction of a request of the grammar is a change of the grammar.
pub fn changes_of_requests()
    ensures { (t : TailoringParts) (r : Request03) (n : ℕ) (key : Key) (change : StructureChange) → IsRequest03 t r → instruction_at r n ≡ Some (key, change)
        → IsGrammarChange t change }
{}

/// The structure that a report of the grammar tells is valid, the size of its payload aside.
pub fn structures_of_reports()
    ensures { (t : TailoringParts) (key : Key) (s : Structure) → IsReport03 t (told.Structure key s) → IsWellFormed t s.def }
{}
