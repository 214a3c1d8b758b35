ghost use Rattle.std.specs.Prelude.{◌≡◌, ℕ, List, Option};
ghost use Rattle.mp_rules.specs.declared.entry.Entry.{Entry};
ghost use Rattle.mp_rules.specs.declared.entry.Local.{Local};
ghost use Rattle.mp_rules.specs.declared.facts.Fact.{Fact};
ghost use Rattle.mp_rules.specs.declared.facts.Question.{Question};
ghost use Rattle.mp_rules.specs.declared.facts.Question.TheVariants as question;
ghost use Rattle.mp_rules.specs.Entry.{kind_of};
ghost use Rattle.mp_rules.specs.Walk.{Is, entry_at};
ghost use Rattle.superblock.specs.Hiding.{is_yes, kind_in, size_in};

/// What a walk finds at a key is what hides all else there, by what the bucket answered to the two questions about it
/// and what is local.
pub fn entries_go_by_what_hides()
    ensures { (facts : Question → Option Fact) (locally : List ℕ → Local) (key : List ℕ) (entry : Entry) → entry_at facts locally key ≡ Is entry
        → kind_in entry ≡ kind_of (is_yes (facts (question.Probe key))) (locally key) (size_in (facts (question.Head key))) }
{}
