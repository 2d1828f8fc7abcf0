//! The laws, each as the contract of a function with an empty body.

ghost use Rattle.specification.specs.TraceText.{EachTextSpellsOrHasFault};
ghost use Rattle.trace_text.specs.Laws.{TextsSpellOneRecording, SpelledTextsHaveNoFault};
ghost use Rattle.trace_text.specs.Laws.{TextsHaveOneFirstFault, WrittenTextsSpell};

/// A text spells at most one recording.
pub fn texts_spell_one_recording()
    ensures { TextsSpellOneRecording }
{}

/// What `write` gives for a recording spells it.
pub fn written_texts_spell()
    ensures { WrittenTextsSpell }
{}

/// A text that spells a recording has no fault.
pub fn spelled_texts_have_no_fault()
    ensures { SpelledTextsHaveNoFault }
{}

/// A text has at most one first fault.
pub fn texts_have_one_first_fault()
    ensures { TextsHaveOneFirstFault }
{}

/// Each text spells a recording or has a fault.
pub fn each_text_spells_or_has_a_fault()
    ensures { EachTextSpellsOrHasFault }
{}
