//! What a JSON text means: the definitions stand in `specs/`, and each function here promises a law over them and does
//! nothing. The module `error` has the error of the library, `kind` the kinds of containers. No text is read or written
//! here.
//!
//! A tree is in range (`InRange`) exactly if some text spells it: its integers fit 64 bits, its number texts are other
//! numbers, and its strings are UTF-8.
#![tactic(auto)]

ghost use Rattle.miniserde_model.specs.Examples.{NormalForms, RefusedTexts, SpelledTexts};
ghost use Rattle.miniserde_model.specs.Laws.{CanonicalIsShortest, CanonicalTextsEqual, CompactIsValue, CompactSpells, DistinctKeepsSize, EventsComplete};
ghost use Rattle.miniserde_model.specs.Laws.{CompletionsArePrefixFree, NormIsDistinct, NormIsNormal, NormIsOnly, NormInRange};
ghost use Rattle.miniserde_model.specs.Laws.{NormKeepsLast, NormRises, PutGivesNorm, JsonInRange, JsonIsUtf8, TextHasOneTree};

pub mod error;
pub mod kind;

/// Does nothing. It promises that a text has one tree at most.
pub fn text_has_one_tree()
    ensures { TextHasOneTree }
{}

/// Does nothing. It promises that the numbers of every tree that some text spells are in range, and that its strings
/// are UTF-8.
pub fn json_in_range()
    ensures { JsonInRange }
{}

/// Does nothing. It promises that every text that spells a tree is UTF-8.
pub fn json_is_utf8()
    ensures { JsonIsUtf8 }
{}

/// Does nothing. It promises that the compact text of a tree in range spells the tree, both as a whole text and as a
/// value without whitespace around it.
pub fn compact_spells()
    ensures text { CompactSpells }
    ensures value { CompactIsValue }
{}

/// Does nothing. It promises that the normal form of a normal form is itself, and that the normal form keeps numbers
/// in range and strings in UTF-8.
pub fn norm_is_normal()
    ensures idempotent { NormIsNormal }
    ensures tree { NormInRange }
{}

/// Does nothing. It promises that the normal form of members has, in byte order of the names, one
/// member for each name, with the normal form of the name's last tree. No other members do. Putting
/// the members one by one into a map gives this form.
pub fn norm_of_members()
    ensures last { NormKeepsLast }
    ensures order { NormRises }
    ensures only { NormIsOnly }
    ensures put { PutGivesNorm }
{}

/// Does nothing. It promises that a normal form has no duplicate name. If the tree has none either, both have the
/// same size.
pub fn norm_of_distinct()
    ensures distinct { NormIsDistinct }
    ensures size { DistinctKeepsSize }
{}

/// Does nothing. It promises that two trees, each of which some text spells, have equal canonical texts exactly if they
/// have equal normal forms.
pub fn canonical_texts_equal()
    ensures { CanonicalTextsEqual }
{}

/// Does nothing. It promises that no text that spells a tree is shorter than the canonical text of that tree, which
/// every tree of the same normal form shares.
pub fn canonical_is_shortest()
    ensures { CanonicalIsShortest }
{}

/// Does nothing. It promises that a value is complete after the events of its tree, and that no list of events that
/// completes a position is a proper prefix of another one that completes the same position.
pub fn events_complete()
    ensures one { EventsComplete }
    ensures only { CompletionsArePrefixFree }
{}

/// Does nothing. It promises worked examples: texts with their trees, trees with their normal forms or compact texts,
/// and texts without a tree.
pub fn worked_examples()
    ensures spelled { SpelledTexts }
    ensures normal { NormalForms }
    ensures refused { RefusedTexts }
{}
