//! What the text of certificates is. Each law is the contract of a function that does nothing.

ghost use Rattle.qf_certtext.specs.Drafts.{LinesAreAccepted};
ghost use Rattle.qf_certtext.specs.Texts.{ReadingsAreOne, SpellingsDoNotGoOn};

/// The lines that a draft takes to its end are exactly the lines of a certificate whose tree is whole.
pub fn lines_are_accepted()
    ensures { LinesAreAccepted }
{}

/// Bytes are one certificate's text, or have one fault, and not two of these.
pub fn readings_are_one()
    ensures { ReadingsAreOne }
{}

/// No certificate's text begins with that of another.
pub fn spellings_do_not_go_on()
    ensures { SpellingsDoNotGoOn }
{}
