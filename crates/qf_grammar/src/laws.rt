//! Laws of the definitions. The calls do nothing.

ghost use Rattle.qf_grammar.specs.Laws.{FormsAreSpelled, StatementsAreStated};

/// Lexemes are read as a statement exactly where they spell it.
pub fn forms_are_spelled()
    ensures { FormsAreSpelled }
{}

/// Each statement of a log is spelled by a piece of it and multiplies names by small numbers alone, and what the statements
/// use are the names, texts and numbers of the log in their order.
pub fn statements_are_stated()
    ensures { StatementsAreStated }
{}
