ghost use Rattle.qf_width.specs.Lies.{LivesLieInWidths};
ghost use Rattle.qf_width.specs.TextWidths.{TextsAreNarrow};

/// At each point of the domains, and at each statement, the cells of each row's life lie in the widths at that statement.
/// The law holds of the definitions, and the call does nothing.
pub fn lives_lie_in_widths()
    ensures { LivesLieInWidths }
{}

/// Texts count by their codes, which are far from the limit, so no text makes a statement wide. The law holds of the
/// definitions, and the call does nothing.
pub fn texts_are_narrow()
    ensures { TextsAreNarrow }
{}
