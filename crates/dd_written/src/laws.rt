//! What the reader of formulas guarantees.
ghost use Rattle.dd_written.specs.reading.Laws.{FormulasAreRead};

/// Does nothing. Its contract says two things. First, if a formula is read from tokens, then the tokens begin with the text of
/// the formula, and go on with the tokens that are left. The formula's parts have parentheses wherever they need them, each of
/// its quantifiers has at least one ball, each of its chains has at least two parts, and its depth is at most 64. Second, the
/// text of each such formula is read as that formula, unless `.` or a sign follows the text.
pub fn formula_is_read()
    ensures { FormulasAreRead }
{}
