// Minimal forbidden patterns: the lists that runs write, and whether a check accepts these and other lists. A filling gives an
// allowed symbol to each cell that a rule reads at a node. A pattern gives allowed symbols to some of these cells, and has a
// `*` for each cell that it leaves out. It is forbidden if every filling that agrees with it breaks the rule. A forbidden
// pattern is minimal if no pattern that leaves out a further cell is forbidden.
use crate::outputs::{assert_answers, assert_checks};
use std::test::Fail;

// Scripts and the lines of their answers.
const LISTS: [(&str, &str); 8] = [
    // The cells that are read are the origin, the cell to its right and the cell above it. Three fillings break the rule. The
    // first and the second give patterns that leave out one cell each. The third agrees with both of these patterns.
    (
        "%rule hard o=1 -> (o.rt=0 & o.up=0) %minimal hard",
        "query 1 MINIMAL 2\npattern 0 1 * 1\npattern 0 1 1 *\n",
    ),
    ("%rule full o@o %minimal full", "query 1 MINIMAL 0\n"),
    // A rule that is false whatever it reads, and one that reads nothing.
    (
        "%dim 1 %rule x o=0 & o=1 %rule y !(o@o) %minimal x %minimal y",
        "query 1 MINIMAL 1\npattern 0 *\nquery 2 MINIMAL 1\npattern 0\n",
    ),
    // The second node lacks the move, so the atom is false there.
    (
        "%dim 1 %nodes a b %topology (x a [0] b) %rule p o.x=1 %minimal p",
        "query 1 MINIMAL 2\npattern 0 0\npattern 1\n",
    ),
    // No cell can be left out.
    (
        "%dim 1 %rule eq o=o.rt %minimal eq",
        "query 1 MINIMAL 2\npattern 0 0 1\npattern 0 1 0\n",
    ),
    // If the cell to the right is 2, the rule is false for each symbol that the origin's node allows, so the origin is left
    // out. With the symbol 1 at the origin the rule would be true, but 1 isn't allowed.
    (
        "%dim 1 %alphabet 0 1 2 %only 0 0 2 %rule a o=1 | o.rt=0 %minimal a",
        "query 1 MINIMAL 1\npattern 0 * 2\n",
    ),
    // The pattern * 1 1 is minimal too, but other patterns already forbid each filling that it forbids.
    (
        "%dim 1 %rule r !((o.lt=1 & o=1) | (o.lt=0 & o.rt=1)) %minimal r",
        "query 1 MINIMAL 2\npattern 0 0 * 1\npattern 0 1 1 *\n",
    ),
    // The patterns are listed node by node.
    (
        "%dim 1 %nodes a b %topology (x a [0] b) (x b [0] a) %only b 1 %rule p o=o.x %minimal p",
        "query 1 MINIMAL 2\npattern 0 0 *\npattern 1 0 *\n",
    ),
];

// Lines of answers to the first script, and whether a check accepts them.
const CHECKED: [(&str, bool); 9] = [
    (
        "query 1 MINIMAL 2\npattern 0 1 * 1\npattern 0 1 1 *\n",
        true,
    ),
    (
        "query 1 MINIMAL 2\npattern 0 1 1 *\npattern 0 1 * 1\n",
        false,
    ),
    ("query 1 MINIMAL 1\npattern 0 1 * 1\n", false),
    // A symbol for a cell that should be left out, and none for a cell that should be kept.
    (
        "query 1 MINIMAL 2\npattern 0 1 0 1\npattern 0 1 1 *\n",
        false,
    ),
    (
        "query 1 MINIMAL 2\npattern 0 1 * *\npattern 0 1 1 *\n",
        false,
    ),
    // The fillings that break the rule, with no cell left out: as a MINIMAL, and as a LIST, which answers another kind of
    // query.
    (
        "query 1 MINIMAL 3\npattern 0 1 0 1\npattern 0 1 1 0\npattern 0 1 1 1\n",
        false,
    ),
    (
        "query 1 LIST 3\npattern 0 1 0 1\npattern 0 1 1 0\npattern 0 1 1 1\n",
        false,
    ),
    ("query 1 MINIMAL 0\n", false),
    ("query 1 UNKNOWN limits\n", false),
];

#[test]
fn lists_minimal_forbidden_patterns(rt: HostRuntime) -> Result<(), Fail> {
    let alloc = rt.alloc();
    assert_answers(&rt, alloc, &LISTS)?;
    let (script, _) = LISTS[0];
    assert_checks(&rt, alloc, script, &CHECKED)
}
