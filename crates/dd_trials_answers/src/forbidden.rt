// Forbidden patterns: the lists that runs write, and whether a check accepts these and other lists. A pattern gives symbols to
// the cells that a rule reads at a node, and is forbidden if these symbols make the rule false. Its line has the node and then
// the symbols, in cell order.
use crate::outputs::{assert_answers, assert_checks};
use std::test::Fail;

// Scripts and the lines of their answers.
const LISTS: [(&str, &str); 10] = [
    // The cells that are read are the origin, the cell to its right and the cell above it.
    (
        "%rule hard o=1 -> (o.rt=0 & o.up=0) %forbidden hard",
        "query 1 LIST 3\npattern 0 1 0 1\npattern 0 1 1 0\npattern 0 1 1 1\n",
    ),
    ("%rule full o@o %forbidden full", "query 1 LIST 0\n"),
    // The rule reads nothing and is false.
    (
        "%rule none !(o@o) %forbidden none",
        "query 1 LIST 1\npattern 0\n",
    ),
    // The second node lacks the move, so the atom is false there.
    (
        "%dim 1 %nodes a b %topology (x a [0] b) %rule p o.x=1 %forbidden p",
        "query 1 LIST 2\npattern 0 0\npattern 1\n",
    ),
    // Only patterns of allowed symbols are listed.
    (
        "%dim 1 %alphabet 0 1 2 %only 0 0 2 %rule a o=1 | o.rt=0 %forbidden a",
        "query 1 LIST 2\npattern 0 0 2\npattern 0 2 2\n",
    ),
    // A third symbol that isn't allowed changes nothing: there are three patterns. If it is allowed, there are eight.
    (
        "%alphabet 0 1 2 %only 0 0 1 %rule hard o=1 -> (o.rt=0 & o.up=0) %forbidden hard",
        "query 1 LIST 3\npattern 0 1 0 1\npattern 0 1 1 0\npattern 0 1 1 1\n",
    ),
    (
        "%alphabet 0 1 2 %rule hard o=1 -> (o.rt=0 & o.up=0) %forbidden hard",
        "query 1 LIST 8\npattern 0 1 0 1\npattern 0 1 0 2\npattern 0 1 1 0\npattern 0 1 1 1\npattern 0 1 1 2\npattern 0 1 2 0\npattern 0 1 2 1\npattern 0 1 2 2\n",
    ),
    // The patterns are listed node by node.
    (
        "%topology hex %rule free Ap[o1] (p~o -> !(p=1 & o=1)) %rule q o=0 %forbidden q",
        "query 1 LIST 2\npattern 0 1\npattern 1 1\n",
    ),
    // Each node has its own allowed symbols. A cell that is read may have only the symbols that its own node allows.
    (
        "%dim 1 %nodes a b %topology (x a [0] b) (x b [0] a) %only b 1 %rule p o=0 %forbidden p",
        "query 1 LIST 2\npattern 0 1\npattern 1 1\n",
    ),
    (
        "%dim 1 %nodes a b %topology (x a [0] b) (x b [0] a) %only b 1 %rule p o=o.x %forbidden p",
        "query 1 LIST 2\npattern 0 0 1\npattern 1 0 1\n",
    ),
];

// Lines of answers to the first script, and whether a check accepts them.
const CHECKED: [(&str, bool); 5] = [
    (
        "query 1 LIST 3\npattern 0 1 0 1\npattern 0 1 1 0\npattern 0 1 1 1\n",
        true,
    ),
    ("query 1 LIST 2\npattern 0 1 0 1\npattern 0 1 1 0\n", false),
    (
        "query 1 LIST 3\npattern 0 1 1 0\npattern 0 1 0 1\npattern 0 1 1 1\n",
        false,
    ),
    ("query 1 LIST 0\n", false),
    ("query 1 UNKNOWN limits\n", false),
];

#[test]
fn lists_forbidden_patterns(rt: HostRuntime) -> Result<(), Fail> {
    let alloc = rt.alloc();
    assert_answers(&rt, alloc, &LISTS)?;
    let (script, _) = LISTS[0];
    assert_checks(&rt, alloc, script, &CHECKED)
}
