// Queries about membership. `%member c r` asks whether the configuration c obeys the rule r. OUT gives the first cell of c's
// box, in cell order, at which r is false: its position, and then its node.
use crate::formulas;
use crate::outputs::assert_answers;
use dd_trials_runs::HARD;
use std::test::Fail;

// Scripts that ask nothing, the last with the greatest limits.
const NO_QUERIES: [(&str, &str); 4] = [
    ("", ""),
    ("\t\r\n -- 100% x", ""),
    ("%rule a o=0", ""),
    ("%limits 8 8 100000", ""),
];

// Configurations that obey rules, and configurations that don't, with the first cell at which they break the rule.
const MEMBERS: [(&str, &str); 7] = [
    (HARD, "query 1 IN\n"),
    (
        "%rule hard o=1 -> (o.rt=0 & o.up=0) %conf c [1 1] 1 %member c hard",
        "query 1 OUT 0 0 0\n",
    ),
    (
        "%rule r o.rt=0 %conf c [3 1] 0 0 1 %member c r",
        "query 1 OUT 1 0 0\n",
    ),
    (
        "%rule r o.up.up=0 %conf c [1 3] 1 0 0 %member c r",
        "query 1 OUT 0 1 0\n",
    ),
    // An implication groups to the right, and a negation binds tightest.
    (
        "%conf z [1 1] 0 %rule a o=1 -> o=0 -> o=1 %member z a",
        "query 1 IN\n",
    ),
    (
        "%conf z [1 1] 0 %rule a !o=1 & o=1 %member z a",
        "query 1 OUT 0 0 0\n",
    ),
    (
        "%conf z [1 1] 0 %rule a o=0 %rule b o=1 %member z a %member z b",
        "query 1 IN\nquery 2 OUT 0 0 0\n",
    ),
];

// Configurations in one dimension and in three, and on two nodes.
const MEMBERS_ELSEWHERE: [(&str, &str); 4] = [
    (
        "%dim 1 %conf z [2] 0 1 %rule a o.rt=0 %member z a",
        "query 1 OUT 0 0\n",
    ),
    (
        "%dim 3 %conf z [1 1 2] 1 0 %rule a o.fw=0 %member z a",
        "query 1 OUT 0 0 1 0\n",
    ),
    (
        "%topology hex %conf z [1 1] 0 1 %rule a o.a=1 %member z a",
        "query 1 OUT 0 0 1\n",
    ),
    (
        "%nodes p q %topology hex %conf z [1 1] 0 1 %rule a o:p %member z a",
        "query 1 OUT 0 0 1\n",
    ),
];

// Words that could be read in two ways, and tokens without blanks between them.
const WORDS_AND_TOKENS: [(&str, &str); 4] = [
    // A word that is a variable in scope is not a symbol.
    (
        "%alphabet o i %conf z [1 1] i %rule a o=o %member z a",
        "query 1 IN\n",
    ),
    // A word of the language, such as `rule` or `when`, may also be a name in the script.
    (
        "%alphabet rule conf %conf when [1 1] conf %rule dim o=conf %member when dim",
        "query 1 IN\n",
    ),
    // `-->` begins a comment, and tokens need no blanks between them.
    (
        "%conf z [1 1] 0 %rule a o=0 --> o=1\n%member z a",
        "query 1 IN\n",
    ),
    ("%conf z[1 1]0%rule a Ap[o1]p=0%member z a", "query 1 IN\n"),
];

// Configurations with a shear. Each row is the row below it, moved to the right by the shear.
const SHEARED: [(&str, &str); 2] = [
    (
        "%alphabet 0 1 2 %conf c [3 1] [2] 1 2 0 %rule d (o=0 -> o.rt=1 & o.up=1) & (o=1 -> o.rt=2 & o.up=2) & (o=2 -> o.rt=0 & o.up=0) %member c d",
        "query 1 IN\n",
    ),
    (
        "%alphabet 0 1 2 %conf c [3 1] [1] 1 2 0 %rule d (o=0 -> o.rt=1 & o.up=1) & (o=1 -> o.rt=2 & o.up=2) & (o=2 -> o.rt=0 & o.up=0) %member c d",
        "query 1 OUT 0 0 0\n",
    ),
];

#[test]
fn answers_queries_of_membership(rt: HostRuntime) -> Result<(), Fail> {
    let alloc = rt.alloc();
    assert_answers(&rt, alloc, &NO_QUERIES)?;
    assert_answers(&rt, alloc, &MEMBERS)?;
    assert_answers(&rt, alloc, &MEMBERS_ELSEWHERE)?;
    assert_answers(&rt, alloc, &WORDS_AND_TOKENS)?;
    assert_answers(&rt, alloc, &SHEARED)?;
    assert_answers(&rt, alloc, &formulas::NODES_AND_MOVES)?;
    assert_answers(&rt, alloc, &formulas::DOMINATION)?;
    assert_answers(&rt, alloc, &formulas::ATOMS)?;
    assert_answers(&rt, alloc, &formulas::CONNECTIVES_AND_QUANTIFIERS)
}
