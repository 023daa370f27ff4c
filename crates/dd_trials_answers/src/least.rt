// The least weight of a torus: the answers of runs, and whether a check accepts these and other answers. `%least r [m n]` is
// about the configurations that obey the rule r and have the periods m and n and no shear. LEAST gives the least weight of one
// box with these periods, and NONE means that there is no such configuration.
use crate::outputs::{assert_answers, assert_checks, assert_lines};
use std::test::Fail;

// Scripts, and the first lines of their answers.
const WEIGHTS: [(&str, &str); 5] = [
    // Two 1s never dominate nine cells. The first leaves four cells undominated, and the second dominates at most three of them.
    ("%rule dom Ep[o1] p=1 %least dom [3 3]", "query 1 LEAST 3\n"),
    (
        "%dim 1 %rule cover o=1 | o.rt=1 %rule stuck o.rt=1 & !(o=1 & o.rt=1) %rule z o=0 %least cover [3] %least stuck [2] %least z [2]",
        "query 1 LEAST 2\nquery 2 NONE\nquery 3 LEAST 0\n",
    ),
    // Both symbols weigh something, and a ring of odd length can't alternate.
    (
        "%dim 1 %weights 2 3 %rule alt o!=o.rt %least alt [2] %least alt [3]",
        "query 1 LEAST 5\nquery 2 NONE\n",
    ),
    // There are eight cells, two at each position. Each cell dominates itself and three others.
    (
        "%topology hex %rule dom Ep[o1] p=1 %least dom [2 2]",
        "query 1 LEAST 2\n",
    ),
    // The symbol 0 would be lighter, but isn't allowed.
    (
        "%dim 1 %only 0 1 %rule full o@o %least full [4]",
        "query 1 LEAST 4\n",
    ),
];

// A script and its whole answer. Nothing weighs less than 0, so there is no refutation.
const NOTHING: [(&str, &str); 1] = [(
    "%dim 1 %rule z o=0 %least z [2]",
    "query 1 LEAST 0\nconf 0 0\n",
)];

// A script with one query, whose clauses are short.
const ONES: &str = "%dim 1 %rule ones o=1 %least ones [1]";

// Lines of answers to this script, and whether a check accepts them. In the clauses that ask for a weight below 1, the variable
// 1 says that the cell is 0, the variable 2 that it is 1, and the variable 3 that the weight is at least 1. The clauses are, in
// order, (1 2) and (-1 -2) for the cell, (2) for the rule, and (3 -2), (-3 2) and (-3) for the weight.
const CHECKED: [(&str, bool); 9] = [
    (
        "query 1 LEAST 1\nconf 1\nrefutation 1\nstep 0 3 4 6 0 0\n",
        true,
    ),
    // Wrong weights: one too small and one too large.
    ("query 1 LEAST 0\nconf 1\n", false),
    (
        "query 1 LEAST 2\nconf 1\nrefutation 1\nstep 0 3 4 6 0 0\n",
        false,
    ),
    // A configuration that doesn't obey the rule, and one with too many symbols.
    (
        "query 1 LEAST 1\nconf 0\nrefutation 1\nstep 0 3 4 6 0 0\n",
        false,
    ),
    (
        "query 1 LEAST 1\nconf 1 1\nrefutation 1\nstep 0 3 4 6 0 0\n",
        false,
    ),
    // A hint to a clause that is already true.
    (
        "query 1 LEAST 1\nconf 1\nrefutation 1\nstep 0 3 5 6 0 0\n",
        false,
    ),
    // Some configuration obeys the rule. The last two answers belong to other kinds of query.
    ("query 1 NONE\nrefutation 1\nstep 0 3 4 6 0 0\n", false),
    ("query 1 UNKNOWN limits\n", false),
    ("query 1 YES 0\nrefutation 1\nstep 0 3 4 6 0 0\n", false),
];

#[test]
fn weighs_tori(rt: HostRuntime) -> Result<(), Fail> {
    let alloc = rt.alloc();
    assert_lines(&rt, alloc, &WEIGHTS)?;
    assert_answers(&rt, alloc, &NOTHING)?;
    assert_checks(&rt, alloc, ONES, &CHECKED)
}
