// What formulas mean. The scripts of the first tables ask whether a formula is true at every cell of a configuration. If it
// isn't, the answer has the first cell at which it is false. These answers were found by hand. The last table is about limits.
// The expansion of a formula has all quantifiers written out over their cells. Its constants, leaves and connectives are the
// instances of the formula. (A leaf says that a cell has a certain symbol.) The reach of the formula is the greatest distance
// along an axis at which it reads a cell.
use dd_trials_runs::run_on;
use std::alloc::{AllocError, Global};
use std::test::Fail;

// A formula at both nodes of the hexagonal lattice, and a move that is missing at the second node.
pub(crate) const NODES_AND_MOVES: [(&str, &str); 5] = [
    // A formula at both nodes of the hexagonal lattice.
    (
        "%topology hex %rule free Ap[o1] (p~o -> !(p=1 & o=1)) %conf c [1 1] 1 0 %member c free",
        "query 1 IN\n",
    ),
    (
        "%topology hex %rule free Ap[o1] (p~o -> !(p=1 & o=1)) %conf c [1 1] 1 1 %member c free",
        "query 1 OUT 0 0 0\n",
    ),
    (
        "%topology hex %rule free Ap[o1] (p~o -> !(p=1 & o=1)) %conf c [2 1] 0 1 1 0 %member c free",
        "query 1 OUT 0 0 1\n",
    ),
    // A move that is missing at the second node.
    (
        "%dim 1 %nodes a b %topology (x a [0] b) %rule p !(o.x=1) %rule q o.x!=1 %conf c [1] 1 0 %member c p %member c q",
        "query 1 IN\nquery 2 OUT 0 1\n",
    ),
    (
        "%dim 1 %nodes a b %topology (x a [0] b) %rule p !(o.x=1) %conf c [2] 0 0 1 1 %member c p",
        "query 1 OUT 1 0\n",
    ),
];

// Domination on each of the built-in topologies.
pub(crate) const DOMINATION: [(&str, &str); 6] = [
    (
        "%dim 1 %rule dom Ep[o1] p=1 %conf c [3] 0 1 0 %conf d [4] 0 1 0 0 %member c dom %member d dom",
        "query 1 IN\nquery 2 OUT 3 0\n",
    ),
    (
        "%rule dom Ep[o1] p=1 %conf c [5 1] 1 0 0 0 0 %conf d [5 5] 1 0 0 0 0 0 0 1 0 0 0 0 0 0 1 0 1 0 0 0 0 0 0 1 0 %member c dom %member d dom",
        "query 1 OUT 2 0 0\nquery 2 IN\n",
    ),
    (
        "%topology king %rule dom Ep[o1] p=1 %conf c [3 3] 0 0 0 0 1 0 0 0 0 %conf d [3 4] 0 0 0 0 1 0 0 0 0 0 0 0 %member c dom %member d dom",
        "query 1 IN\nquery 2 OUT 0 3 0\n",
    ),
    (
        "%topology triangle %rule dom Ep[o1] p=1 %conf c [3 3] 0 0 0 0 1 0 0 0 0 %conf d [2 2] 1 0 0 0 %member c dom %member d dom",
        "query 1 OUT 2 0 0\nquery 2 IN\n",
    ),
    (
        "%topology hex %rule dom Ep[o1] p=1 %conf c [1 1] 0 1 %conf d [2 1] 0 1 0 0 %member c dom %member d dom",
        "query 1 IN\nquery 2 OUT 1 0 1\n",
    ),
    (
        "%dim 3 %rule dom Ep[o1] p=1 %conf c [1 1 3] 1 0 0 %conf d [1 1 4] 1 0 0 0 %member c dom %member d dom",
        "query 1 IN\nquery 2 OUT 0 0 2 0\n",
    ),
];

// Each kind of atom, where it is true and where it is false.
pub(crate) const ATOMS: [(&str, &str); 5] = [
    (
        "%dim 1 %conf c [2] 0 1 %rule a o=0 %rule b o!=1 %rule d o=0 | o=1 %member c a %member c b %member c d",
        "query 1 OUT 1 0\nquery 2 OUT 1 0\nquery 3 IN\n",
    ),
    (
        "%dim 1 %conf c [2] 0 1 %rule a o=o.rt %rule b o!=o.rt %rule d o=o.rt.rt %rule e o!=o.rt.rt %member c a %member c b %member c d %member c e",
        "query 1 OUT 0 0\nquery 2 IN\nquery 3 IN\nquery 4 OUT 0 0\n",
    ),
    (
        "%dim 1 %conf c [1] 0 %rule a o~o.rt %rule b o~o %rule d o~o.rt.rt %rule e o.rt.rt~o.rt %member c a %member c b %member c d %member c e",
        "query 1 IN\nquery 2 OUT 0 0\nquery 3 OUT 0 0\nquery 4 IN\n",
    ),
    (
        "%dim 1 %conf c [1] 0 %rule a o@o.rt.lt %rule b o@o.rt %member c a %member c b",
        "query 1 IN\nquery 2 OUT 0 0\n",
    ),
    (
        "%dim 1 %nodes a b %topology (x a [0] b) (y b [1] a) %conf c [1] 0 0 %rule p o:a %rule q o:b | o.x:b %rule r o.x.y:a | o:b %member c p %member c q %member c r",
        "query 1 OUT 0 1\nquery 2 IN\nquery 3 IN\n",
    ),
];

// Each connective, and quantifiers over one ball and over two.
pub(crate) const CONNECTIVES_AND_QUANTIFIERS: [(&str, &str); 2] = [
    // Each connective.
    (
        "%dim 1 %alphabet 0 1 2 3 %conf c [4] 0 1 2 3 %rule a !(o=1 | o=2) -> (o=0 | o=3) %rule b (o=0 | o=1) <-> (o!=2 & o!=3) %rule d o=0 | o=1 -> o=1 %rule e o=0 <-> o=1 <-> o=2 %member c a %member c b %member c d %member c e",
        "query 1 IN\nquery 2 IN\nquery 3 OUT 0 0\nquery 4 OUT 3 0\n",
    ),
    // Quantifiers over one ball and over two.
    (
        "%dim 1 %conf c [4] 0 0 1 0 %rule a Ap[o1] (p=1 -> Aq[p1o1] (q=1 -> q@p)) %rule b Ep[o2] (p=1 & !p@o) %member c a %member c b",
        "query 1 IN\nquery 2 OUT 2 0\n",
    ),
];

// The cell that is 15 moves to the right of `p`. If `p` is two moves to the right of `o`, this is one move further than a rule
// may read.
const FAR: &str = "p.rt.rt.rt.rt.rt.rt.rt.rt.rt.rt.rt.rt.rt.rt.rt";

// Three nested quantifiers. Each inner one ranges over the ball around the cell of the quantifier before it.
const LARGE: &str = "Ap[o3] Aq[p3] Ar[q3]";

// Scripts in which the words FAR and LARGE stand for these texts, each with the last line of its output. This line says why the
// script is refused, or it is `end`.
const EXPANSIONS: [(&str, &str); 11] = [
    ("%rule a Ap[o1] FAR=0", "end"),
    ("%rule a Ap[o2] FAR=0", "refused 1 size reach"),
    ("%rule a LARGE r=0", "end"),
    (
        "%topology king %rule a LARGE r=0",
        "refused 2 size instances",
    ),
    // A variable that is bound twice is reported rather than a limit, and the limit on instances rather than the one on reach.
    (
        "%topology king %rule a Ap[o2] LARGE FAR=0",
        "refused 2 twice p",
    ),
    (
        "%topology king %rule a LARGE (r=0 & FAR=0)",
        "refused 2 size instances",
    ),
    // The instances of all cases of an automaton are counted together.
    (
        "%auto f when Ap[o2] FAR=0 give 0 when LARGE r=0 give 0 else 1",
        "refused 1 size reach",
    ),
    (
        "%auto f when Ap[o2] FAR=0 give 0 when LARGE r=0 give 0 when LARGE r=1 give 0 else 1",
        "refused 1 size instances",
    ),
    (
        "%auto f when o.rt=1 give 1 else 0 %compose g f f %compose h g g",
        "end",
    ),
    (
        "%auto f when Ap[o3] p.rt.rt.rt.rt.rt.rt=0 give 0 else 1 %compose g f f",
        "refused 2 size reach",
    ),
    (
        "%dim 3 %limits 8 8 10 %rule a Ap[o3] Aq[p3] q=0 %empty a",
        "refused 4 size clauses",
    ),
];

// The script with these texts in place of the words FAR and LARGE.
fn written_out(alloc: Global, script: &str) -> Result<String, AllocError> {
    let script = script.replace(alloc, "FAR", FAR)?;
    script.replace(alloc, "LARGE", LARGE)
}

#[test]
fn scripts_that_exceed_limits_are_refused(rt: HostRuntime) -> Result<(), Fail> {
    let alloc = rt.alloc();
    for (script, last) in EXPANSIONS {
        let script = written_out(alloc, script)?;
        let (_, output) = run_on(alloc, script.as_bytes())?;
        let line = format!(in alloc; "{last}\n")?;
        assert!(rt; output.ends_with(line.as_bytes()), "{script}");
    }
    Ok(())
}
