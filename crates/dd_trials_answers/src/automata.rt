// Whether two automata agree on a rule's configurations: the answers of runs, and whether a check accepts these and other
// answers.
use crate::outputs::{assert_answers, assert_checks, assert_first_lines, assert_lines};
use std::alloc::{AllocError, Global};
use std::test::Fail;

// Scripts, and the first lines of their answers.
const AGREEMENTS: [(&str, &str); 6] = [
    // `r` gives each cell the exclusive or of its neighbours. The first query compares `r` applied twice with `far`, and the
    // second compares `r` with the identity.
    (
        "%dim 1 %rule full o@o %auto r when o.lt!=o.rt give 1 else 0 %compose rr r r %auto far when o.lt.lt!=o.rt.rt give 1 else 0 %auto id when o=1 give 1 else 0 %same rr far full %same r id full",
        "query 1 YES 2\nquery 2 NO 1\n",
    ),
    // The automata agree on only one configuration.
    (
        "%auto id when o=1 give 1 else 0 %auto nul else 0 %rule z o=0 %rule full o@o %same id nul z %same id nul full",
        "query 1 YES 0\nquery 2 NO 1 1\n",
    ),
    // Rule 110, written in two ways, and its mirror image.
    (
        "%dim 1 %rule full o@o %auto f when o.lt=1 & o=1 & o.rt=1 give 0 when o=1 | o.rt=1 give 1 else 0 %auto g when o!=o.rt give 1 when o.lt=0 & o=1 give 1 else 0 %auto m when o.lt=1 & o=1 & o.rt=1 give 0 when o=1 | o.lt=1 give 1 else 0 %same f g full %same f m full",
        "query 1 YES 1\nquery 2 NO 3\n",
    ),
    // The automata agree on the configurations of `alt`, and on no others.
    (
        "%dim 1 %rule alt o!=o.rt %auto id when o=1 give 1 else 0 %auto op when o.rt=1 give 0 else 1 %same id op alt",
        "query 1 YES 1\n",
    ),
    // `ex` exchanges the symbols of the two nodes of each position. Applied twice, it is the identity; applied once, it isn't.
    (
        "%topology hex %rule full o@o %auto ex when o.a=1 give 1 else 0 %auto id when o=1 give 1 else 0 %compose twice ex ex %same twice id full %same ex id full",
        "query 1 YES 0\nquery 2 NO 1 1\n",
    ),
    // All configurations of `cyc` have the period 3, which exceeds the limit.
    (
        "%dim 1 %alphabet 0 1 2 %limits 4 2 10 %rule cyc (o=0 -> o.rt=1) & (o=1 -> o.rt=2) & (o=2 -> o.rt=0) %auto id when o=1 give 1 when o=2 give 2 else 0 %auto nul else 0 %same id nul cyc",
        "query 1 UNKNOWN limits\n",
    ),
];

// Scripts and their whole answers. Each answer has a configuration on which the automata differ.
const DIFFERENCES: [(&str, &str); 4] = [
    // The exclusive or of the neighbours is 0 if all cells are 1.
    (
        "%dim 1 %rule full o@o %auto r when o.lt!=o.rt give 1 else 0 %auto id when o=1 give 1 else 0 %same r id full",
        "query 1 NO 1\nconf 1\n",
    ),
    (
        "%auto id when o=1 give 1 else 0 %auto nul else 0 %rule full o@o %same id nul full",
        "query 1 NO 1 1\nconf 1\n",
    ),
    // The first true case counts; at a 1 both cases are true.
    (
        "%dim 1 %rule full o@o %auto f when o=1 give 0 when o@o give 1 else 0 %auto g when o@o give 1 when o=1 give 0 else 0 %same f g full",
        "query 1 NO 1\nconf 1\n",
    ),
    // The first node allows only 0, so both automata give it 0. They differ only at the second node, if it has the symbol 1.
    (
        "%dim 1 %nodes a b %topology (x a [0] b) (x b [0] a) %only a 0 %rule full o@o %auto id when o=1 give 1 else 0 %auto nul else 0 %same id nul full",
        "query 1 NO 1\nconf 0 1\n",
    ),
];

// A script whose automata differ.
const DIFFERENT: &str =
    "%auto id when o=1 give 1 else 0 %auto nul else 0 %rule full o@o %same id nul full";

// Lines of answers to this script, and whether a check accepts them.
const CHECKED: [(&str, bool); 4] = [
    ("query 1 NO 1 1\nconf 1\n", true),
    // In the next two answers, both automata give the origin the value 0. The last answer names a side, which only an answer to
    // an equality has.
    ("query 1 NO 1 1\nconf 0\n", false),
    ("query 1 NO 2 1\nconf 0 1\n", false),
    ("query 1 NO left 1 1\nconf 1\n", false),
];

#[test]
fn compares_automata(rt: HostRuntime) -> Result<(), Fail> {
    let alloc = rt.alloc();
    assert_lines(&rt, alloc, &AGREEMENTS)?;
    assert_answers(&rt, alloc, &DIFFERENCES)?;
    assert_checks(&rt, alloc, DIFFERENT, &CHECKED)
}

// Names for the automata of one script.
const NAMES: [&str; 16] = [
    "a", "b", "c", "d", "e", "f", "g", "h", "i", "j", "k", "l", "m", "n", "o", "p",
];

// Adds the elementary automaton with this number (Wolfram 1983) to the text. Bit k of the number is a cell's value if the symbols
// of its left neighbour, of the cell and of its right neighbour spell k in binary.
fn push_elementary(
    alloc: Global,
    text: &mut String,
    name: &str,
    number: u32,
) -> Result<(), AllocError> {
    text.push_str(format!(in alloc; "%auto f{name}")?.as_str())?;
    for cells in 1..8u32 {
        let (left, here, right) = ((cells >> 2) & 1, (cells >> 1) & 1, cells & 1);
        let value = (number >> cells) & 1;
        text.push_str(format!(in alloc;
            " when o.lt={left} & o={here} & o.rt={right} give {value}"
        )?.as_str())?;
    }
    let value = number & 1;
    text.push_str(format!(in alloc; " else {value}\n")?.as_str())
}

// A script with sixteen elementary automata, numbered from `first` on. For each of them a query asks whether it commutes with
// the shift.
fn commuting(alloc: Global, first: u32) -> Result<String, AllocError> {
    let mut text = String::from_str(
        alloc,
        "%dim 1\n%rule full o@o\n%auto s when o.rt=1 give 1 else 0\n",
    )?;
    for (number, name) in (0..16u32).zip(NAMES) {
        push_elementary(alloc, &mut text, name, first.saturating_add(number))?;
        text.push_str(format!(in alloc;
            "%compose l{name} f{name} s\n%compose r{name} s f{name}\n%same l{name} r{name} full\n"
        )?.as_str())?;
    }
    Ok(text)
}

// The first lines of the answers if all sixteen automata commute with the shift. The radius 2 is the least whose box holds all
// that the compositions read.
fn sixteen_yes(alloc: Global) -> Result<String, AllocError> {
    let mut lines = String::new(alloc);
    for number in 1..17u32 {
        lines.push_str(format!(in alloc; "query {number} YES 2\n")?.as_str())?;
    }
    Ok(lines)
}

#[test]
fn elementary_automata_commute_with_the_shift(rt: HostRuntime) -> Result<(), Fail> {
    let alloc = rt.alloc();
    let answers = sixteen_yes(alloc)?;
    for first in (0..256u32).step_by(16) {
        let script = commuting(alloc, first)?;
        assert_first_lines(&rt, alloc, script.as_str(), answers.as_str())?;
    }
    Ok(())
}
