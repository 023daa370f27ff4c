// Clause lists, and which assignments satisfy them. A list is given by signed numbers of variables, with 0 at the end of each
// clause. A negative number stands for the negation of its variable.
use dd_clause::{Assignment, Clause, Cnf, Literal, satisfies};
use std::alloc::{AllocError, Global};
use std::test::Fail;

fn literal(number: i32) -> Literal {
    Literal {
        variable: number.unsigned_abs(),
        positive: number > 0,
    }
}

/// The clauses that the numbers give. A clause with a variable out of range is left out.
fn cnf_of(alloc: Global, variables: u8, numbers: &[i32]) -> Result<Cnf, AllocError> {
    let mut cnf = Cnf::new(alloc, u32::from(variables));
    let mut literals = Vec::new(alloc);
    for number in numbers {
        if *number != 0 {
            literals.push(literal(*number))?;
        } else {
            let clause = Clause::from_literals(alloc, literals.as_slice())?;
            if cnf.is_in_range(&clause) {
                cnf.push(clause)?;
            }
            literals.clear();
        }
    }
    Ok(cnf)
}

fn assignment_of(alloc: Global, values: &[bool]) -> Result<Assignment, AllocError> {
    Ok(Assignment::new(Vec::from_slice(alloc, values)?))
}

// The variable 3 is the conjunction of the variables 1 and 2. One of these two must be true, and the other false.
const GATE: &[i32] = &[1, 2, 0, -1, -2, 0, -3, 1, 0, -3, 2, 0, 3, -1, -2, 0];

// The clauses of `GATE`, and one that says that the variable 3 is true.
const GATE_IS_TRUE: &[i32] = &[1, 2, 0, -1, -2, 0, -3, 1, 0, -3, 2, 0, 3, -1, -2, 0, 3, 0];

#[test]
fn finds_the_two_assignments_of_a_gate(rt: HostRuntime) -> Result<(), Fail> {
    let alloc = rt.alloc();
    let gate = cnf_of(alloc, 3, GATE)?;
    let gate_is_true = cnf_of(alloc, 3, GATE_IS_TRUE)?;
    let sizes = (gate.clauses().len(), gate_is_true.clauses().len());
    assert_eq!(rt; sizes, (5, 6));
    for number in 0u8..8 {
        let values = [number & 1 != 0, number & 2 != 0, number & 4 != 0];
        let assignment = assignment_of(alloc, values.as_slice())?;
        let is_one = number == 1 || number == 2;
        let found = (
            satisfies(&gate, &assignment),
            satisfies(&gate_is_true, &assignment),
        );
        assert_eq!(rt; (number, found), (number, (is_one, false)));
    }
    Ok(())
}

/// A number of variables, a number of values, and whether there is one value for each variable.
const VALUES: &[(u8, usize, bool)] = &[(0, 0, true), (2, 1, false), (2, 2, true), (2, 3, false)];

#[test]
fn wants_a_value_for_each_variable(rt: HostRuntime) -> Result<(), Fail> {
    let alloc = rt.alloc();
    for (variables, values, want) in VALUES {
        let assignment = Assignment::new(vec![in alloc; true; *values]?);
        let cnf = cnf_of(alloc, *variables, &[])?;
        assert_eq!(rt; satisfies(&cnf, &assignment), *want);
    }
    let empty_clause = cnf_of(alloc, 0, [0].as_slice())?;
    assert!(rt; !satisfies(&empty_clause, &Assignment::new(Vec::new(alloc))));
    Ok(())
}

/// A clause of seven literals, a clause of one, and a clause with a variable above 8.
const LONG: &[i32] = &[1, -2, 3, -4, 5, -6, 7, 0, 8, 0, 1, 9, 0];

#[test]
fn keeps_long_clauses_and_detects_those_out_of_range(rt: HostRuntime) -> Result<(), Fail> {
    let alloc = rt.alloc();
    let cnf = cnf_of(alloc, 8, LONG)?;
    assert_eq!(rt; cnf.variables(), 8);
    assert_eq!(rt; cnf.clauses().len(), 2);
    assert_eq!(rt; cnf.clauses()[0].literals().len(), 7);
    assert_eq!(rt; cnf.clauses()[0].literals()[3].negation(), literal(4));
    Ok(())
}
