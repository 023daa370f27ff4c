// An engine that a user of the crates might write, and a roster with it.
ghost use Rattle.std.specs.Prelude.{false};

use dd_clause::{Assignment, Clause, Cnf, Literal};
use dd_derivation::Outcome;
use dd_engines::{Engine, Propagator, Proposal, Roster, Tally};
use std::alloc::{AllocError, Global};
use std::test::Fail;

/// An engine that guesses that all variables are true.
#[derive(Drop)]
struct Guesser {
    tally: Tally,
}

impl Engine for Guesser {
    ghost asked = { λ engine. engine.tally.asked };

    ghost given = { λ engine. engine.tally.given };

    ghost sound = { λ _. false };

    fn propose(&mut self, alloc: Global, cnf: &Cnf) -> Result<Proposal, AllocError> {
        self.tally.ask();
        let values = vec![in alloc; true; cnf.variables() as usize]?;
        self.tally.give();
        Ok(Proposal::Found(Assignment::new(values)))
    }
}

// Adds a clause of one literal.
fn add(alloc: Global, cnf: &mut Cnf, literal: Literal) -> Result<(), AllocError> {
    let clause = Clause::from_literals(alloc, &[literal])?;
    if cnf.is_in_range(&clause) {
        cnf.push(clause)?;
    }
    Ok(())
}

#[test]
fn an_engine_guesses_until_it_is_wrong(rt: HostRuntime) -> Result<(), Fail> {
    let alloc = rt.alloc();
    let mut engines: Vec<Box<dyn Engine>> = Vec::new(alloc);
    let guesser = Guesser {
        tally: Tally::new(),
    };
    engines.push(Box::new(alloc, guesser)?)?;
    engines.push(Box::new(alloc, Propagator::new())?)?;
    let mut roster = Roster::new(engines);
    let mut cnf = Cnf::new(alloc, 1);
    let literal = Literal {
        variable: 1,
        positive: true,
    };
    add(alloc, &mut cnf, literal)?;
    assert!(rt; matches!(roster.ask(alloc, &cnf)?, Some(Outcome::Found(_))));
    assert_eq!(rt; roster.count(), 2);
    add(alloc, &mut cnf, literal.negation())?;
    assert!(rt; matches!(roster.ask(alloc, &cnf)?, Some(Outcome::Refuted(_))));
    assert_eq!(rt; roster.count(), 1);
    Ok(())
}
