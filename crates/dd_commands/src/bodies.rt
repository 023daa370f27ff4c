//! Reads whole commands. The body of a command is what follows its first word.
ghost use Rattle.std.specs.Prelude.{◌≡◌};
ghost use Rattle.dd_written.specs.reading.{Readers.Gives, Formulas.formula_at};
ghost use Rattle.dd_commands.specs.reading.Commands.{case_at, body, command_of};

use crate::command::{Case, Command};
use crate::head::Head;
use crate::keywords::wanted;
use crate::reading::{FromTokens, Read, Source, each, some};
use crate::requests::query;
use crate::vectors::{plain, shear};
use dd_topology::Kind;
use dd_values::Boxed;
use dd_written::{Formula, Lexeme, Name, Number, ReadFault, Word, read_formula, read_name};

impl FromTokens for Formula {
    ghost item = { λ bytes. formula_at };

    fn read<'a>(from: Source, tokens: &'a [Lexeme]) -> Read<'a, Formula> {
        read_formula(from.alloc, tokens)
    }
}

impl FromTokens for Case {
    ghost item = { λ bytes. case_at bytes };

    fn read<'a>(from: Source, tokens: &'a [Lexeme]) -> Read<'a, Case> {
        let (_, rest) = wanted(from, b"when", tokens)?;
        let (condition, rest) = Formula::read(from, rest)?;
        let (_, rest) = wanted(from, b"give", rest)?;
        let (symbol, rest) = read_name(rest)?;
        Ok((Case { condition, symbol }, rest))
    }
}

/// The body of `topology`: the name of a built-in topology, or edges.
fn topology<'a>(from: Source, tokens: &'a [Lexeme]) -> Read<'a, Command>
    ensures { Gives (λ x. (x.0, x.1.now)) result (body from.entry.bytes.now Head.Topology tokens.now) }
{
    match tokens {
        [Lexeme::Word(_), ..] => {
            let (kind, rest) = Kind::read(from, tokens)?;
            Ok((Command::Topology { kind }, rest))
        }
        _ => {
            let (edges, rest) = some(from, tokens)?;
            Ok((Command::Edges { edges }, rest))
        }
    }
}

/// The body of `limits`: three numbers.
fn limits<'a>(from: Source, tokens: &'a [Lexeme]) -> Read<'a, Command>
    ensures { Gives (λ x. (x.0, x.1.now)) result (body from.entry.bytes.now Head.Limits tokens.now) }
{
    let (radius, rest) = Number::read(from, tokens)?;
    let (period, rest) = Number::read(from, rest)?;
    let (pivots, rest) = Number::read(from, rest)?;
    let limits = Command::Limits {
        radius,
        period,
        pivots,
    };
    Ok((limits, rest))
}

/// The body of `auto`: a name, cases, and the default symbol after `else`.
fn automaton<'a>(from: Source, tokens: &'a [Lexeme]) -> Read<'a, Command>
    ensures { Gives (λ x. (x.0, x.1.now)) result (body from.entry.bytes.now Head.Automaton tokens.now) }
{
    let (name, rest) = Word::read(from, tokens)?;
    let (cases, rest) = each(from, rest)?;
    let (_, rest) = wanted(from, b"else", rest)?;
    let (default, rest) = read_name(rest)?;
    let automaton = Command::Automaton {
        name,
        cases,
        default,
    };
    Ok((automaton, rest))
}

/// The body of `conf`: a name, periods, perhaps a shear, and symbols.
fn configuration<'a>(from: Source, tokens: &'a [Lexeme]) -> Read<'a, Command>
    ensures { Gives (λ x. (x.0, x.1.now)) result (body from.entry.bytes.now Head.Configuration tokens.now) }
{
    let (name, rest) = Word::read(from, tokens)?;
    let (periods, rest) = plain(from, rest)?;
    let (shear, rest) = shear(from, rest)?;
    let (symbols, rest) = some(from, rest)?;
    let configuration = Command::Configuration {
        name,
        periods,
        shear,
        symbols,
    };
    Ok((configuration, rest))
}

/// The body of a command with this head.
fn body<'a>(from: Source, head: Head, tokens: &'a [Lexeme]) -> Read<'a, Command>
    ensures { Gives (λ x. (x.0, x.1.now)) result (body from.entry.bytes.now head tokens.now) }
{
    match head {
        Head::Dimension => {
            let (number, rest) = Number::read(from, tokens)?;
            Ok((Command::Dimension { number }, rest))
        }
        Head::Nodes => {
            let (names, rest) = some(from, tokens)?;
            Ok((Command::Nodes { names }, rest))
        }
        Head::Alphabet => {
            let (names, rest) = some(from, tokens)?;
            Ok((Command::Alphabet { names }, rest))
        }
        Head::Topology => topology(from, tokens),
        Head::Only => {
            let (node, rest) = read_name(tokens)?;
            let (symbols, rest) = some(from, rest)?;
            Ok((Command::Only { node, symbols }, rest))
        }
        Head::Weights => {
            let (weights, rest) = some(from, tokens)?;
            Ok((Command::Weights { weights }, rest))
        }
        Head::Limits => limits(from, tokens),
        Head::Rule => {
            let (name, rest) = Word::read(from, tokens)?;
            let (formula, rest) = Formula::read(from, rest)?;
            Ok((Command::Rule { name, formula }, rest))
        }
        Head::Automaton => automaton(from, tokens),
        Head::Composition => {
            let (name, rest) = Word::read(from, tokens)?;
            let (outer, rest) = Word::read(from, rest)?;
            let (inner, rest) = Word::read(from, rest)?;
            Ok((Command::Composition { name, outer, inner }, rest))
        }
        Head::Configuration => configuration(from, tokens),
        Head::Query(kind) => query(from, kind, tokens),
    }
}

/// The command that consists of all these tokens, which follow its `%`.
pub(crate) fn command(from: Source, tokens: &[Lexeme]) -> Result<Boxed<Command>, ReadFault>
    ensures { Gives (λ x. x) result (command_of from.entry.bytes.now tokens.now) }
{
    let (head, rest) = Head::read(from, tokens)?;
    let (command, rest) = body(from, head, rest)?;
    match rest {
        [] => Ok(Boxed::new(from.alloc, command)?),
        _ => Err(ReadFault::Syntax),
    }
}
