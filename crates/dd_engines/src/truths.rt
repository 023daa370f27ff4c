//! How many literals of each clause are true, and where to look for the first clause that has no true literal. The clauses are
//! divided into blocks of 32, in the order of their numbers. A block has a mark if one of its clauses may have no true literal.
//! At the start each block has a mark. A block gets a mark when one of its clauses loses its last true literal. It loses the
//! mark when a search of the block finds that each of its clauses has a true literal.
ghost use Rattle.std.specs.Prelude.{◌≡◌, ◌^◌, ◌*◌, ◌<◌, ◌+◌, ◌≤◌, length, map, slice_set, slice_index_or, All, IfOk, MatchOption};
ghost use Rattle.dd_clause.specs.Clauses.{IsClauseInRange};
ghost use Rattle.dd_engines.specs.walking.Truths.{HasMarks, NoneWithin, IsFirstIn, NoneIsZero, IsFirstZero, changed, more, less, true_count};
ghost use Rattle.dd_engines.specs.walking.Chains.{IsLinked, HasChain, numbers_of};

use crate::chains::Chains;
use dd_clause::{Clause, Literal};
use std::alloc::{AllocError, Global};

/// The counts of true literals, and the marks of the blocks.
#[derive(Drop)]
pub struct Truths {
    /// For each clause, how many of its literals are true.
    counts: Vec<usize>,
    /// For each block, whether it has a mark.
    marks: Vec<bool>,
    /// The block to look at first. In the blocks before it, each clause has a true literal.
    first_block: usize,
}

impl Truths {
    /// The counts for these values, with a mark at each block.
    pub fn new(alloc: Global, clauses: &[Clause], values: &[bool]) -> Result<Truths, AllocError>
        requires { All (IsClauseInRange (length values.now)) clauses.now }
        ensures counts { IfOk result (λ truths. truths.counts.items ≡ map (true_count values.now) clauses.now) }
        ensures listed { IfOk result (λ truths. HasMarks truths.counts.items truths.marks.items truths.first_block) }
        ensures short { IfOk result (λ _. All (λ clause. length clause < 2 ^ 64) clauses.now) }
    {
        let mut counts = Vec::with_capacity(alloc, clauses.len())?;
        for clause in clauses {
            counts.push(count_true(clause.literals(), values))?;
        }
        Ok(Truths {
            counts,
            marks: vec![in alloc; true; clauses.len() / 32 + 1]?,
            first_block: 0,
        })
    }

    /// Counts one more true literal for the clause with this number.
    fn raise_one(&mut self, number: usize)
        requires within { number < length self.old.counts.items }
        requires listed { HasMarks self.old.counts.items self.old.marks.items self.old.first_block }
        ensures counts { self.new.counts.items ≡ slice_set self.old.counts.items number (more (slice_index_or self.old.counts.items number 0)) }
        ensures listed { HasMarks self.new.counts.items self.new.marks.items self.new.first_block }
    {
        self.counts[number] = self.counts[number].saturating_add(1);
    }

    /// Counts one fewer true literal for the clause with this number. If none is left, the clause's block gets a mark.
    fn lower_one(&mut self, number: usize)
        requires within { number < length self.old.counts.items }
        requires listed { HasMarks self.old.counts.items self.old.marks.items self.old.first_block }
        ensures counts { self.new.counts.items ≡ slice_set self.old.counts.items number (less (slice_index_or self.old.counts.items number 0)) }
        ensures listed { HasMarks self.new.counts.items self.new.marks.items self.new.first_block }
    {
        let count = self.counts[number].saturating_sub(1);
        self.counts[number] = count;
        if count == 0 {
            let block = number / 32;
            self.marks[block] = true;
            self.first_block = self.first_block.min(block);
        }
    }

    /// The number, counted from 0, of the first clause without a true literal. `None` if there is no such clause.
    #[tactic(auto, using(crate::proofs::Counting::passed, crate::proofs::Counting::cleared, crate::proofs::Counting::first_of_all, crate::proofs::Counting::none_left, crate::proofs::Counting::none_listed))]
    pub fn first(&mut self) -> Option<usize>
        requires { HasMarks self.old.counts.items self.old.marks.items self.old.first_block }
        ensures first { MatchOption result (NoneIsZero self.old.counts.items) (IsFirstZero self.old.counts.items) }
        ensures counts { self.new.counts.items ≡ self.old.counts.items }
        ensures listed { HasMarks self.new.counts.items self.new.marks.items self.new.first_block }
    {
        for block in self.first_block..self.marks.len() {
            if self.marks[block] {
                if let Some(number) = first_in_block(self.counts.as_slice(), block) {
                    self.first_block = block;
                    return Some(number);
                }
                self.marks[block] = false;
            }
        }
        self.first_block = self.marks.len();
        None
    }

    /// Raises the count of each clause by one for each time that the clause contains this literal, which becomes true.
    pub fn raise(&mut self, chains: &Chains, literal: Literal)
        requires linked { IsLinked chains.now }
        requires chain { HasChain chains.now literal }
        requires within { All (λ k. k < length self.old.counts.items) (numbers_of chains.now literal) }
        requires listed { HasMarks self.old.counts.items self.old.marks.items self.old.first_block }
        ensures counts { self.new.counts.items ≡ changed more (numbers_of chains.now literal) self.old.counts.items }
        ensures listed { HasMarks self.new.counts.items self.new.marks.items self.new.first_block }
    {
        let mut at = chains.first(literal);
        while at > 0 {
            let link = chains.links[at - 1];
            self.raise_one(link.number);
            at = link.next;
        }
    }

    /// Lowers the count of each clause by one for each time that the clause contains this literal, which becomes false.
    pub fn lower(&mut self, chains: &Chains, literal: Literal)
        requires linked { IsLinked chains.now }
        requires chain { HasChain chains.now literal }
        requires within { All (λ k. k < length self.old.counts.items) (numbers_of chains.now literal) }
        requires listed { HasMarks self.old.counts.items self.old.marks.items self.old.first_block }
        ensures counts { self.new.counts.items ≡ changed less (numbers_of chains.now literal) self.old.counts.items }
        ensures listed { HasMarks self.new.counts.items self.new.marks.items self.new.first_block }
    {
        let mut at = chains.first(literal);
        while at > 0 {
            let link = chains.links[at - 1];
            self.lower_one(link.number);
            at = link.next;
        }
    }
}

/// The number of the first clause in this block whose count is 0. `None` if there is no such clause.
#[tactic(auto, using(crate::proofs::Counting::some_at))]
fn first_in_block(counts: &[usize], block: usize) -> Option<usize>
    requires { 32 * block ≤ length counts.now }
    ensures { MatchOption result (NoneWithin counts.now (32 * block) (32 * block + 32)) (IsFirstIn counts.now block) }
{
    let start = 32 * block;
    let end = counts.len().min(start + 32);
    for number in start..end {
        if counts[number] == 0 {
            return Some(number);
        }
    }
    None
}

/// How many of the literals are true under the values. The contract also says that there are fewer than 2^64 literals.
fn count_true(literals: &[Literal], values: &[bool]) -> usize
    requires { IsClauseInRange (length values.now) literals.now }
    ensures value { result ≡ true_count values.now literals.now }
    ensures short { length literals.now < 2 ^ 64 }
{
    // This call tells the proof what the type guarantees: the length fits in 64 bits.
    let _length = literals.len();
    let mut count = 0;
    for literal in literals {
        if values[literal.variable as usize - 1] == literal.positive {
            count += 1;
        }
    }
    count
}
