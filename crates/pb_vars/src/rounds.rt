// What the names in scope answer to questions, each value asked once a round.
ghost use Rattle.std.specs.Prelude.{[], ◌≡◌, IfOk};
ghost use Rattle.pb_language.specs.Expansion.{expanded, trees};
ghost use Rattle.pb_language.specs.Rules.{any_too_long};
ghost use Rattle.pb_syntax.specs.Words.{expr_view};
ghost use Rattle.pb_vars.specs.InScope.{AreAnswers, in_scope};
ghost use Rattle.pb_vars.specs.Reads.{every_read as every_place};
ghost use Rattle.pb_vars.specs.Rounds.{after_rounds, round};

use crate::every::every_read;
use crate::in_scope::{Answers, InScope};
use crate::read::{Question, Read};
use pb_syntax::{Expr, Root};
use std::alloc::{AllocError, Global};

// More names than these make a chain too long.
pub(crate) const LONGEST_CHAIN: usize = 8;

// A tree is read through so many names at most.
const MOST_ROUNDS: usize = 17;

impl<'p> InScope<'p> {
    /// Whether a chain of names has more than 8 of them, or a cycle.
    ///
    /// # Errors
    ///
    /// Want of memory.
    pub fn has_long_chain(&self, alloc: Global) -> Result<bool, AllocError>
        ensures { IfOk result (λ b. b ≡ any_too_long (in_scope self.now) (in_scope self.now)) }
    {
        let short = self.after_rounds(alloc, &ReadsNoName { scope: self }, LONGEST_CHAIN)?;
        Ok(short.contains(&false))
    }

    /// What every name in scope answers to the question. It takes as many rounds as the longest
    /// chain has names and one more, in which nothing changes, and at most 17.
    ///
    /// # Errors
    ///
    /// Want of memory.
    pub fn answers<Q: Question>(&self, alloc: Global, question: &Q) -> Result<Answers, AllocError>
        ensures { IfOk result (λ a. AreAnswers (in_scope self.now) (Q.holds question.now) a) }
    {
        let all = self.after_rounds(alloc, question, MOST_ROUNDS)?;
        Ok(Answers { all })
    }

    /// Whether all that the expression reads, also through names in scope, answers so.
    pub fn holds<Q: Question>(&self, question: &Q, answers: &Answers, expr: &Expr) -> bool
        requires answered { AreAnswers (in_scope self.now) (Q.holds question.now) answers.now }
        ensures { result ≡ every_place (Q.holds question.now)
            (expanded (trees (in_scope self.now)) (expr_view expr.now)) }
    {
        let answered = Answered {
            scope: self,
            answers: answers.all.as_slice(),
            question,
        };
        every_read(&answered, expr)
    }

    // The answers after so many rounds; a round that changes nothing is the last.
    fn after_rounds<Q: Question>(
        &self,
        alloc: Global,
        question: &Q,
        most: usize,
    ) -> Result<Vec<bool>, AllocError>
        ensures { IfOk result (λ bs. bs.items
            ≡ after_rounds most (Q.holds question.now) (in_scope self.now) []) }
    {
        let mut answers = Vec::new(alloc);
        for _done in 0..most {
            let next = self.round(alloc, question, answers.as_slice())?;
            if next == answers {
                return Ok(answers);
            }
            answers = next;
        }
        Ok(answers)
    }

    // What each value answers, where names answer as they did before.
    pub(crate) fn round<Q: Question>(
        &self,
        alloc: Global,
        question: &Q,
        answers: &[bool],
    ) -> Result<Vec<bool>, AllocError>
        ensures { IfOk result (λ bs. bs.items
            ≡ round (Q.holds question.now) (in_scope self.now) answers.now) }
    {
        let answered = Answered {
            scope: self,
            answers,
            question,
        };
        let mut next = Vec::new(alloc);
        for entry in &self.entries {
            next.push(every_read(&answered, &entry.value))?;
        }
        Ok(next)
    }
}

// The question, where names in scope that have an answer have that one.
#[derive(Drop)]
struct Answered<'a, 'p, Q: Question> {
    scope: &'a InScope<'p>,
    answers: &'a [bool],
    question: &'a Q,
}

impl<'a, 'p, Q: Question> Question for Answered<'a, 'p, Q> {
    ghost use Rattle.pb_vars.specs.InScope.{in_scope};
    ghost use Rattle.pb_vars.specs.Rounds.{answer_named, through};

    ghost holds = { λ a. through (λ n. answer_named n (in_scope a.scope.now) a.answers.now)
        (Q.holds a.question.now) };

    fn holds(&self, read: Read<'_>) -> bool {
        match read {
            Read::Value(Root::Variable(name), _) | Read::Tested(Root::Variable(name)) => {
                match self.scope.answer(self.answers, name.as_str()) {
                    Some(answer) => answer,
                    None => self.question.holds(read),
                }
            }
            _ => self.question.holds(read),
        }
    }
}

// Whether no name in scope is read.
#[derive(Drop)]
pub(crate) struct ReadsNoName<'a, 'p> {
    pub(crate) scope: &'a InScope<'p>,
}

impl<'a, 'p> Question for ReadsNoName<'a, 'p> {
    ghost use Rattle.pb_vars.specs.InScope.{in_scope};
    ghost use Rattle.pb_vars.specs.Rounds.{by_name, is_outside};

    ghost holds = { λ a. by_name (is_outside (in_scope a.scope.now)) };

    fn holds(&self, read: Read<'_>) -> bool {
        match read {
            Read::Value(Root::Variable(name), _) | Read::Tested(Root::Variable(name)) => {
                self.scope.find(name.as_str()).is_none()
            }
            _ => true,
        }
    }
}
