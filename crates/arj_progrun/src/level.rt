// An open action of a program.
ghost use Rattle.std.specs.Prelude.{◌≡◌, ◌++◌, OnOk, IfOk};
ghost use Rattle.std.specs.Str.{bytes_eq};
ghost use Rattle.arj_prog.specs.Listing.{joined};
ghost use Rattle.arj_prog.specs.Listed.{listing_of};
ghost use Rattle.arj_progrun.specs.Client.{again, branch, joins, leaves, level, taken};
ghost use Rattle.arj_progrun.specs.Levels.{IsFront, level_of, rest_of};
ghost use Rattle.arj_text.specs.Label.{name};
ghost use Rattle.arj_text.specs.Words.{answer_text as text_of_answer};

use arj_base::Bytes;
use arj_class::Answer;
use arj_journal::Label;
use arj_prog::Statement;
use arj_text::answer_text;
use std::alloc::{AllocError, Global};

/// A call that was answered: its statement, and the answer's text.
#[derive(Drop)]
pub struct Heard<'p> {
    pub statement: &'p Statement,
    pub answer: Bytes,
}

/// An action of a program: its label, its statements, those left, the innermost list last, how many tries are left, and
/// its calls that count so far.
#[derive(Drop)]
pub struct Level<'p> {
    pub label: Label,
    pub body: &'p [Statement],
    pub rest: Vec<&'p [Statement]>,
    pub left: u8,
    pub said: Vec<Heard<'p>>,
}

// Whether the text is that of the answer.
fn is_answer(alloc: Global, answer: &Answer, text: &[u8]) -> Result<bool, AllocError>
    ensures { IfOk result (λ same. same ≡ bytes_eq text.now (text_of_answer answer.now)) }
{
    let wanted = answer_text(alloc, answer)?;
    Ok(text == wanted.as_slice())
}

// Takes out the first statement that is left in lists, the last one first.
#[tactic(auto, using(crate::proofs::Stacks::pushed))]
fn cut_front<'p>(rest: &mut Vec<&'p [Statement]>) -> Result<Option<&'p Statement>, AllocError>
    ensures { IfOk result (λ found. IsFront (rest_of rest.old.items) found (rest_of rest.new.items)) }
{
    while let Some(list) = rest.pop() {
        if let Some((first, others)) = list.split_first() {
            rest.push(others)?;
            return Ok(Some(first));
        }
    }
    Ok(None)
}

impl<'p> Level<'p> {
    /// An action that is to begin.
    #[tactic(auto, using(crate::proofs::Stacks::joined_end))]
    pub fn new(
        alloc: Global,
        label: Label,
        body: &'p [Statement],
        left: u8,
    ) -> Result<Level<'p>, AllocError>
        ensures { IfOk result (λ made. level_of made ≡ level (name label) (listing_of body.now) left) }
    {
        let mut rest = Vec::new(alloc);
        rest.push(body)?;
        Ok(Level {
            label,
            body,
            rest,
            left,
            said: Vec::new(alloc),
        })
    }

    /// Lets the action be tried again.
    #[tactic(auto, using(crate::proofs::Stacks::joined_end))]
    pub fn again(&mut self) -> Result<(), AllocError>
        ensures { OnOk result (level_of self.new ≡ again (level_of self.old)) }
    {
        self.left = self.left.saturating_sub(1);
        self.said.clear();
        self.rest.clear();
        self.rest.push(self.body)?;
        Ok(())
    }

    /// Leaves its next statement behind, and answers it.
    pub fn pass(&mut self) -> Result<Option<&'p Statement>, AllocError>
        ensures front { IfOk result (λ found. IsFront (rest_of self.old.rest.items) found (rest_of self.new.rest.items)) }
        ensures others { OnOk result (level_of self.new ≡ leaves (rest_of self.new.rest.items) (level_of self.old)) }
    {
        cut_front(&mut self.rest)
    }

    // Goes on with the list that the answer of a statement decides.
    #[tactic(auto, using(crate::proofs::Stacks::pushed))]
    fn go_on(
        &mut self,
        alloc: Global,
        statement: &'p Statement,
        answer: &[u8],
    ) -> Result<(), AllocError>
        ensures { OnOk result (level_of self.new ≡ leaves (joined (branch statement.now answer.now) (rest_of self.old.rest.items)) (level_of self.old)) }
    {
        let Statement::If {
            answer: wanted,
            then,
            other,
            ..
        } = statement
        else {
            return Ok(());
        };
        if is_answer(alloc, wanted, answer)? {
            self.rest.push(then.as_slice())?;
        } else {
            self.rest.push(other.as_slice())?;
        }
        Ok(())
    }

    /// Takes the answer of a call.
    pub fn take(
        &mut self,
        alloc: Global,
        statement: &'p Statement,
        answer: &Bytes,
    ) -> Result<(), AllocError>
        ensures { OnOk result (level_of self.new ≡ taken statement.now answer.now (level_of self.old)) }
    {
        self.go_on(alloc, statement, answer.as_slice())?;
        let answer = answer.copy()?;
        self.said.push(Heard { statement, answer })?;
        Ok(())
    }

    /// Takes over the calls of a nested action that committed.
    pub fn join(&mut self, nested: Level<'p>) -> Result<(), AllocError>
        ensures { OnOk result (level_of self.new ≡ joins (level_of nested.entry) (level_of self.old)) }
    {
        let mut nested = nested;
        self.said.append(&mut nested.said)
    }
}
