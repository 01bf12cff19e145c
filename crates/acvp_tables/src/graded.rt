//! Answers to a vector set, with what they came to.
ghost use Rattle.std.specs.Prelude.{◌≡◌, Vec};
ghost use Rattle.acvp_answers.specs.Verdicts.{disposition_of};

use acvp_answers::{Answers, Disposition, Verdict, disposition};
use std::alloc::AllocError;
use std::marker::Model;

/// Answers to the tests of a vector set, the verdicts on its tests in their order, and the disposition that these give.
#[derive(Drop)]
pub struct Graded {
    answers: Answers,
    verdicts: Vec<Verdict>,
    disposition: Disposition,
}

impl Model for Graded {
    ghost use Rattle.std.specs.Prelude.{◌≡◌};
    ghost use Rattle.acvp_answers.specs.Verdicts.{disposition_of};
    ghost use Rattle.acvp_tables.specs.Graded.{GradedValue};

    ghost Value = { GradedValue };

    ghost view = { λ g. record { answers = g.answers; verdicts = g.verdicts.items; disposition = g.disposition } };

    ghost invariant = { λ g. g.disposition ≡ disposition_of g.verdicts.items };
}

impl Clone for Graded {
    ghost is_clone = { λ it copy. copy ≡ it };

    fn clone(&self) -> Result<Graded, AllocError> {
        let answers = self.answers.clone()?;
        let verdicts = self.verdicts.clone()?;
        Ok(Graded {
            answers,
            verdicts,
            disposition: self.disposition,
        })
    }
}

impl Graded {
    /// Answers and the verdicts on them.
    pub fn new(answers: Answers, verdicts: Vec<Verdict>) -> Graded
        ensures { result ≡ record {
          answers = answers;
          verdicts = verdicts.items;
          disposition = disposition_of verdicts.items;
        } }
    {
        let disposition = disposition(&verdicts);
        Graded {
            answers,
            verdicts,
            disposition,
        }
    }

    /// The answers as they were sent.
    pub fn answers(&self) -> &Answers
        ensures { result.now ≡ self.now.answers }
    {
        &self.answers
    }

    /// The verdict on each test, in the order of the tests.
    pub fn verdicts(&self) -> &[Verdict]
        ensures { result.now ≡ self.now.verdicts }
    {
        &self.verdicts
    }

    /// What the verdicts give.
    pub fn disposition(&self) -> Disposition
        ensures value { result ≡ self.now.disposition }
        ensures given { result ≡ disposition_of self.now.verdicts }
    {
        self.disposition
    }
}
