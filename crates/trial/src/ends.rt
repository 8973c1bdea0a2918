// Both ends of a game over the residues modulo 65,537.
use crate::statement::Statement;
use board::{Bank, Move};
use field::Field;
use fields::Mod65537;
use play::Told;
use question::Question;
use refusal::Refusal;
use std::alloc::Global;
use writer::ENOUGH_PAPER;

/// A host and a box, each with its bank: while they listen, or sealed.
#[derive(Drop)]
pub struct Ends<'a, H, V> {
    /// The host.
    pub host: H,
    /// The host's bank.
    pub counts: Bank<'a, i32>,
    /// The box.
    pub verifier: V,
    /// The box's bank.
    pub sums: Bank<'a, Mod65537>,
}

/// Both ends while they are told moves.
pub type Listening<'a> = Ends<'a, host::Listening<Mod65537>, verifier::Listening<Mod65537>>;

/// Both ends once they are asked.
pub type Sealed<'a> = Ends<'a, host::Sealed<Mod65537>, verifier::Sealed<Mod65537>>;

impl<'a> Listening<'a> {
    /// Tells both a move.
    pub fn note(&mut self, moved: Move) -> Told {
        let host = self.host.note(&mut self.counts, moved);
        let verifier = self.verifier.note(&mut self.sums, moved);
        Told {
            moved,
            host,
            verifier,
        }
    }

    /// Seals both.
    pub fn seal(self) -> Sealed<'a> {
        let Ends {
            host,
            counts,
            verifier,
            sums,
        } = self;
        Ends {
            host: host.seal(),
            counts,
            verifier: verifier.seal(),
            sums,
        }
    }
}

impl Sealed<'_> {
    /// Has the host answer a question: what it states, or its refusal.
    pub fn answer<Q: Question<Mod65537>>(
        &self,
        heap: Global,
        question: &Q,
    ) -> anyhow::Result<Result<Statement, Refusal>> {
        let mut tray = [Mod65537::zero(); 11];
        let mut paper = vec![in heap; 0u8; ENOUGH_PAPER]?;
        let answer = self
            .host
            .answer(&self.counts, question, &mut tray, paper.as_mut_slice());
        match answer {
            Ok((claim, length)) => {
                paper.truncate(length);
                let sheet = String::from_utf8(paper)?;
                Ok(Ok(Statement { claim, sheet }))
            }
            Err(why) => Ok(Err(why)),
        }
    }

    /// Has the box judge a sheet: the claim that it accepts, or its refusal.
    pub fn judge<Q: Question<Mod65537>>(&self, question: &Q, sheet: &str) -> Result<i64, Refusal> {
        let mut tray = [Mod65537::zero(); 3];
        self.verifier
            .judge(&self.sums, question, sheet.as_bytes(), &mut tray)
    }
}
