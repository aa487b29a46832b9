//! The calls of a link in memory.
ghost use Rattle.std.specs.Prelude.{◌≡◌, ◌∷◌, ◌++◌, [], Some, None, find, option_map, IfOk, IsSome};
ghost use Rattle.std.specs.Bool.{OnFalse, OnTrue};
ghost use Rattle.cm_base.specs.Causes.{HasCause};
ghost use Rattle.cm_base.specs.InMemory.{raised};
ghost use Rattle.cm_base.specs.Listed.{is_listed};
ghost use Rattle.cm_peer.specs.Links.{IsSameTest, WasAsked};
ghost use Rattle.cm_peer.specs.MemLinks.{is_named, answer_named, answers_of, gives_answer, asked_of, fails_at, calls_of, faults_of, FailsExactly};

use crate::{Answer, Cause, Link, LinkFault, MemLink, SourceRow, Want};
use cm_base::{ServerName, is_among};
use std::alloc::Global;

/// Whether the source has that name.
fn is_named(name: &ServerName, pair: &(ServerName, Answer)) -> bool
    ensures { result ≡ is_named name.now pair.now }
{
    pair.0 == *name
}

/// The first source of that name.
fn source_named(answers: &[(ServerName, Answer)], name: &ServerName) -> Option<(ServerName, Answer)>
    ensures { result ≡ find (is_named name.now) answers.now }
{
    answers.iter().copied().find(|pair| is_named(name, pair))
}

/// The answer of the first source of that name.
fn answer_named(answers: &[(ServerName, Answer)], name: &ServerName) -> Answer
    ensures { result ≡ answer_named answers.now name.now }
{
    match source_named(answers, name) {
        Some(pair) => pair.1,
        None => Answer::Refused(Cause::NotCached),
    }
}

impl MemLink {
    /// A link to sources by name, each with its answer. A source that is not among them has not cached what is wanted.
    /// The calls fail whose numbers, from 0, are in `fail`.
    pub fn new(alloc: Global, answers: Vec<(ServerName, Answer)>, fail: Vec<u64>) -> MemLink
        ensures answers { answers_of result ≡ answers.items }
        ensures asked { asked_of result ≡ Some [] }
        ensures fail { fails_at result ≡ fail.items }
        ensures calls { calls_of result ≡ 0 }
        ensures faults { faults_of result ≡ 0 }
    {
        MemLink {
            answers,
            asked: Some(Vec::new(alloc)),
            fail,
            number: 0,
            faults: 0,
        }
    }

    /// Counts a call. True where it is to fail.
    fn is_listed(&mut self) -> bool
        ensures listed { result ≡ is_listed (fails_at self.old) (calls_of self.old) }
        ensures after { self.new ≡ record self.old { number = raised (calls_of self.old) } }
    {
        let number = self.number;
        self.number = number.saturating_add(1);
        is_among(&self.fail, number)
    }

    /// Notes which source it was asked for. False where there was no memory to.
    fn note(&mut self, source: SourceRow) -> bool
        ensures noted { OnTrue result (asked_of self.new ≡ option_map (λ before. before ++ source ∷ []) (asked_of self.old)) }
        ensures short { OnFalse result (IsSome (asked_of self.old) × (asked_of self.new ≡ None)) }
        ensures after { self.new ≡ record self.old { asked = self.new.asked } }
    {
        if let Some(asked) = &mut self.asked {
            if asked.push(source).is_err() {
                self.asked = None;
                return false;
            }
        }
        true
    }
}

impl Link for MemLink {
    ghost gives = { gives_answer };

    ghost asked = { asked_of };

    ghost faults = { faults_of };

    /// Fails exactly at a listed call, or where there was no memory to note which source it was asked for. That comes once at
    /// most: from then on it notes none.
    fn offer(&mut self, source: &SourceRow, want: &Want) -> Result<Answer, LinkFault>
        ensures answer { IfOk result (gives_answer self.old source.now want.now) }
        ensures same { IsSameTest (gives_answer self.old) (gives_answer self.new) }
        ensures asks { WasAsked (asked_of self.old) (asked_of self.new) (source.now ∷ []) }
        ensures cause { HasCause (faults_of self.old) (faults_of self.new) result }
        ensures exact { FailsExactly self.old self.new source.now result }
    {
        let noted = self.note(*source);
        if self.is_listed() || !noted {
            self.faults = self.faults.saturating_add(1);
            return Err(LinkFault);
        }
        Ok(answer_named(&self.answers, &source.name))
    }
}
