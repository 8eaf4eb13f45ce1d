ghost use Rattle.std.specs.Prelude.{◌≡◌, map, OnErr, OnOk};

use crate::calls::Name;
use crate::faults::Fault;
use crate::keywords::Keyword;
use crate::setups::{bearer, policy};
use board::MOST_BEARERS;
use machine::Call;
use setup::{BearerSetup, PolicySetup};
use std::alloc::{AllocError, Global};

/// What a text says: what a receiver is to be put up over, and the calls that are to be made on it.
#[derive(Drop)]
pub struct Script {
    /// In the order of their numbers; none, where the text says nothing of the board.
    pub bearers: Vec<BearerSetup>,
    pub policy: Option<PolicySetup>,
    pub calls: Vec<Call>,
}

/// What a line says.
#[derive(Clone, Copy)]
pub(crate) enum Statement {
    Bearer(BearerSetup),
    Policy(PolicySetup),
    Call(Call),
}

impl Script {
    ghost use Rattle.script.specs.Script.{bearer_statement, contents_of, contents_with, no_contents, policy_statement, statement_of};

    pub(crate) fn new(alloc: Global) -> Script
        ensures value { contents_of result ≡ no_contents }
    {
        Script {
            bearers: Vec::new(alloc),
            policy: None,
            calls: Vec::new(alloc),
        }
    }

    /// What a line of a bearer says behind all that is here.
    fn bearer_statement(&self, words: &[&[u8]]) -> Result<Statement, Fault>
        ensures value { result ≡ bearer_statement (contents_of self.now) (map (λ w. w.now) words.now) }
    {
        let bearer = bearer(words)?;
        if self.bearers.len() >= MOST_BEARERS {
            return Err(Fault::NinthBearer);
        }
        Ok(Statement::Bearer(bearer))
    }

    /// What a line of a policy says behind all that is here.
    fn policy_statement(&self, words: &[&[u8]]) -> Result<Statement, Fault>
        ensures value { result ≡ policy_statement (contents_of self.now) (map (λ w. w.now) words.now) }
    {
        let policy = policy(words)?;
        if self.policy.is_some() {
            return Err(Fault::SecondPolicy);
        }
        Ok(Statement::Policy(policy))
    }

    /// What the words of a line say behind all that is here, if there are any.
    pub(crate) fn statement(&self, words: &[&[u8]]) -> Result<Option<Statement>, Fault>
        ensures value { result ≡ statement_of (contents_of self.now) (map (λ w. w.now) words.now) }
    {
        let [word, further @ ..] = words else {
            return Ok(None);
        };
        let statement = match Keyword::of(word).ok_or(Fault::UnknownCall)? {
            Keyword::Call(name) => Statement::Call(name.call(further)?),
            _ if !self.calls.is_empty() => return Err(Fault::OutOfPlace),
            Keyword::Bearer => self.bearer_statement(further)?,
            Keyword::Policy => self.policy_statement(further)?,
        };
        Ok(Some(statement))
    }

    /// Takes in what a line says.
    pub(crate) fn add(&mut self, statement: Statement) -> Result<(), AllocError>
        ensures ok { OnOk result (contents_of self.new ≡ contents_with (contents_of self.old) statement) }
        ensures err { OnErr result (contents_of self.new ≡ contents_of self.old) }
    {
        match statement {
            Statement::Bearer(bearer) => self.bearers.push(bearer)?,
            Statement::Policy(policy) => self.policy = Some(policy),
            Statement::Call(call) => self.calls.push(call)?,
        }
        Ok(())
    }
}
