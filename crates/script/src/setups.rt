ghost use Rattle.std.specs.Prelude.{◌≡◌, map};
ghost use Rattle.script.specs.Setups.{bearer_kind, bearer_of, policy_of};

use crate::faults::Fault;
use crate::numbers::numbers;
use setup::{BearerKind, BearerSetup, PolicySetup};

fn bearer_kind(word: &[u8]) -> Result<BearerKind, Fault>
    ensures value { result ≡ bearer_kind word.now }
{
    if word == "ring".as_bytes() {
        Ok(BearerKind::Ring)
    } else if word == "mailbox".as_bytes() {
        Ok(BearerKind::Mailbox)
    } else {
        Err(Fault::UnknownBearerKind)
    }
}

/// The bearer that a line says by the words behind its first.
pub(crate) fn bearer(words: &[&[u8]]) -> Result<BearerSetup, Fault>
    ensures value { result ≡ bearer_of (map (λ w. w.now) words.now) }
{
    let [kind, further @ ..] = words else {
        return Err(Fault::UnknownBearerKind);
    };
    let kind = bearer_kind(kind)?;
    let [depth] = numbers::<1>(further)?;
    Ok(BearerSetup {
        kind,
        depth: depth as usize,
        is_occupied: false,
    })
}

/// The policy that a line says by the words behind its first.
pub(crate) fn policy(words: &[&[u8]]) -> Result<PolicySetup, Fault>
    ensures value { result ≡ policy_of (map (λ w. w.now) words.now) }
{
    let [kind, further @ ..] = words else {
        return Err(Fault::UnknownPolicyKind);
    };
    if *kind == "fixed".as_bytes() {
        let [figure] = numbers::<1>(further)?;
        Ok(PolicySetup::Fixed { figure })
    } else if *kind == "backlog".as_bytes() {
        let [] = numbers::<0>(further)?;
        Ok(PolicySetup::Backlog)
    } else {
        Err(Fault::UnknownPolicyKind)
    }
}
