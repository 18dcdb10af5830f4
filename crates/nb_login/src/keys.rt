//! The keys of each request (RFC 7143, sections 6.1 and 13).

ghost use Rattle.std.specs.Prelude.{◌≡◌, ◌++◌, [], IfOk, OnOk};
ghost use Rattle.nb_login.specs.Asking.{key_text, method_names, names_keys, algorithm_keys, back_keys, response_keys, parameter_keys, request_keys};

use crate::info::LoginInfo;
use crate::step::{Challenge, NextRequest};
use nb_chap::{binary_text, response};
use nb_terms::NoMemory;
use std::alloc::Global;

/// The keys that are offered for the session (RFC 7143, section 13): no digests, one connection, and no
/// data sent without being asked for.
const PARAMETERS: &[u8] =
    b"HeaderDigest=None\0DataDigest=None\0MaxConnections=1\0InitialR2T=Yes\0ImmediateData=No\0MaxRecvDataSegmentLength=8192\0MaxBurstLength=262144\0FirstBurstLength=65536\0DefaultTime2Wait=0\0DefaultTime2Retain=0\0MaxOutstandingR2T=1\0DataPDUInOrder=Yes\0DataSequenceInOrder=Yes\0ErrorRecoveryLevel=0\0";

impl LoginInfo {
    /// The keys of a request.
    pub(crate) fn keys(&self, alloc: Global, request: &NextRequest) -> Result<Vec<u8>, NoMemory>
        ensures { IfOk result (λ keys. keys.items ≡ request_keys self.now request.now) }
    {
        match request {
            NextRequest::Names => self.names(alloc),
            NextRequest::Algorithm => algorithm(alloc),
            NextRequest::Response(challenge) => self.response(alloc, challenge),
            NextRequest::Parameters(_) => parameters(alloc),
            NextRequest::Again(..) => Ok(Vec::new(alloc)),
        }
    }

    #[tactic(auto, unfolding(crate::specs::Asking::names_keys))]
    fn names(&self, alloc: Global) -> Result<Vec<u8>, NoMemory>
        ensures { IfOk result (λ keys. keys.items ≡ names_keys self.now) }
    {
        let mut keys = Vec::new(alloc);
        add(&mut keys, b"InitiatorName", self.initiator.as_slice())?;
        add(&mut keys, b"TargetName", self.target.as_slice())?;
        add(&mut keys, b"SessionType", b"Normal")?;
        add(&mut keys, b"AuthMethod", methods(self.has_secret()))?;
        Ok(keys)
    }

    /// Our name and our response to a challenge.
    #[tactic(auto, unfolding(crate::specs::Asking::response_keys))]
    fn response(&self, alloc: Global, challenge: &Challenge) -> Result<Vec<u8>, NoMemory>
        ensures { IfOk result (λ keys. keys.items ≡ response_keys self.now challenge.now) }
    {
        let digest = response(
            challenge.identifier,
            self.secret.as_slice(),
            challenge.value.as_slice(),
        );
        let digits = binary_text(alloc, &digest)?;
        let mut keys = Vec::new(alloc);
        add(&mut keys, b"CHAP_N", self.user.as_slice())?;
        add(&mut keys, b"CHAP_R", digits.as_slice())?;
        self.add_challenge(alloc, &mut keys)?;
        Ok(keys)
    }

    /// Adds our challenge, where the target is to answer one.
    #[tactic(auto, unfolding(crate::specs::Asking::back_keys))]
    fn add_challenge(&self, alloc: Global, keys: &mut Vec<u8>) -> Result<(), NoMemory>
        ensures { OnOk result (keys.new.items ≡ keys.old.items ++ back_keys self.now) }
    {
        if !self.asks_back() {
            return Ok(());
        }
        let identifier = self.own_identifier();
        let number = format!(in alloc; "{identifier}")?;
        let digits = binary_text(alloc, &self.own_challenge())?;
        add(keys, b"CHAP_I", number.as_bytes())?;
        add(keys, b"CHAP_C", digits.as_slice())
    }
}

fn methods(has_secret: bool) -> &'static [u8]
    ensures { result.now ≡ method_names has_secret }
{
    if has_secret { b"CHAP,None" } else { b"None" }
}

#[tactic(auto, unfolding(crate::specs::Asking::algorithm_keys))]
fn algorithm(alloc: Global) -> Result<Vec<u8>, NoMemory>
    ensures { IfOk result (λ keys. keys.items ≡ algorithm_keys) }
{
    Ok(Vec::from_slice(alloc, b"CHAP_A=5\0")?)
}

#[tactic(auto, unfolding(crate::specs::Asking::parameter_keys))]
fn parameters(alloc: Global) -> Result<Vec<u8>, NoMemory>
    ensures { IfOk result (λ keys. keys.items ≡ parameter_keys) }
{
    Ok(Vec::from_slice(alloc, PARAMETERS)?)
}

/// Adds a name, `=`, a value and a zero byte.
fn add(keys: &mut Vec<u8>, name: &[u8], value: &[u8]) -> Result<(), NoMemory>
    ensures { OnOk result (keys.new.items ≡ keys.old.items ++ key_text name.now value.now) }
{
    keys.extend_from_slice(name)?;
    keys.push(b'=')?;
    keys.extend_from_slice(value)?;
    keys.push(0)?;
    Ok(())
}
