//! The look-up's state, and its steps.

ghost use Rattle.std.specs.Prelude.{◌≡◌, ◌≤◌, length};
ghost use Rattle.nb_retry.specs.declared.plan.Plan.TheVariants.{Common};
ghost use Rattle.nb_retry.specs.Timer.{started};
ghost use Rattle.nb_dnsmsg.specs.Names.{IsDnsName};
ghost use Rattle.nb_dnsmsg.specs.Messages.{question_text};
ghost use Rattle.nb_dns.specs.declared.state.LookupPhase.TheVariants.{Asking};
ghost use Rattle.nb_dns.specs.Lookups.{to_port_53, asks_lookup_nothing, asks_lookup_try, lookup_cause};
ghost use Rattle.nb_dns.specs.LookupCalls.{dns_datagram};
ghost use Rattle.nb_dns.specs.LookupStands.{lookup_has_ended, phase_address};
ghost use Rattle.nb_dns.specs.Steps.{IsDatagramStep, phase_with, clock_acts, after_clock};

use arrayvec::ArrayVec;
use nb_dnsmsg::{Answer, Question};
use nb_retry::{Due, Plan, Retry};
use nb_terms::{Acts, Cause, Plain, Reason};
use nb_wire::{Ip4, Out};

/// UDP (RFC 768).
const UDP: u8 = 17;

/// The port of a server of names (RFC 1035, section 4.2.1).
const NAME_SERVER: u16 = 53;

/// The plan's tries had no answer.
const TIMED_OUT: Reason = Reason::TimedOut { tries: 6 };

/// How far a look-up is.
#[derive(Clone, Copy, Drop)]
pub(crate) enum LookupPhase {
    /// The query is out.
    Asking,
    /// The name has this address.
    Found(Ip4),
    /// It has ended without an address.
    Failed,
}

/// How far a look-up is, and what it was begun with.
#[derive(Drop)]
pub(crate) struct State {
    pub(crate) server: Ip4,
    pub(crate) own_port: u16,
    /// The query's number.
    pub(crate) id: u16,
    /// The name's text on the wire.
    pub(crate) name: ArrayVec<u8, 255>,
    /// The query, which is made once, for all its tries.
    pub(crate) query: ArrayVec<u8, 271>,
    pub(crate) phase: LookupPhase,
    pub(crate) retry: Retry,
}

impl State {
    /// A look-up whose query is out.
    pub(crate) fn begun(
        server: Ip4,
        own_port: u16,
        id: u16,
        name: ArrayVec<u8, 255>,
        now: u64,
    ) -> State
        requires { IsDnsName name.items }
        ensures { result ≡ record { server = server; own_port = own_port; id = id; name = name; query = record { items = question_text id name.items }; phase = Asking; retry = started now Common } }
    {
        let mut retry = Retry::stopped();
        retry.start(now, Plan::Common);
        State {
            server,
            own_port,
            id,
            query: query_bytes(id, name.as_slice()),
            name,
            phase: LookupPhase::Asking,
            retry,
        }
    }

    /// A datagram comes from this address. What isn't the server's answer is ignored.
    pub(crate) fn datagram(&mut self, rec: u32, src: Ip4, body: &[u8], acts: &mut Acts)
        requires { acts.old ≡ asks_lookup_nothing }
        ensures { IsDatagramStep self.old self.new (dns_datagram rec src body.now) acts.new }
    {
        if self.phase.has_ended() || src != self.server {
            return;
        }
        if let Some(answer) = Answer::read(body, self.id, self.name.as_slice()) {
            self.phase = phase_with(answer);
            acts.over = Some(cause_of(rec, answer));
        }
    }

    /// It is this time.
    pub(crate) fn clock(&mut self, now: u64, acts: &mut Acts)
        requires { acts.old ≡ asks_lookup_nothing }
        ensures acts { acts.new ≡ clock_acts self.old now }
        ensures after { self.new ≡ after_clock self.old now }
    {
        if self.phase.has_ended() {
            return;
        }
        match self.retry.due(now) {
            Due::Not => {}
            Due::Again(n) => self.ask(n, acts),
            Due::Over => {
                self.phase = LookupPhase::Failed;
                acts.over = Some(Cause::from(TIMED_OUT));
            }
        }
    }

    /// The query is sent, as the try of this number.
    pub(crate) fn ask(&self, n: u8, acts: &mut Acts)
        requires { acts.old ≡ asks_lookup_nothing }
        ensures { acts.new ≡ asks_lookup_try (to_port_53 self.now.server self.now.own_port self.now.query.items) n }
    {
        acts.sends.add(
            UDP,
            self.server,
            NAME_SERVER,
            self.own_port,
            self.query.as_slice(),
            b"",
        );
        acts.tried = Some(n);
    }
}

impl LookupPhase {
    pub(crate) fn has_ended(self) -> bool
        ensures { result ≡ lookup_has_ended self }
    {
        match self {
            LookupPhase::Asking => false,
            LookupPhase::Found(_) | LookupPhase::Failed => true,
        }
    }

    /// The address that was found.
    pub(crate) fn address(self) -> Option<Ip4>
        ensures { result ≡ phase_address self }
    {
        match self {
            LookupPhase::Found(address) => Some(address),
            LookupPhase::Asking | LookupPhase::Failed => None,
        }
    }
}

/// How far the look-up is with an answer.
fn phase_with(answer: Answer) -> LookupPhase
    ensures { result ≡ phase_with answer }
{
    match (answer.rcode, answer.address) {
        (0, Some(address)) => LookupPhase::Found(address),
        _ => LookupPhase::Failed,
    }
}

/// The end that the answer in a record makes.
fn cause_of(rec: u32, answer: Answer) -> Cause
    ensures { result ≡ lookup_cause rec answer }
{
    match (answer.rcode, answer.address) {
        (0, Some(_)) => Cause::from(Reason::Plain(Plain::Ok)),
        (rcode, _) => Cause::from(Reason::Refused {
            rec,
            code: u16::from(rcode),
        }),
    }
}

/// The query with this number for this name.
fn query_bytes(id: u16, name: &[u8]) -> ArrayVec<u8, 271>
    requires { IsDnsName name.now }
    ensures { result.items ≡ question_text id name.now }
{
    let mut room = [0; 271];
    let mut out = Out::new(&mut room);
    let _ = Question { id, name }.write(&mut out);
    let mut query = ArrayVec::new();
    let _ = query.try_extend_from_slice(out.written());
    query
}
