//! Runs of events.
ghost use Rattle.std.specs.Prelude.{◌≡◌, None, OnErr};
ghost use Rattle.vclock.specs.Answer.{Answers};
ghost use Rattle.range_state.specs.State.{IsRight};
ghost use Rattle.range_state.specs.Run.{IsStep, Run, PutStep, AcceptStep, TakeAnswerStep};

use crate::event::{AcceptEvent, AnswerEvent, AnswerTaken, Event, PutEvent, Reply};
use crate::state::RangeState;
use range_store::{Accepted, Receipt};
use std::alloc::Global;
use vclock::Refusal;

impl RangeState {
    /// Runs events in order, and returns the reply to each. If an event is refused, its reply is the refusal, and the
    /// later events are still run.
    ///
    /// Refused: NoMemory, before any event is run. On error nothing changes, and the events are dropped.
    pub fn run_events(&mut self, alloc: Global, events: Vec<Event>) -> Result<Vec<Reply>, Refusal>
        ensures run { Answers result None (λ replies. Run self.old events.items replies.items self.new) }
        ensures err { OnErr result (self.new ≡ self.old) }
    {
        let mut replies = Vec::with_capacity(alloc, events.len())?;
        for event in events {
            let reply = self.step(alloc, event);
            replies.push(reply).unwrap();
        }
        Ok(replies)
    }

    /// Runs an event.
    #[tactic(auto, unfolding(crate::specs::Run::IsStep))]
    fn step(&mut self, alloc: Global, event: Event) -> Reply
        ensures step { IsStep self.old event result self.new }
        ensures right { IsRight self.new }
    {
        let reply = match event {
            Event::Put(put) => Reply::Put(self.run_put(alloc, put)),
            Event::Accept(accept) => Reply::Accept(self.run_accept(alloc, accept)),
            Event::Get(key) => Reply::Get(self.get(alloc, key.as_slice())),
            Event::TakeJob(skip) => Reply::TakeJob(self.take_job(alloc, skip)),
            Event::Install(install) => {
                Reply::Install(self.install(install.node, &install.hashed))
            }
            Event::Snapshot => Reply::Snapshot(self.snapshot(alloc)),
            Event::OpenSession(open) => {
                Reply::OpenSession(self.open_session(alloc, open.partner, open.offer))
            }
            Event::TakeAnswer(answer) => Reply::TakeAnswer(self.run_answer(alloc, answer)),
            Event::CancelSession(id) => Reply::CancelSession(self.cancel_session(id)),
            Event::Migrate => Reply::Migrate(self.migrate(alloc)),
        };
        // Called only for its clause: the state is valid.
        let _right = self.journal();
        reply
    }

    /// Runs a put.
    fn run_put(&mut self, alloc: Global, put: PutEvent) -> Result<Receipt, Refusal>
        ensures { PutStep self.old put result self.new }
    {
        let (key, context) = (put.key, put.context);
        self.put(
            alloc,
            put.seat,
            put.at,
            key.as_slice(),
            &context,
            put.kind,
            put.value,
        )
    }

    /// Accepts a version that another node sent.
    fn run_accept(&mut self, alloc: Global, accept: AcceptEvent) -> Result<Accepted, Refusal>
        ensures { AcceptStep self.old accept result self.new }
    {
        let (key, version) = (accept.key, accept.version);
        self.accept(alloc, accept.seat, accept.source, key.as_slice(), version)
    }

    /// Takes a partner's text.
    fn run_answer(&mut self, alloc: Global, answer: AnswerEvent) -> Result<AnswerTaken, Refusal>
        ensures { TakeAnswerStep self.old answer result self.new }
    {
        self.take_answer(alloc, answer.seat, answer.id, answer.node, answer.text)
    }
}
