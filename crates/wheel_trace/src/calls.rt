// The calls on the wheel that is lent.
use crate::answers::Answer;
use crate::records::Wheel;
use crate::requests::Call;
use wheel::{After, Refusal};

impl Wheel<'_> {
    // What the call answers.
    pub fn call(&mut self, call: Call) -> Result<Answer, Refusal> {
        match call {
            Call::Enable => {
                self.clock = wheel::enable(&mut self.nodes, &mut self.entries, self.clock)?;
                Ok(Answer::Done)
            }
            Call::Set {
                entry,
                deadline,
                generation,
            } => {
                wheel::set_entry(
                    self.nodes.as_read(),
                    &mut self.entries,
                    self.clock,
                    entry,
                    deadline,
                    generation,
                )?;
                Ok(Answer::Done)
            }
            Call::Schedule { entry, generation } => {
                let after = wheel::schedule(
                    &mut self.nodes,
                    self.entries.as_read(),
                    self.clock,
                    entry,
                    generation,
                )?;
                Ok(Answer::Armed(self.kept(after)))
            }
            Call::Reschedule(handle, generation) => {
                let after = wheel::reschedule(
                    &mut self.nodes,
                    self.entries.as_read(),
                    self.clock,
                    handle,
                    generation,
                )?;
                Ok(Answer::Rescheduled(self.kept(after)))
            }
            Call::Deschedule(handle, generation) => {
                self.clock = wheel::deschedule(
                    &mut self.nodes,
                    self.entries.as_read(),
                    self.clock,
                    handle,
                    generation,
                )?;
                Ok(Answer::Done)
            }
            Call::Start(reading) => {
                self.clock = wheel::start(
                    self.nodes.as_read(),
                    self.entries.as_read(),
                    self.clock,
                    reading,
                )?;
                Ok(Answer::Done)
            }
            Call::Pull => {
                let after = wheel::pull(&mut self.nodes, self.entries.as_read(), self.clock)?;
                Ok(Answer::Event(self.kept(after)))
            }
            Call::Abandon => {
                self.clock = wheel::abandon(
                    self.nodes.as_read(),
                    self.entries.as_read(),
                    self.clock,
                )?;
                Ok(Answer::Done)
            }
            Call::Armed => {
                let n = wheel::armed_count(
                    self.nodes.as_read(),
                    self.entries.as_read(),
                    self.clock,
                )?;
                Ok(Answer::Count(n))
            }
            Call::Due => {
                let due = wheel::next_due(
                    self.nodes.as_read(),
                    self.entries.as_read(),
                    self.clock,
                )?;
                Ok(Answer::Due(due))
            }
        }
    }

    // The answer, with the clock kept.
    fn kept<A>(&mut self, after: After<A>) -> A {
        self.clock = after.clock;
        after.answer
    }
}
