// What memory keeps of a node's past.
ghost use Rattle.std.specs.Prelude.{◌≡◌, ◌++◌, None, IfSome, OnErr, OnOk};
ghost use Rattle.tva_node.specs.States.{all_given, gone_after, news, state_of, unsent};
ghost use Rattle.tva_node.specs.Keeping.{HoldsSome};

use crate::parts::Parts;
use std::alloc::AllocError;
use tva_base::Event;
use tva_waiting::{Flight, Memory};

impl Parts {
    /// Puts behind what stands in `sent` what was not handed over yet; all is told then, and what need not be kept is
    /// forgotten. The error is want of memory, and changes nothing here.
    pub fn hand_over(&mut self, sent: &mut Vec<Flight>) -> Result<(), AllocError>
        requires held { HoldsSome self.old }
        ensures sent { OnOk result (sent.new.items ≡ sent.old.items ++ unsent (state_of self.old)) }
        ensures same { OnOk result (state_of self.new ≡ record (state_of self.old) { gone = gone_after (state_of self.old) }) }
        ensures held { HoldsSome self.new }
        ensures err { OnErr result (state_of self.new ≡ state_of self.old) }
    {
        self.outbox.hand_over(self.alloc, sent)?;
        match self.outbox.keeps() {
            Memory::All => self.log.tell(),
            Memory::Nothing => self.log.forget(),
        }
        Ok(())
    }

    /// Hands out what was not told yet, where memory has just these events and need not keep them.
    pub fn take_news(&mut self) -> Option<Vec<Event>>
        requires held { HoldsSome self.old }
        ensures told { IfSome result (λ list. list.items ≡ news (state_of self.old)) }
        ensures left { IfSome result (λ list. state_of self.new ≡ record (state_of self.old) { gone = all_given (state_of self.old) }) }
        ensures none { result ≡ None → state_of self.new ≡ state_of self.old }
        ensures held { HoldsSome self.new }
    {
        match self.outbox.keeps() {
            Memory::All => None,
            Memory::Nothing => self.log.take_news(Vec::new(self.alloc)),
        }
    }
}
