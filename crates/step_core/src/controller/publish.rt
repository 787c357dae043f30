//! Publish: entries go into a submission queue.

ghost use Rattle.std.specs.Prelude.{◌≡◌, None, length};
ghost use Rattle.nvme_model.specs.Refusals.{refusal};
ghost use Rattle.nvme_model.specs.declared.step.Step.{Step};
ghost use Rattle.controller_interface.specs.State.{DoesPublish};

use crate::controller::Core;
use crate::controller::room::keep_room;
use nvme_model::entry::{Entry, PublishLine};
use nvme_model::refusal::Why;
use nvme_model::submission::{Batch, Payload, Submission, Submissions, copies_of};

impl Core {
    // Why a batch is refused, memory aside.
    fn publish_refusal(&self, queue: u16, batch: &Submissions) -> Option<Why>
        ensures value { result ≡ refusal self.now.config self.now.past (Step.Publish queue batch.now) }
    {
        match self.sq_ring(queue) {
            Some(ring) => ring.refuses(batch.as_slice()),
            None => Some(Why::NoQueue),
        }
    }

    // Puts a batch at the end of a submission queue.
    pub(super) fn publish_batch(
        &mut self,
        queue: u16,
        batch: Submissions,
    ) -> Result<(), (Why, Submissions)>
        ensures does { DoesPublish self.old (Step.Publish queue batch) result self.new }
    {
        if let Some(why) = self.publish_refusal(queue, &batch) {
            return Err((why, batch));
        }
        if batch.as_slice().len() == 1 {
            return self.publish_one(queue, batch);
        }
        let Ok(copy) = copies_of(self.alloc, batch.as_slice()) else {
            return Err((Why::NoMemory, batch));
        };
        let Ok(()) = keep_room(&mut self.history, self.promised) else {
            return Err((Why::NoMemory, batch));
        };
        self.submission[queue as usize - 1].publish(batch).unwrap();
        self.history.push_reserved(Entry::Publish(PublishLine {
            queue,
            batch: Batch::new(copy),
        }));
        Ok(())
    }

    // The same of one entry, which isn't refused: it is kept as it came, and a copy of it waits.
    fn publish_one(&mut self, queue: u16, batch: Submissions) -> Result<(), (Why, Submissions)>
        requires allowed { refusal self.old.config self.old.past (Step.Publish queue batch) ≡ None }
        requires one { length batch ≡ 1 }
        ensures does { DoesPublish self.old (Step.Publish queue batch) result self.new }
    {
        let one = &batch.as_slice()[0];
        let entry = one.entry;
        let Ok(payload) = Payload::copy_of(self.alloc, one.payload.as_slice()) else {
            return Err((Why::NoMemory, batch));
        };
        let Ok(()) = keep_room(&mut self.history, self.promised) else {
            return Err((Why::NoMemory, batch));
        };
        self.submission[queue as usize - 1].push(Submission { entry, payload });
        self.history.push_reserved(Entry::Publish(PublishLine {
            queue,
            batch: Batch::new(batch.into_vec()),
        }));
        Ok(())
    }
}
