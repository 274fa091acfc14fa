//! The law that the audit of two histories rests on. The function does nothing: its contract is the theorem.
ghost use Rattle.std.specs.Prelude.{List, Bool};
ghost use Rattle.ymx_model.specs.declared.types.Entry.{Entry};
ghost use Rattle.ymx_machine.specs.declared.types.Step.{Step};
ghost use Rattle.ymx_model.specs.session.Sessions.{Session};
ghost use Rattle.ymx_model.specs.session.Emissions.{Choice};
ghost use Rattle.ymx_headline.specs.audit.Joints.{IsJointOrder};
ghost use Rattle.ymx_headline.specs.audit.Told.{AreOneRun};

/// Two histories that the audit joins are one run of the queue machine. Where the client's entries replay from its
/// new session, the server's from its own, and they have a joint order with these steps, the replies are the answers
/// of a run of these two sessions from the new world, and the queue machine has a run that goes alike.
pub fn joined_histories_are_one_run()
    ensures { (may : Choice → Session → Bool) (xs ys : List Entry) (steps : List Step) → IsJointOrder xs ys steps → AreOneRun may xs ys steps }
{}
