//! The laws of two histories, each of a session with its callers, that are one run. Each public function is a law: it does
//! nothing, and its contract is the theorem.

ghost use Rattle.std.specs.Prelude.{ℕ, List};
ghost use Rattle.ymx_machine.specs.declared.types.Step.{Step};
ghost use Rattle.ymx_model.specs.session.Sessions.{Session};
ghost use Rattle.ymx_model.specs.session.Emissions.{in_turn};
ghost use Rattle.ymx_model.specs.declared.types.Entry.{Entry};
ghost use Rattle.ymx_headline.specs.Laws.{AreGood};
ghost use Rattle.ymx_headline.specs.audit.Told.{IsOneRun};
ghost use Rattle.ymx_joined.specs.Callers.{CarryAll, AreHandedOutOnce, TakeNoneBehindFinish, GiveNoneBehindEnd, EchoesCome};

/// Two histories are one run: a client's and a server's, whose entries have a joint order that goes as the queue machine does,
/// as `certify` shows of two transcripts. Then what each stream gave at one end is a beginning of what it took at the other.
/// Where its end was read at the one, it is all of it, and the stream was finished at the other. So it is both ways, and of each
/// stream. In neither history is a stream given to a caller twice, by being opened or accepted. After its finish a stream takes
/// no byte there, and gives none after its end.
pub fn one_run_carries()
    ensures carries { (xs ys : List Entry) → (steps : List Step) → (wa fa wb fb : ℕ) → (s t : Session) →
        AreGood wa fa wb fb → IsOneRun in_turn xs ys steps wa fa wb fb s t → CarryAll xs ys }
    ensures handed_out_once { (xs ys : List Entry) → (steps : List Step) → (wa fa wb fb : ℕ) → (s t : Session) →
        AreGood wa fa wb fb → IsOneRun in_turn xs ys steps wa fa wb fb s t → AreHandedOutOnce xs × AreHandedOutOnce ys }
    ensures none_behind_finish { (xs ys : List Entry) → (steps : List Step) → (wa fa wb fb : ℕ) → (s t : Session) →
        AreGood wa fa wb fb → IsOneRun in_turn xs ys steps wa fa wb fb s t → TakeNoneBehindFinish xs × TakeNoneBehindFinish ys }
    ensures none_behind_end { (xs ys : List Entry) → (steps : List Step) → (wa fa wb fb : ℕ) → (s t : Session) →
        AreGood wa fa wb fb → IsOneRun in_turn xs ys steps wa fa wb fb s t → GiveNoneBehindEnd xs × GiveNoneBehindEnd ys }
{}

/// What was written comes back. Two histories are one run, as above. At one end a caller opened a stream; a text was written to
/// it, and it was finished. It was read up to the end, and its reading half was closed. At the other end a caller accepted this
/// stream. It was read up to the end there, and its reading half was closed; what was read was written back, and the stream was
/// finished. The history at each end says that nobody else had written to the stream as it was finished, or read it as it was
/// closed, unless it was given twice, which one run rules out. Then the other end read the text, and what came back is the text. It is so whichever end opened the stream.
pub fn echoes_come_back()
    ensures { (xs ys : List Entry) → (steps : List Step) → (wa fa wb fb : ℕ) → (s t : Session) →
        AreGood wa fa wb fb → IsOneRun in_turn xs ys steps wa fa wb fb s t → EchoesCome xs ys × EchoesCome ys xs }
{}
