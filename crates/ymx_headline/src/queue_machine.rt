//! Laws of the queue machine by itself, over all runs. Its calls do nothing: each contract is a theorem.
ghost use Rattle.std.specs.Prelude.{◌%◌, ◌≡◌, ◌≢◌, ◌⊎◌, ◌≤◌, ℕ, List, None, Some, true};
ghost use Rattle.ymx_machine.specs.shared.Evidence.{evidence};
ghost use Rattle.ymx_machine.specs.declared.types.Answer.{Answer};
ghost use Rattle.ymx_machine.specs.shared.Events.{Call};
ghost use Rattle.ymx_machine.specs.declared.types.CallFault.TheVariants.{OutOfMemory};
ghost use Rattle.ymx_machine.specs.declared.types.Reply.TheVariants.{Refused};
ghost use Rattle.ymx_machine.specs.shared.Events.{Reply};
ghost use Rattle.ymx_machine.specs.declared.types.Step.{Step};
ghost use Rattle.ymx_machine.specs.machine.FreeMoves.{FreeMove, moved_by};
ghost use Rattle.ymx_machine.specs.shared.Limits.{first_credit};
ghost use Rattle.ymx_machine.specs.machine.CallRules.{Rule};
ghost use Rattle.ymx_machine.specs.machine.Runs.{MachineRun, MachineStep};
ghost use Rattle.ymx_machine.specs.machine.Machines.{Machine, new_machine};
ghost use Rattle.ymx_machine.specs.shared.Lists.{look};
ghost use Rattle.ymx_headline.specs.machine.Numbers.{HasBothParities, HasOrder};
ghost use Rattle.ymx_headline.specs.machine.Others.{needs_memory, touched, touched_by};
ghost use Rattle.ymx_headline.specs.machine.Runs.{ObeysAt};

/// The law of a lane (flow control): in every run from a new machine, the bytes on their way, the
/// bytes unread, the credit and what is owed of it are never more than the reader's window.
pub fn lane_law()
    ensures every_lane { (window_a first_a window_b first_b : ℕ) (steps : List Step) (answers : List Answer) (m : Machine) (id : ℕ) →
        first_credit ≤ window_a → first_credit ≤ window_b →
        MachineRun steps answers (new_machine window_a first_a window_b first_b) m →
        ObeysAt window_a window_b (look id m.streams) }
{}

/// Stream identifiers: in every run each number stands once, below its opener's next number and odd or
/// even as that is, and the offered lists name the offered ends, each once. Each step keeps this, and a
/// side's next number is unused.
pub fn numbers()
    ensures in_order { (window_a first_a window_b first_b : ℕ) (steps : List Step) (answers : List Answer) (m : Machine) →
        first_a % 2 ≡ 1 → first_b % 2 ≡ 0 →
        MachineRun steps answers (new_machine window_a first_a window_b first_b) m → HasOrder m }
    ensures kept { (step : Step) (given : Answer) (m n : Machine) → HasBothParities m → MachineStep step given m n → HasOrder m →
        HasOrder n × HasBothParities n }
    ensures next_is_unused { (m : Machine) → HasBothParities m → HasOrder m → look m.me.next m.streams ≡ None }
{}

/// A call or a free move touches one stream: every other one stays as it is, and a call leaves what is
/// the other side's own.
pub fn others_keep()
    ensures of_call { (c : Call) (m n : Machine) (r : Reply) (id : ℕ) → Rule c m r n → touched c m ≢ Some id →
        look id n.streams ≡ look id m.streams }
    ensures of_move { (v : FreeMove) (m : Machine) (id : ℕ) → touched_by v ≢ Some id →
        look id (moved_by v m).streams ≡ look id m.streams }
    ensures other_side { (c : Call) (m n : Machine) (r : Reply) → Rule c m r n → n.you ≡ m.you }
{}

/// A call has one answer in a state. Only where a stream would be opened or bytes taken may lack of
/// memory be answered in its place.
pub fn one_answer()
    ensures { (c : Call) (m n k : Machine) (r other : Reply) → Rule c m r n → Rule c m other k →
        r ≢ Refused (OutOfMemory evidence) →
        (other ≡ r) ⊎ ((other ≡ Refused (OutOfMemory evidence)) × (needs_memory r ≡ true)) }
{}
