//! The law of flow control, over definitions alone.

ghost use Rattle.std.specs.Prelude.{◌≡◌, ◌+◌, ◌≤◌, ℕ, List};
ghost use Rattle.ymx_credit.specs.Flows.{Flow, Step, new_flow, IsBalanced, IsPossible, ArePossible, flow_after, flow_after_all};

/// Whatever is written, arrives, is read, announced and granted, in whatever order: what the writer
/// may write, the bytes on their way, those unread, those owed and those announced make up the
/// window. So what is read fits the reader's debt, and what is granted the writer's credit. (A law
/// over definitions: the function itself does nothing.)
pub fn window_is_kept()
    ensures start { (window left : ℕ) → left ≤ window → IsBalanced (new_flow window left) }
    ensures step { (s : Step) (f : Flow) → IsPossible s f → IsBalanced f → IsBalanced (flow_after s f) }
    ensures run { (steps : List Step) (f : Flow) → ArePossible steps f → IsBalanced f → IsBalanced (flow_after_all steps f) }
    ensures same_window { (steps : List Step) (f : Flow) → (flow_after_all steps f).window ≡ f.window }
    ensures debt_fits { (n : ℕ) (f : Flow) → IsBalanced f → n ≤ f.here → f.owed + n ≤ f.window }
    ensures credit_fits { (n : ℕ) (f : Flow) → IsBalanced f → n ≤ f.announced → f.left + n ≤ f.window }
{}
