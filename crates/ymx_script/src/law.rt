//! What holds of every script.

ghost use Rattle.std.specs.Prelude.{ℕ, List};
ghost use Rattle.ymx_machine.specs.declared.types.Answer.{Answer};
ghost use Rattle.ymx_model.specs.session.Emissions.{in_turn};
ghost use Rattle.ymx_model.specs.world.Worlds.{Runs};
ghost use Rattle.ymx_script.specs.Runs.{steps_said, world_of_settings};
ghost use Rattle.ymx_script.specs.Scripts.{Position, Plays, first_position, world_at};

/// A script is a run of a world: the steps that its lines say, one after another, lead from the new world of
/// its settings to the world at its end.
pub fn a_script_is_a_run()
    ensures { (lines : List (List ℕ)) (text : List ℕ) (p : Position) → Plays lines first_position text p →
        (answers : List Answer) × Runs in_turn (steps_said lines) answers (world_of_settings p) (world_at p) }
{}
