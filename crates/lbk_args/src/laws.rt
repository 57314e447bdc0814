//! Laws about the definitions of the arguments. Each is the contract of a function with an empty body.

ghost use Rattle.std.specs.Prelude.{◌≡◌, List, Some};
ghost use Rattle.clap.specs.Words.{Text};
ghost use Rattle.lbk_args.specs.Accepted.{AreAccepted};
ghost use Rattle.lbk_args.specs.Task.{Task, task_by};

/// Accepted arguments ask for a task, so what holds for each such task holds for all accepted arguments.
pub fn accepted_words_ask_for_a_task()
    ensures { (words : List Text) → AreAccepted words → (task : Task) × (task_by words ≡ Some task) }
{}
