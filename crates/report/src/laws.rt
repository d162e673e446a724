//! Laws about the lines of answers.

ghost use Rattle.std.specs.Prelude.{◌≡◌, true, IsSome};
ghost use Rattle.dsm_model.specs.declared.outcome.Outcome.{Outcome};
ghost use Rattle.dsm_model.specs.World.{Step, is_answer};
ghost use Rattle.report.specs.Answers.{answer_line};
ghost use Rattle.report.specs.declared.printed.DeliveredEntry.{DeliveredEntry};

/// Every answer of a step has a line.
pub fn each_answer_has_a_line()
    ensures { (step : Step) (outcome : Outcome) (entry : DeliveredEntry) → is_answer step outcome ≡ true
        → IsSome (answer_line step outcome entry) }
{}
