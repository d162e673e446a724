//! Laws about lines, from the definitions alone.

ghost use Rattle.std.specs.Prelude.{◌≡◌, ◌<◌, ℕ, List, length, Err};
ghost use Rattle.script.specs.Text.{max_line};
ghost use Rattle.script.specs.Script.{line_says};
ghost use Rattle.script.specs.declared.fault.LineFault.TheVariants.{Bytes};

/// A line that is too long is at fault for its bytes, whatever they are.
#[tactic(auto, unfolding(crate::specs::Line::says))]
pub fn lines_that_are_too_long_are_at_fault()
    ensures { (line : List ℕ) → max_line < length line → line_says line ≡ Err Bytes }
{}
