//! Laws of the world: over every list of steps, refused ones and want of memory among them.

ghost use Rattle.std.specs.Prelude.{◌≡◌, ◌<◌, ℕ, List, slice_get, Some, ◌≢◌, ◌⊎◌, ◌≤◌};
ghost use Rattle.log_model.specs.declared.verdict.Verdict.{Verdict};
ghost use Rattle.log_model.specs.declared.verdict.Verdict.TheVariants.{Commit};
ghost use Rattle.dsm_model.specs.declared.outcome.Outcome.{Outcome};
ghost use Rattle.dsm_model.specs.declared.outcome.Outcome.TheVariants.{Exit, Ordered, Delivered};
ghost use Rattle.log_model.specs.Log.{Setting, verdict_of};
ghost use Rattle.log_model.specs.Fit.{BeginsSafely};
ghost use Rattle.dsm_model.specs.World.{World, Step, Turn, Order, first_world, open_call, IsStep, AreSteps};
ghost use Rattle.log_model.specs.OpenCall.{OpenCall};
ghost use Rattle.dsm_model.specs.Sound.{IsWorld, IsSound, IsSerialReply, IsGiven, AreGiven};

/// Every list of steps leads from the first world to a world of three properties. The log is a log of calls of its
/// procedures and of safe additions. No replica is past its end, and the replica of each open call has come as far as
/// the call's snapshot.
pub fn steps_keep_a_world()
    ensures first { (w : Setting) (replicas : ℕ) → IsWorld w (first_world replicas) }
    ensures step { (w : Setting) (before : World) (step : Step) (outcome : Outcome) (after : World)
        → IsGiven w step outcome → IsStep w before step outcome after → IsWorld w before → IsWorld w after }
    ensures steps { (w : Setting) (before : World) (steps : List Step) (outcomes : List Outcome)
        (after : World)
        → AreGiven w steps outcomes → AreSteps w before steps outcomes after → IsWorld w before
        → IsWorld w after }
{}

/// Each open call of such a world goes on well: it isn't stuck, and has run no more instructions than the longest path
/// has. After as many as the path has, its run has ended with the reply of the run on the rows of its snapshot.
pub fn open_calls_are_sound()
    ensures { (w : Setting) (world : World) (c : ℕ) (o : OpenCall)
        → BeginsSafely w → IsWorld w world → open_call world c ≡ Some o → IsSound w world.log o }
{}

/// The reply that Exit answered, where the call is then ordered and commits, is the reply of its run on the rows just
/// before it.
pub fn replies_are_serial()
    ensures { (w : Setting) (before : World) (steps : List Step) (outcomes : List Outcome)
        (after : World) (c i j position reply : ℕ)
        → BeginsSafely w → AreGiven w steps outcomes → IsWorld w before
        → AreSteps w before steps outcomes after
        → slice_get steps i ≡ Some (Turn c) → slice_get outcomes i ≡ Some (Exit reply)
        → slice_get steps j ≡ Some (Order c) → slice_get outcomes j ≡ Some (Ordered position)
        → i < j → verdict_of w after.log position ≡ Some Commit
        → IsSerialReply w after.log position reply }
{}

/// A verdict that a delivery answered is the log's, however much longer the log has become.
pub fn delivered_verdicts_are_the_logs()
    ensures { (w : Setting) (before : World) (steps : List Step) (outcomes : List Outcome)
        (after : World) (j position : ℕ) (v : Verdict)
        → AreSteps w before steps outcomes after
        → slice_get outcomes j ≡ Some (Delivered position v)
        → verdict_of w after.log position ≡ Some v }
{}
