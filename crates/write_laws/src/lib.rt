//! The law of written objects: what a mount writes appears whole or not at all, and is there once an fsync or a close has
//! succeeded. Nothing here is executed: the function is a theorem, and its clause says it.
#![tactic(auto)]

ghost use Rattle.std.specs.Prelude.{ℕ, List};
ghost use Rattle.mp_types.specs.declared.options.Opts.{Opts};
ghost use Rattle.mp_types.specs.Options.{AreWithin};
ghost use Rattle.bucket_model.specs.declared.history.Logged.{Logged};
ghost use Rattle.bucket_model.specs.History.{IsLegalHistory};
ghost use Rattle.mount_model.specs.declared.request.Line.{Line};
ghost use Rattle.mount_model.specs.Run.{AreRising, IsRunSoFar};
ghost use Rattle.mount_model.specs.State.{state_after};
ghost use Rattle.mount_model.specs.Step.{Step};
ghost use Rattle.mount_model.specs.Tied.{HasItsUploads, TiesTo};
ghost use Rattle.mount_model.specs.Written.{AreWritten};

/// Each object that an upload of the mount makes is whole, and it is there once close or fsync has succeeded. This holds
/// also where others change the bucket and make uploads of their own, as long as they name none of the mount's.
pub fn written_objects_are_whole()
    ensures { (options : Opts) (script : List Line) (start : ℕ) (log : List Logged) (steps : List Step) →
        AreWithin options → AreRising 0 script → IsRunSoFar options script steps → TiesTo options script start log steps →
        HasItsUploads start log (state_after options script steps).positions →
        IsLegalHistory log → AreWritten options script log steps }
{}
