//! The laws of the mount's own names: which files stand among them, and where a name is made or removed.
//! Nothing here is executed: each function is a theorem, and its clauses say it.
#![tactic(auto)]

ghost use Rattle.std.specs.Prelude.{◌≡◌, ℕ, List};
ghost use Rattle.std.specs.FinMap as table;
ghost use Rattle.mp_types.specs.declared.options.Opts.{Opts};
ghost use Rattle.mp_types.specs.Options.{AreWithin};
ghost use Rattle.mount_model.specs.declared.request.Request.{Request};
ghost use Rattle.mount_model.specs.declared.request.Line.{Line};
ghost use Rattle.mount_model.specs.declared.standing.Heard.{Heard};
ghost use Rattle.mount_model.specs.Conversation.{View, Makes, Removes, Creates, next_of};
ghost use Rattle.mount_model.specs.Step.{Step};
ghost use Rattle.mount_model.specs.State.{ClientState, after, state_after};
ghost use Rattle.mount_model.specs.Run.{AreRising, IsLegalStep, IsRunSoFar};
ghost use Rattle.run_laws.specs.Alive.{IsAlive};
ghost use Rattle.name_laws.specs.Files.{HasFiles, IsNoName, IsEmptyDir};

/// Each file that is being written stands among the mount's own names, with as many bytes as its writer has taken, and
/// each file there is being written. It goes when its writer is done or has failed.
pub fn each_file_has_its_writer()
    ensures step { (state : ClientState) (step : Step) → IsAlive state → HasFiles (table.get state.shared.handles) state.shared.names → IsLegalStep state step → HasFiles (table.get (after state step).shared.handles) (after state step).shared.names }
    ensures run { (options : Opts) (script : List Line) (steps : List Step) → AreWithin options → AreRising 0 script → IsRunSoFar options script steps → HasFiles (table.get (state_after options script steps).shared.handles) (state_after options script steps).shared.names }
{}

/// What a line makes is no name yet, and what it removes is a directory of the mount's own, with no name below it.
pub fn names_are_made_once()
    ensures created { (view : View) (request : Request) (heard : Heard) (key : List ℕ) → next_of view request heard ≡ Creates key → IsNoName view.names key }
    ensures made { (view : View) (request : Request) (heard : Heard) (key : List ℕ) → next_of view request heard ≡ Makes key → IsNoName view.names key }
    ensures removed { (view : View) (request : Request) (heard : Heard) (key : List ℕ) → next_of view request heard ≡ Removes key → IsEmptyDir view.names key }
{}
