//! The laws of every run of the mount: what holds after each step, that no reply is lost, which bytes a
//! read gives, that writers ask for each call once, and that each run ends. Nothing here is executed: each
//! function is a theorem, and its clauses say it.
#![tactic(auto)]

ghost use Rattle.std.specs.Prelude.{◌≡◌, ◌≢◌, ℕ, ◌+◌, ◌*◌, ◌<◌, ◌≤◌, List, [], map, length, true, false, Some, Ok, Err};
ghost use Rattle.std.specs.FinMap as table;
ghost use Rattle.std.specs.List.{AllByRecursion};
ghost use Rattle.mp_types.specs.declared.options.Opts.{Opts};
ghost use Rattle.mp_types.specs.Options.{AreWithin};
ghost use Rattle.mp_types.specs.HandleName.{HandleName};
ghost use Rattle.mp_types.specs.declared.octets.Data.{Data};
ghost use Rattle.mp_types.specs.declared.path.PathFault.{PathFault};
ghost use Rattle.bucket_model.specs.declared.call.Call.{Call};
ghost use Rattle.bucket_model.specs.declared.call.Call.TheVariants as call;
ghost use Rattle.bucket_model.specs.declared.page.Page.{Page};
ghost use Rattle.bucket_model.specs.declared.answer.Brief.{Brief};
ghost use Rattle.bucket_model.specs.declared.answer.Brief.TheVariants as answer;
ghost use Rattle.bucket_model.specs.declared.answer.Answer.{Answer};
ghost use Rattle.bucket_model.specs.Answers.{brief_of, bytes_in, fits, MayBeMade};
ghost use Rattle.bucket_model.specs.Bucket.{ObjectVersion, IsSlice};
ghost use Rattle.mount_model.specs.declared.handle.Handle.TheVariants.{Writing};
ghost use Rattle.mount_model.specs.declared.handle.Waiter.TheVariants as waiter;
ghost use Rattle.mount_model.specs.declared.request.Request.{Request};
ghost use Rattle.mount_model.specs.declared.request.Request.TheVariants as request;
ghost use Rattle.mount_model.specs.declared.request.Line.{Line};
ghost use Rattle.mount_model.specs.declared.event.Event.TheVariants.{Begin, Take, Done};
ghost use Rattle.mount_model.specs.declared.event.Owner.TheVariants as owner;
ghost use Rattle.mount_model.specs.declared.standing.Heard.{Heard};
ghost use Rattle.mount_model.specs.declared.standing.Phase.TheVariants.{Begun};
ghost use Rattle.mount_model.specs.declared.standing.Standing.{Standing};
ghost use Rattle.mount_model.specs.Heard.{nothing_heard, with_told, question_of, told_by};
ghost use Rattle.mount_model.specs.Conversation.{View, Asks, max_pages, next_of};
ghost use Rattle.mount_model.specs.Handles.{Writer};
ghost use Rattle.mount_model.specs.Writers.{has_failed};
ghost use Rattle.mount_model.specs.Step.{Step};
ghost use Rattle.mount_model.specs.State.{ClientState, Job, Ready, Gone, opening, after, state_after, line_at, job_at, next_in, handle_name};
ghost use Rattle.mount_model.specs.Reads.{IsReadReply, GivesOnly};
ghost use Rattle.mount_model.specs.Run.{AreRising, IsLegalStep, IsRunSoFar, IsRun, IsQuiet, startable};
ghost use Rattle.run_laws.specs.Alive.{IsAlive};
ghost use Rattle.run_laws.specs.Calls.{jobs_of};
ghost use Rattle.run_laws.specs.Counts.{is_abort};
ghost use Rattle.run_laws.specs.Faithful.{IsRead, IsFaithful};
ghost use Rattle.run_laws.specs.Listings.{HasListing};
ghost use Rattle.run_laws.specs.Order.{IsInOrder};
ghost use Rattle.run_laws.specs.Once.{begins_in, replies_in, replied_in, for_phase};
ghost use Rattle.run_laws.specs.Served.{IsOfLine, IsOwned, HasJob};
ghost use Rattle.run_laws.specs.Work.{calls_left, work_left};
ghost use Rattle.run_laws.specs.Writers.{awaits_writer, waiting_line, IsWriter, HasWriter, HasReply, WaitsForWriter, AsksOnce};

/// What holds before the first step holds after each one.
pub fn each_state_is_alive()
    ensures { (options : Opts) (script : List Line) (steps : List Step) → AreWithin options → AreRising 0 script → IsRunSoFar options script steps → IsAlive (state_after options script steps) }
{}

/// A step changes how far lines have come, and not the lines.
pub fn lines_stay()
    ensures { (options : Opts) (script : List Line) (steps : List Step) → map (λ s. s.line) (state_after options script steps).lines ≡ script }
{}

/// Where no line may begin and no job is ready or out, each line has its reply: none waits for ever, for other lines
/// or for a writer.
pub fn no_reply_is_lost()
    ensures { (options : Opts) (script : List Line) (steps : List Step) → AreWithin options → AreRising 0 script → IsRunSoFar options script steps → startable (state_after options script steps).lines ≡ [] → AllByRecursion (λ job. job.phase ≡ Gone) (state_after options script steps).jobs → IsQuiet (state_after options script steps) }
{}

/// Jobs of lines that are ready or out, and lines that have begun and wait neither for other lines nor for a writer,
/// belong together one to one.
pub fn each_job_has_its_line()
    ensures owned { (state : ClientState) (number : ℕ) (job : Job) → IsAlive state → job_at number state.jobs ≡ Some job → IsOfLine job.owner → job.phase ≢ Gone → IsOwned state job }
    ensures alone { (state : ClientState) (i j line : ℕ) (first second : Job) → IsAlive state → job_at i state.jobs ≡ Some first → job_at j state.jobs ≡ Some second → IsOfLine first.owner → IsOfLine second.owner → first.phase ≢ Gone → second.phase ≢ Gone → first.line ≡ line → second.line ≡ line → i ≡ j }
    ensures at_work { (state : ClientState) (number : ℕ) (standing : Standing) (heard : Heard) → IsAlive state → line_at number state.lines ≡ Some standing → standing.phase ≡ Begun heard → standing.line.request ≢ request.Await → awaits_writer standing.line.request ≡ false → HasJob state number }
{}

/// Each writer that stands under a name has just the jobs that its upload says, and each job that is ready or out has its
/// writer. A line that has begun to wait for a writer is the one that is waited for there, and then a call of the writer
/// isn't back. A failed writer keeps no job ready but an abort.
pub fn each_writer_has_its_jobs()
    ensures each { (state : ClientState) (name : HandleName) (writer : Writer) → IsAlive state → table.get state.shared.handles name ≡ Some (Writing writer) → IsWriter state.lines state.jobs name writer }
    ensures alone { (state : ClientState) (name other : HandleName) (first second : Writer) → IsAlive state → table.get state.shared.handles name ≡ Some (Writing first) → table.get state.shared.handles other ≡ Some (Writing second) → first.line ≡ second.line → name ≡ other }
    ensures owned { (state : ClientState) (number opened : ℕ) (job : Job) → IsAlive state → job_at number state.jobs ≡ Some job → job.owner ≡ owner.Writer opened → job.phase ≢ Gone → HasWriter (table.get state.shared.handles) opened }
    ensures opened { (state : ClientState) (number opened : ℕ) (job : Job) → IsAlive state → job_at number state.jobs ≡ Some job → job.owner ≡ owner.Writer opened → HasReply state.lines opened }
    ensures waited { (state : ClientState) (number : ℕ) (line : Line) (heard : Heard) → IsAlive state → line_at number state.lines ≡ Some (record { line = line; phase = Begun heard }) → awaits_writer line.request ≡ true → WaitsForWriter (table.get state.shared.handles) number line }
    ensures unwaited { (state : ClientState) (name : HandleName) (writer : Writer) (number : ℕ) (line : Line) (heard : Heard) → IsAlive state → table.get state.shared.handles name ≡ Some (Writing writer) → writer.waiter ≡ waiter.Nobody → line_at number state.lines ≡ Some (record { line = line; phase = Begun heard }) → awaits_writer line.request ≡ true → handle_name line ≢ name }
    ensures busy { (state : ClientState) (name : HandleName) (writer : Writer) (number : ℕ) → IsAlive state → table.get state.shared.handles name ≡ Some (Writing writer) → waiting_line writer.waiter ≡ Some number → 0 < writer.upload.pending }
    ensures idle { (state : ClientState) (name : HandleName) (writer : Writer) (number : ℕ) (job : Job) → IsAlive state → table.get state.shared.handles name ≡ Some (Writing writer) → has_failed writer.upload ≡ true → job_at number state.jobs ≡ Some job → job.owner ≡ owner.Writer writer.line → job.phase ≡ Ready → is_abort job.call ≡ 1 }
{}

/// Where a line reads, its job makes the call that the line does next, from when it is asked for until its answer comes:
/// neither what the line has heard nor the handle that it reads changes before.
pub fn each_read_makes_its_call()
    ensures { (options : Opts) (script : List Line) (steps : List Step) (number : ℕ) (job : Job) (standing : Standing) → AreWithin options → AreRising 0 script → IsRunSoFar options script steps → job_at number (state_after options script steps).jobs ≡ Some job → IsOfLine job.owner → job.phase ≢ Gone → line_at job.line (state_after options script steps).lines ≡ Some standing → IsRead standing.line.request → next_in (state_after options script steps).shared standing ≡ Asks job.call }
{}

/// Whatever the answer to a line's own job is, it leaves the line fewer calls. The line might by then ask something else:
/// another process may have made or removed a directory while the question was out.
pub fn each_answer_leaves_fewer_calls()
    ensures { (options : Opts) (script : List Line) (steps : List Step) (number : ℕ) (job : Job) (standing : Standing) (heard : Heard) (answer : Brief) → AreWithin options → AreRising 0 script → IsRunSoFar options script steps → job_at number (state_after options script steps).jobs ≡ Some job → IsOfLine job.owner → job.phase ≢ Gone → line_at job.line (state_after options script steps).lines ≡ Some standing → standing.phase ≡ Begun heard → calls_left standing.line.request (with_told (told_by (question_of job.call) answer) heard) < calls_left standing.line.request heard }
{}

/// A job that lists and is ready or out is its line's own, no writer's: the line has begun to list the directory with that
/// prefix, and has heard nothing but pages, fewer than the most. So it is with each job that a page may answer.
pub fn each_listing_has_its_line()
    ensures asked { (options : Opts) (script : List Line) (steps : List Step) (number : ℕ) (job : Job) (prefix after : List ℕ) (max : ℕ) → AreWithin options → AreRising 0 script → IsRunSoFar options script steps → job_at number (state_after options script steps).jobs ≡ Some job → job.phase ≢ Gone → job.call ≡ call.List prefix after max → HasListing (state_after options script steps) job }
    ensures answered { (options : Opts) (script : List Line) (steps : List Step) (number : ℕ) (job : Job) (page : Page) → AreWithin options → AreRising 0 script → IsRunSoFar options script steps → job_at number (state_after options script steps).jobs ≡ Some job → job.phase ≢ Gone → fits job.call (answer.Page page) ≡ true → HasListing (state_after options script steps) job }
{}

/// Each step keeps these laws, and so they hold after each run.
pub fn each_job_is_faithful()
    ensures step { (state : ClientState) (step : Step) → IsAlive state → IsFaithful state → IsLegalStep state step → IsFaithful (after state step) }
    ensures run { (options : Opts) (script : List Line) (steps : List Step) → AreWithin options → AreRising 0 script → IsRunSoFar options script steps → IsFaithful (state_after options script steps) }
{}

/// No job asks for an empty range, a page has room for an item and for no more than the bucket gives, a part's number is
/// one that the bucket takes, and an object is made of at least one part. This holds of all jobs so far, those that are
/// gone too.
pub fn calls_may_be_made()
    ensures asked { (view : View) (request : Request) (heard : Heard) (called : Call) → AreWithin view.options → next_of view request heard ≡ Asks called → MayBeMade called }
    ensures run { (options : Opts) (script : List Line) (steps : List Step) (number : ℕ) (job : Job) → AreWithin options → AreRising 0 script → IsRunSoFar options script steps → job_at number (state_after options script steps).jobs ≡ Some job → MayBeMade job.call }
{}

/// A read gives bytes of the version that its handle opened: where an answer's bytes are those of the version and
/// the range that its call asks for, and a step gives no others, its replies are such reads. A line that begins has
/// no answer yet, and gives no bytes.
pub fn reads_are_slices()
    ensures done { (versions : List ObjectVersion) (options : Opts) (script : List Line) (steps : List Step) (step : Step) (number position : ℕ) (said : Answer) (job : Job) → AreWithin options → AreRising 0 script → IsRunSoFar options script steps → IsLegalStep (state_after options script steps) step → step.event ≡ Done number position (brief_of said) → job_at number (state_after options script steps).jobs ≡ Some job → IsSlice versions job.call said → AllByRecursion (GivesOnly (bytes_in said)) step.replies → AllByRecursion (IsReadReply versions (state_after options script steps)) step.replies }
    ensures begun { (versions : List ObjectVersion) (options : Opts) (script : List Line) (steps : List Step) (step : Step) (line time : ℕ) → AreWithin options → AreRising 0 script → IsRunSoFar options script steps → IsLegalStep (state_after options script steps) step → step.event ≡ Begin line time → AllByRecursion (GivesOnly []) step.replies → AllByRecursion (IsReadReply versions (state_after options script steps)) step.replies }
    ensures taken { (versions : List ObjectVersion) (options : Opts) (script : List Line) (steps : List Step) (step : Step) (number time from : ℕ) → IsLegalStep (state_after options script steps) step → step.event ≡ Take number time from → AllByRecursion (IsReadReply versions (state_after options script steps)) step.replies }
{}

/// The drops, the asks and the replies of a step are each in the order in which its text has them.
pub fn each_step_is_in_order()
    ensures { (options : Opts) (script : List Line) (steps : List Step) → AreWithin options → AreRising 0 script → IsRunSoFar options script steps → AllByRecursion IsInOrder steps }
{}

/// A line begins at most once and gets at most one reply, in the step in which it begins or a later one:
/// each front of a run is a run so far. In a whole run each line gets its one reply.
pub fn each_line_is_answered_once()
    ensures begun { (options : Opts) (script : List Line) (steps : List Step) (number : ℕ) → AreWithin options → AreRising 0 script → IsRunSoFar options script steps → begins_in number steps ≤ 1 }
    ensures behind { (options : Opts) (script : List Line) (steps : List Step) (number : ℕ) → AreWithin options → AreRising 0 script → IsRunSoFar options script steps → replies_in number steps ≤ begins_in number steps }
    ensures phase { (options : Opts) (script : List Line) (steps : List Step) (number : ℕ) → AreWithin options → AreRising 0 script → IsRunSoFar options script steps → replies_in number steps ≡ for_phase replied_in (line_at number (state_after options script steps).lines) }
    ensures each { (options : Opts) (script : List Line) (steps : List Step) → AreWithin options → AreRising 0 script → IsRun options script steps → AllByRecursion (λ line. replies_in line.number steps ≡ 1) script }
{}

/// Each step leaves less to do where each answer leaves fewer calls, so that a run has no more steps than the work in
/// its script.
pub fn each_run_ends()
    ensures step { (state : ClientState) (step : Step) → IsAlive state → IsFaithful state → IsLegalStep state step → work_left (after state step) < work_left state }
    ensures run { (options : Opts) (script : List Line) (steps : List Step) → AreWithin options → AreRising 0 script → IsRunSoFar options script steps → length steps + work_left (state_after options script steps) ≤ work_left (opening options script) }
{}

/// A line asks for at most so many jobs of its own as its request has calls: a put, a delete and a read have 1, a stat, an
/// open of each kind and the making and the removal of a directory at most 2 for each name of the path, an unlink 1 more, a
/// listing as many more as it may have pages, and a write, an fsync, a close and an await none. A faulty path needs none
/// either.
pub fn calls_are_few()
    ensures run { (options : Opts) (script : List Line) (steps : List Step) → AreWithin options → AreRising 0 script → IsRunSoFar options script steps → AllByRecursion (λ line. jobs_of line.number (state_after options script steps).jobs ≤ calls_left line.request nothing_heard) script }
    ensures falls { (view : View) (request : Request) (heard : Heard) (called : Call) (answer : Brief) → next_of view request heard ≡ Asks called → calls_left request (with_told (told_by (question_of called) answer) heard) < calls_left request heard }
    ensures put { (key : List ℕ) (content : Data) → calls_left (request.Put key content) nothing_heard ≡ 1 }
    ensures stat { (names : List (List ℕ)) → calls_left (request.Stat (Ok names)) nothing_heard ≤ 2 * length names }
    ensures open { (name : ℕ) (names : List (List ℕ)) → calls_left (request.OpenRead name (Ok names)) nothing_heard ≤ 2 * length names }
    ensures open_write { (name : ℕ) (names : List (List ℕ)) → calls_left (request.OpenWrite name (Ok names)) nothing_heard ≤ 2 * length names }
    ensures open_truncate { (name : ℕ) (names : List (List ℕ)) → calls_left (request.OpenTruncate name (Ok names)) nothing_heard ≤ 2 * length names }
    ensures make { (names : List (List ℕ)) → calls_left (request.MakeDir (Ok names)) nothing_heard ≤ 2 * length names }
    ensures remove { (names : List (List ℕ)) → calls_left (request.RemoveDir (Ok names)) nothing_heard ≤ 2 * length names }
    ensures unlink { (names : List (List ℕ)) → calls_left (request.Unlink (Ok names)) nothing_heard ≤ 2 * length names + 1 }
    ensures list { (names : List (List ℕ)) → calls_left (request.List (Ok names)) nothing_heard ≤ 2 * length names + max_pages }
    ensures read { (name offset count : ℕ) → calls_left (request.Read name offset count) nothing_heard ≡ 1 }
    ensures delete { (key : List ℕ) → calls_left (request.Delete key) nothing_heard ≡ 1 }
    ensures faulty { (why : PathFault) → calls_left (request.Stat (Err why)) nothing_heard ≡ 0 }
    ensures faulty_open { (name : ℕ) (why : PathFault) → calls_left (request.OpenRead name (Err why)) nothing_heard ≡ 0 }
    ensures faulty_open_write { (name : ℕ) (why : PathFault) → calls_left (request.OpenWrite name (Err why)) nothing_heard ≡ 0 }
    ensures faulty_open_truncate { (name : ℕ) (why : PathFault) → calls_left (request.OpenTruncate name (Err why)) nothing_heard ≡ 0 }
    ensures faulty_make { (why : PathFault) → calls_left (request.MakeDir (Err why)) nothing_heard ≡ 0 }
    ensures faulty_remove { (why : PathFault) → calls_left (request.RemoveDir (Err why)) nothing_heard ≡ 0 }
    ensures faulty_unlink { (why : PathFault) → calls_left (request.Unlink (Err why)) nothing_heard ≡ 0 }
    ensures faulty_list { (why : PathFault) → calls_left (request.List (Err why)) nothing_heard ≡ 0 }
    ensures writes { (name offset : ℕ) (content : Data) → calls_left (request.Write name offset content) nothing_heard ≡ 0 }
    ensures syncs { (name : ℕ) → calls_left (request.Sync name) nothing_heard ≡ 0 }
    ensures closes { (name : ℕ) → calls_left (request.Close name) nothing_heard ≡ 0 }
    ensures waits { calls_left request.Await nothing_heard ≡ 0 }
{}

/// All jobs of a writer so far, those that are gone too, are its parts, numbered from 1 to their count, and at most one
/// each that makes its upload, that makes its object and that gives it up.
pub fn writers_ask_once()
    ensures { (options : Opts) (script : List Line) (steps : List Step) (opened : ℕ) → AreWithin options → AreRising 0 script → IsRunSoFar options script steps → AsksOnce opened (state_after options script steps).jobs }
{}
