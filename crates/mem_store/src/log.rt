ghost use Rattle.std.specs.Prelude.{◌≡◌, ◌<◌, ◌∷◌, [], ◌++◌, false, vec_len, vec_capacity};
ghost use Rattle.bucket_model.specs.Answers.{brief_of, brings_page};
ghost use Rattle.mem_store.specs.Served.{entry_of};

use bucket_model::{Answer, Brief, Call, HEntry, Logged, add_entry};

/// The answer in brief, where it brings no page. Takes no memory.
pub fn plain_brief(answer: &Answer) -> Brief
    requires { brings_page answer.now ≡ false }
    ensures { result ≡ brief_of answer.now }
{
    match answer.brief() {
        Ok(brief) => brief,
        Err(_) => unreachable!(),
    }
}

/// Adds the entry of an answered call, for which the log has room.
pub fn log_answered(log: &mut Vec<Logged>, call: Call, answer: Brief)
    requires { vec_len log.old < vec_capacity log.old }
    ensures { log.new.items ≡ log.old.items ++ entry_of call answer ∷ [] }
{
    let made = answer.made();
    let entry = HEntry {
        call,
        answer,
        took: true,
    };
    add_entry(log, entry, made);
}
