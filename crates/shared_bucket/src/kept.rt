ghost use Rattle.std.specs.Prelude.{◌≡◌, None, length};
ghost use Rattle.bucket_model.specs.Answers.{MayBeMade};
ghost use Rattle.bucket_model.specs.History.{IsLegalHistory};
ghost use Rattle.shared_bucket.specs.Kept.{Goes, IsKept, log_of};

use bucket_model::{Answer, Call, Logged};
use std::marker::Model;
use store_trait::Store;
use turn_lock::Stands;

/// A store as it lies in the lock. It is honest and alone, and stands for the entries of its history.
pub struct Kept<S: Store> {
    store: S,
}

impl<S: Store> Model for Kept<S> {
    ghost use Rattle.shared_bucket.specs.Kept.{IsKept};

    ghost Value = { S };

    ghost coded = { S.code };

    ghost view = { λ a. a.store };

    ghost invariant = { λ a. IsKept (S.history a.store) (S.is_honest a.store) (S.is_alone a.store) };
}

impl<S: Store> Stands for Kept<S> {
    type Entry = Logged;

    type Ground = ();

    ghost entries = { λ store. log_of (S.history store) };

    ghost ground_of = { λ _. tt };

    ghost closes = { λ _ _. None };
}

impl<S: Store> Kept<S> {
    // Keeps a store, which has to be honest and alone.
    pub(crate) fn new(store: S) -> Self
        requires { IsKept (S.history store) (S.is_honest store) (S.is_alone store) }
        ensures kept { result ≡ store }
        ensures legal { IsLegalHistory (log_of (S.history store)) }
    {
        let kept = Kept { store };
        kept
    }

    // How many entries the history has.
    pub(crate) fn mark(&self) -> u64
        ensures mark { result ≡ length (log_of (S.history self.now)) }
        ensures legal { IsLegalHistory (log_of (S.history self.now)) }
    {
        self.store.mark()
    }

    // Makes a call of the store.
    pub(crate) fn call(&mut self, call: Call) -> (u64, Answer)
        requires { MayBeMade call }
        ensures { Goes call result.0 result.1 (log_of (S.history self.old)) (log_of (S.history self.new)) }
    {
        self.store.call(call)
    }

    // Gives the store back.
    pub(crate) fn into_store(self) -> S
        ensures kept { IsKept (S.history result) (S.is_honest result) (S.is_alone result) }
        ensures same { result ≡ self }
    {
        let Kept { store } = self;
        store
    }
}
