ghost use Rattle.std.specs.Prelude.{◌≡◌};
ghost use Rattle.bucket_model.specs.History.{IsChange};
ghost use Rattle.fault_store.specs.Change.{call_of};

use bucket_model::Call;
use bytes::Bytes;
use mp_types::Key;

/// A call that changes an object.
#[derive(Drop)]
pub enum Change {
    Delete { key: Key },
    Put { key: Key, bytes: Bytes },
}

impl Change {
    /// The change of a call that is one.
    pub fn from_call(call: Call) -> Self
        requires { IsChange call }
        ensures { call_of result ≡ call }
    {
        match call {
            Call::Delete { key } => Change::Delete { key },
            Call::Put { key, bytes } => Change::Put { key, bytes },
            _ => unreachable!(),
        }
    }

    /// The call that makes this change.
    pub fn into_call(self) -> Call
        ensures { result ≡ call_of self }
    {
        match self {
            Change::Delete { key } => Call::Delete { key },
            Change::Put { key, bytes } => Call::Put { key, bytes },
        }
    }
}
