//! A law of the errors, stated by the contract of a function with an empty body.

ghost use Rattle.oneshot_errors.specs.Equality.{AgreesWithHashing};

use crate::{RecvError, RecvTimeoutError, TryRecvError};
use std::hash::Hash;

/// Two errors of one type are equal if and only if they are the same value, and if and only if they write
/// the same into every hasher.
pub fn equality_agrees_with_hashing()
    ensures recv { AgreesWithHashing ⟦<RecvError as PartialEq>⟧.eq ⟦<RecvError as Hash>⟧.hash_input }
    ensures recv_timeout { AgreesWithHashing ⟦<RecvTimeoutError as PartialEq>⟧.eq
        ⟦<RecvTimeoutError as Hash>⟧.hash_input }
    ensures try_recv { AgreesWithHashing ⟦<TryRecvError as PartialEq>⟧.eq
        ⟦<TryRecvError as Hash>⟧.hash_input }
{}
