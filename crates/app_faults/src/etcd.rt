// What it means that an etcd doesn't do what it is asked.
ghost use Rattle.std.specs.Prelude.{◌≡◌};
ghost use Rattle.app_faults.specs.Errors.{fault_of_cause, fault_of_etcd, of_document};

use crate::fault::Fault;
use canvas_etcd::EtcdError;
use etcd_store::StoreError;

/// The fault that a call is that the etcd didn't do, for this reason if one is known.
pub fn fault_of_cause(why: Option<StoreError>) -> Fault
    ensures { result ≡ fault_of_cause why }
{
    match why {
        Some(error) => Fault::from(error),
        None => Fault::NoStore {
            why: StoreError::Unanswered,
        },
    }
}

/// The fault that a document in an etcd is that isn't taken over, whose store failed last for this reason.
pub fn fault_of_etcd(error: EtcdError, why: Option<StoreError>) -> Fault
    ensures { result ≡ fault_of_etcd why error }
{
    match error {
        EtcdError::InUse => Fault::InUse,
        EtcdError::Device => fault_of_cause(why),
        EtcdError::Memory => Fault::Memory,
    }
}

/// What a fault of a folder is if the document is in an etcd, whose store failed last for this reason: no other device can fail there, and no
/// sum is beside its identity.
pub fn of_document(fault: Fault, why: Option<StoreError>) -> Fault
    ensures { result ≡ of_document why fault }
{
    match fault {
        Fault::Device => fault_of_cause(why),
        Fault::ChangedIdentity => Fault::Identity,
        other => other,
    }
}
