//! Ids, replicas and tokens.
use op_ids::{OpId, ReplicaId, Token};
use std::test::Fail;
use uuid::Uuid;

/// Whether the first id of a replica is below the second one of a lower replica.
fn are_ordered() -> Option<bool> {
    let low = ReplicaId::read([1; 16])?;
    let high = ReplicaId::read([2; 16])?;
    let first = OpId::try_new(1, high)?;
    let second = OpId::try_new(2, low)?;
    let next = first.next()?;
    Some(first < second && first.next() == OpId::try_new(2, high) && second < next)
}

#[test]
fn ids_are_ordered_by_counter_first(rt: HostRuntime) {
    assert!(rt; are_ordered() == Some(true));
}

#[test]
fn counters_end_at_the_last(rt: HostRuntime) -> Result<(), Fail> {
    let replica = ReplicaId::read([1; 16]).ok_or("nil")?;
    let last = OpId::try_new(281_474_976_710_655, replica).ok_or("counter")?;
    assert!(rt; last.next().is_none());
    assert!(rt; OpId::try_new(281_474_976_710_656, replica).is_none());
    assert!(rt; OpId::try_new(0, replica).is_none());
    Ok(())
}

/// Whether a UUID names the replica of these bytes, and is named by it.
fn names_replica(id: Uuid, bytes: [u8; 16]) -> bool {
    match ReplicaId::from_uuid(id) {
        Some(replica) => {
            replica.bytes() == bytes
                && ReplicaId::read(bytes) == Some(replica)
                && Uuid::from_bytes(replica.bytes()) == id
        }
        None => false,
    }
}

/// Whether it names the token of these bytes.
fn names_token(id: Uuid, bytes: [u8; 16]) -> bool {
    match Token::from_uuid(id) {
        Some(token) => token.bytes() == bytes && Token::read(bytes) == Some(token),
        None => false,
    }
}

#[test]
fn a_uuid_names_a_replica_or_a_token(rt: HostRuntime) -> Result<(), Fail> {
    let id = Uuid::parse_str("00000000-0000-4000-8000-000000000001")?;
    let bytes = [0, 0, 0, 0, 0, 0, 0x40, 0, 0x80, 0, 0, 0, 0, 0, 0, 1];
    assert!(rt; names_replica(id, bytes));
    assert!(rt; names_token(id, bytes));
    Ok(())
}

#[test]
fn nil_names_nothing(rt: HostRuntime) {
    assert!(rt; ReplicaId::read([0; 16]).is_none());
    assert!(rt; ReplicaId::from_uuid(Uuid::nil()).is_none());
    assert!(rt; Token::from_uuid(Uuid::nil()).is_none());
}
