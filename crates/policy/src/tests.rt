// The policies on rows of their tables.
use crate::action::{GetAction, HeadAction, PutAction};
use crate::get_policy::{DefaultGetPolicy, FixedGetPolicy, GetPolicy};
use crate::put_policy::{CachePutConfig, DefaultPutPolicy, FixedPutPolicy, PutPolicy};
use records::{ObjectStoreCallTag, SstType, TableStoreKind};

fn compacted(kind: TableStoreKind) -> ObjectStoreCallTag {
    ObjectStoreCallTag::new(kind, SstType::Compacted)
}

#[test]
fn default_get_policy(rt: HostRuntime) {
    let policy = DefaultGetPolicy;
    let mut main = compacted(TableStoreKind::Main);
    assert_eq!(rt; policy.get_action(None), GetAction::Bypass);
    assert_eq!(rt; policy.get_action(Some(main)), GetAction::ReadThrough);
    assert_eq!(rt; policy.head_action(Some(main)), HeadAction::ReadThrough);
    main.retry = true;
    assert_eq!(rt; policy.get_action(Some(main)), GetAction::Refetch);
    let compactor = compacted(TableStoreKind::Compactor);
    assert_eq!(rt; policy.get_action(Some(compactor)), GetAction::Bypass);
    assert_eq!(rt; policy.head_action(Some(compactor)), HeadAction::Probe);
    let log = ObjectStoreCallTag::new(TableStoreKind::Main, SstType::Wal);
    assert_eq!(rt; policy.get_action(Some(log)), GetAction::Bypass);
    assert_eq!(rt; policy.head_action(Some(log)), HeadAction::Bypass);
}

#[test]
fn default_put_policy(rt: HostRuntime) {
    let main = Some(compacted(TableStoreKind::Main));
    let mut put = CachePutConfig::default();
    assert_eq!(rt; DefaultPutPolicy { put }.put_action(main), PutAction::Skip);
    put.cache_on_flush = true;
    let policy = DefaultPutPolicy { put };
    assert_eq!(rt; policy.put_action(main), PutAction::Cache);
    assert_eq!(rt; policy.put_action(None), PutAction::Skip);
    let compactor = Some(compacted(TableStoreKind::Compactor));
    assert_eq!(rt; policy.put_action(compactor), PutAction::Skip);
    put.cache_on_compaction = true;
    assert_eq!(rt;
        DefaultPutPolicy { put }.put_action(compactor),
        PutAction::Cache
    );
}

#[test]
fn fixed_get_policy(rt: HostRuntime) {
    let policy = FixedGetPolicy {
        get: GetAction::ReadThrough,
        head: HeadAction::Probe,
    };
    assert_eq!(rt; policy.get_action(None), GetAction::ReadThrough);
    assert_eq!(rt; policy.head_action(None), HeadAction::Probe);
}

#[test]
fn fixed_put_policy(rt: HostRuntime) {
    let policy = FixedPutPolicy {
        put: PutAction::Cache,
    };
    assert_eq!(rt; policy.put_action(None), PutAction::Cache);
}
