// Which gets and heads use the cache.
ghost use Rattle.std.specs.Prelude.{◌≡◌, Option};
ghost use Rattle.records.specs.declared.tag.ObjectStoreCallTag.{ObjectStoreCallTag};
ghost use Rattle.policy.specs.declared.action.GetAction.{GetAction};
ghost use Rattle.policy.specs.declared.action.HeadAction.{HeadAction};
ghost use Rattle.policy.specs.Actions.{default_gets, default_heads, fixed_gets, fixed_heads};

use crate::action::{GetAction, HeadAction};
use records::{ObjectStoreCallTag, SstType, TableStoreKind};

// A policy stands for two functions of the tag.
pub trait GetPolicy {
    ghost gets: { Self → Option ObjectStoreCallTag → GetAction };

    ghost heads: { Self → Option ObjectStoreCallTag → HeadAction };

    fn get_action(&self, tag: Option<ObjectStoreCallTag>) -> GetAction
        ensures { result ≡ gets self.now tag };

    fn head_action(&self, tag: Option<ObjectStoreCallTag>) -> HeadAction
        ensures { result ≡ heads self.now tag };
}

// The tables of docs/RULES.md. A tag is taken apart by `let else`, the form that docs/DECISIONS.md names for it.
#[derive(Clone, Copy, Debug, Default, PartialEq, Eq)]
pub struct DefaultGetPolicy;

impl GetPolicy for DefaultGetPolicy {
    ghost gets = { λ _. default_gets };

    ghost heads = { λ _. default_heads };

    fn get_action(&self, tag: Option<ObjectStoreCallTag>) -> GetAction {
        // manifests and the like
        let Some(tag) = tag else {
            return GetAction::Bypass;
        };
        match (tag.kind, tag.sst_type) {
            // a compactor reads each object once, and the log is read at the start
            (TableStoreKind::Compactor | TableStoreKind::GC, _) | (_, SstType::Wal) => {
                GetAction::Bypass
            }
            // what is held may be what was bad
            _ if tag.retry => GetAction::Refetch,
            _ => GetAction::ReadThrough,
        }
    }

    fn head_action(&self, tag: Option<ObjectStoreCallTag>) -> HeadAction {
        let Some(tag) = tag else {
            return HeadAction::Bypass;
        };
        match (tag.kind, tag.sst_type) {
            (TableStoreKind::GC, _) | (_, SstType::Wal) => HeadAction::Bypass,
            // a head that is held without parts would keep a later get from fetching them with the head
            (TableStoreKind::Compactor, SstType::Compacted) => HeadAction::Probe,
            (TableStoreKind::Main | TableStoreKind::Reader, SstType::Compacted) => {
                HeadAction::ReadThrough
            }
        }
    }
}

// One set action each, whatever the tag. Not one type with `FixedPutPolicy`: that has one action, and other names.
#[derive(Clone, Copy, Debug, PartialEq, Eq)]
pub struct FixedGetPolicy {
    pub get: GetAction,
    pub head: HeadAction,
}

impl GetPolicy for FixedGetPolicy {
    ghost gets = { fixed_gets };

    ghost heads = { fixed_heads };

    fn get_action(&self, _tag: Option<ObjectStoreCallTag>) -> GetAction {
        self.get
    }

    fn head_action(&self, _tag: Option<ObjectStoreCallTag>) -> HeadAction {
        self.head
    }
}
