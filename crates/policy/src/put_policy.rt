// Which puts and uploads are cached.
ghost use Rattle.std.specs.Prelude.{◌≡◌, Option};
ghost use Rattle.records.specs.declared.tag.ObjectStoreCallTag.{ObjectStoreCallTag};
ghost use Rattle.policy.specs.declared.action.PutAction.{PutAction};
ghost use Rattle.policy.specs.Actions.{default_puts, fixed_puts};

use crate::action::PutAction;
use records::{ObjectStoreCallTag, SstType, TableStoreKind};

// A policy stands for a function of the tag.
pub trait PutPolicy {
    ghost puts: { Self → Option ObjectStoreCallTag → PutAction };

    fn put_action(&self, tag: Option<ObjectStoreCallTag>) -> PutAction
        ensures { result ≡ puts self.now tag };
}

// Which writers' compacted objects are cached; none by default.
#[derive(Clone, Copy, Debug, Default, PartialEq, Eq)]
pub struct CachePutConfig {
    pub cache_on_flush: bool,
    pub cache_on_compaction: bool,
}

// The table of docs/RULES.md. A tag is taken apart by `let else`, the form that docs/DECISIONS.md names for it.
#[derive(Clone, Copy, Debug, Default, PartialEq, Eq)]
pub struct DefaultPutPolicy {
    pub put: CachePutConfig,
}

impl PutPolicy for DefaultPutPolicy {
    ghost puts = { λ p. default_puts p.put };

    fn put_action(&self, tag: Option<ObjectStoreCallTag>) -> PutAction {
        // manifests and the like
        let Some(tag) = tag else {
            return PutAction::Skip;
        };
        match (tag.kind, tag.sst_type) {
            // the primary store writes by flushes
            (TableStoreKind::Main, SstType::Compacted) if self.put.cache_on_flush => {
                PutAction::Cache
            }
            (TableStoreKind::Compactor, SstType::Compacted) if self.put.cache_on_compaction => {
                PutAction::Cache
            }
            _ => PutAction::Skip,
        }
    }
}

// One set action, whatever the tag.
#[derive(Clone, Copy, Debug, PartialEq, Eq)]
pub struct FixedPutPolicy {
    pub put: PutAction,
}

impl PutPolicy for FixedPutPolicy {
    ghost puts = { fixed_puts };

    fn put_action(&self, _tag: Option<ObjectStoreCallTag>) -> PutAction {
        self.put
    }
}
