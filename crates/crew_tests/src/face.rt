// A face over a channel in memory, which needs no mend. It tells nothing of its calls.
use channel_face::{Channel, Face, FaceRefused, MendFace, OpenCause, OwnFace, TakeFace, TakeTxn};
use event_core::Event;
use flume_host::Steps;
use memory_channel::MemoryChannel;
use std::sync::ledger::Ledger;

/// A face over a channel in memory, which needs no mend.
#[derive(Drop)]
pub struct SilentFace {
    pub face: OwnFace<MemoryChannel>,
}

impl Face for SilentFace {
    ghost own = { λ _ _ _ _. ⊥ };

    ghost saw = { λ _ _ _. ⊥ };

    ghost seen = { λ _. 0 };

    ghost kept = { λ _ _. Unit {0} };

    ghost kept_none = { λ _. tt };

    ghost kept_then = { λ _ _ _ _ _. tt };
}

impl TakeFace for SilentFace {
    fn begin(&mut self) -> Result<TakeTxn, FaceRefused> {
        self.face.begin()
    }

    fn take(&mut self, txn: &mut TakeTxn) -> Result<Option<Event>, FaceRefused> {
        self.face.take(txn)
    }

    fn commit(&mut self, txn: TakeTxn) -> Result<(), FaceRefused> {
        self.face.commit(txn)
    }

    fn rollback(&mut self, txn: TakeTxn) {
        self.face.rollback(txn)
    }
}

impl MendFace for SilentFace {
    ghost on_disk = { λ _. Unit {0} };

    fn mend<L: Ledger>(&mut self, _steps: &mut Steps<L>) -> Result<bool, OpenCause> {
        Ok(false)
    }

    fn size(&mut self) -> u64 {
        self.face.channel.size()
    }
}
