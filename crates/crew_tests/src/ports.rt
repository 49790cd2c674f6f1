// A port whose puts follow a script, and which is mended. It tells nothing of its calls.
use channel_face::{Face, FaceRefused, MendFace, OpenCause, PutFace, PutRefused};
use event_core::Batch;
use flume_host::Steps;
use std::sync::ledger::Ledger;

/// A port that answers by a script.
#[derive(Drop)]
pub struct ScriptPort {
    /// The put of this number is left in doubt, and breaks the channel.
    pub doubtful: u64,
    /// How many puts were made while it was not broken.
    pub puts: u64,
    /// The channel is broken.
    pub broken: bool,
    /// How many mends of the broken channel are refused.
    pub refuses: u64,
    /// How many mends reopened it.
    pub mends: u64,
}

impl Face for ScriptPort {
    ghost own = { λ _ _ _ _. ⊥ };

    ghost saw = { λ _ _ _. ⊥ };

    ghost seen = { λ _. 0 };

    ghost kept = { λ _ _. Unit {0} };

    ghost kept_none = { λ _. tt };

    ghost kept_then = { λ _ _ _ _ _. tt };
}

impl PutFace for ScriptPort {
    fn put_batch(&mut self, _batch: &Batch, _picked: &[u32]) -> Result<u64, FaceRefused> {
        if self.broken {
            return Err(FaceRefused::Put(PutRefused::Broken));
        }
        self.puts = self.puts.saturating_add(1);
        if self.puts == self.doubtful {
            self.broken = true;
            return Err(FaceRefused::InDoubt);
        }
        Ok(self.puts)
    }
}

impl MendFace for ScriptPort {
    ghost on_disk = { λ _. Unit {0} };

    fn mend<L: Ledger>(&mut self, _steps: &mut Steps<L>) -> Result<bool, OpenCause> {
        if !self.broken {
            return Ok(false);
        }
        if self.refuses > 0 {
            self.refuses -= 1;
            return Err(OpenCause::DiskFault);
        }
        self.broken = false;
        self.mends = self.mends.saturating_add(1);
        Ok(true)
    }

    fn size(&mut self) -> u64 {
        0
    }
}
