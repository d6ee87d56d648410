// What follows of a run of commands.
ghost use Rattle.std.specs.Prelude.{ℕ, List};
ghost use Rattle.blob_device.specs.Timeline.{Timeline};
ghost use Rattle.archives.specs.Changes.{Asked, Replied};
ghost use Rattle.archives.specs.Shown.{filing_for};
ghost use Rattle.archive_service.specs.RunLaws.{IsServed, RunLaws};
ghost use Rattle.archive_service.specs.declared.replies.End.{End};

use archives::{Translator, prunable};
use value_codec::{Codec, Key, Seal};

/// What was synced outlasts every crash until a prune or a destroy takes it away; a run without faults and refusals is done, or memory was short; and a run over
/// what a crash left goes on from what was submitted by then. So it is of [`serve`](crate::serve). It does nothing.
pub fn run_laws<T: Translator, K: Key, V: Codec, S: Seal>(_cfg: &prunable::Config<T, V::Cfg>)
    ensures { (old new : Timeline) (commands : List Asked) (marks : List ℕ)
        (faults_old faults_new : ℕ) (replies : List Replied) (end : End)
        (served : IsServed (filing_for K.SIZE S.Seal V.refusal _cfg.now)
        _cfg.now.key_write_buffer _cfg.now.value_write_buffer
        old new commands marks faults_old faults_new replies end)
        → RunLaws (filing_for K.SIZE S.Seal V.refusal _cfg.now)
        _cfg.now.key_write_buffer _cfg.now.value_write_buffer
        old new commands marks faults_old faults_new replies end served }
{}
