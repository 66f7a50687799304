// A batch that is ready to be committed.
use gate_journal::Frame;
use row_batches::Batch;
use std::marker::Model;

/// A batch that is ready to be committed, with what is written of it: its bytes, or those of the whole map after it exactly
/// where a checkpoint is wanted.
#[derive(Drop)]
pub struct Ready {
    pub(crate) batch: Batch,
    pub(crate) frame: Frame,
    pub(crate) is_whole: bool,
}

impl Model for Ready {
    ghost use Rattle.row_store.specs.Ready.{ReadyRows};

    ghost Value = { ReadyRows };

    ghost view = { λ r. record { batch = r.batch; payload = r.frame; is_whole = r.is_whole } };
}
