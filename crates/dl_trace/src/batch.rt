//! Frames that are stored together.

ghost use Rattle.std.specs.Prelude.{◌≡◌, ◌≤◌, ◌<◌, ◌++◌, ◌∷◌, [], IfOk, length};
ghost use Rattle.dl_bytes.specs.Limits.{frame_limit};
ghost use Rattle.dl_model.specs.Frames.{stored};
ghost use Rattle.dl_trace.specs.Batch.{AreSizes, parted};

use arrayvec::ArrayVec;
use dl_bytes::{BATCH_LIMIT, FRAME_LIMIT, Id, Moment, OutOfMemory};
use dl_headers::storage_header;
use std::alloc::Global;
use std::marker::Model;

/// The most bytes of a frame behind its storage header.
pub const STORED_LIMIT: usize = FRAME_LIMIT + 16;

/// Frames behind their storage headers, at most 64, one behind the other. It takes all its memory when it is made.
#[derive(Drop)]
pub struct StoredBatch {
    bytes: Vec<u8>,
    sizes: ArrayVec<u16, BATCH_LIMIT>,
}

impl Model for StoredBatch {
    ghost use Rattle.std.specs.Prelude.{List, ℕ, vec_capacity};
    ghost use Rattle.dl_trace.specs.Batch.{IsBatch, parted};

    ghost Value = { List (List ℕ) };

    ghost view = { λ b. parted b.sizes.items b.bytes.items };

    ghost invariant = { λ b. IsBatch b.sizes.items b.bytes.items (vec_capacity b.bytes) };
}

impl StoredBatch {
    /// A batch without frames.
    pub fn make(alloc: Global) -> Result<StoredBatch, OutOfMemory>
        ensures { IfOk result (λ batch. batch ≡ []) }
    {
        Ok(StoredBatch {
            bytes: Vec::with_capacity(alloc, BATCH_LIMIT * STORED_LIMIT)?,
            sizes: ArrayVec::new(),
        })
    }

    /// Adds a frame behind a storage header, which says when it came and which control unit stored it.
    pub fn push(&mut self, ecu: Id, moment: Moment, frame: &[u8])
        requires some { 0 < length frame.now }
        requires size { length frame.now ≤ frame_limit }
        requires few { length self.old < 64 }
        ensures { self.new ≡ self.old ++ stored ecu moment frame.now ∷ [] }
    {
        let header = storage_header(ecu, moment);
        self.bytes.extend_from_slice(&header).unwrap();
        self.bytes.extend_from_slice(frame).unwrap();
        self.sizes.push((header.len() + frame.len()) as u16);
    }

    /// How many frames there are.
    pub fn len(&self) -> usize
        ensures { result ≡ length self.now }
    {
        self.sizes.len()
    }

    /// Takes all frames out.
    pub fn clear(&mut self)
        ensures { self.new ≡ [] }
    {
        self.bytes.clear();
        self.sizes.clear();
    }

    /// The sizes of the frames, and their bytes one behind the other.
    pub(crate) fn parts(&self) -> (&[u16], &[u8])
        ensures frames { self.now ≡ parted result.0.now result.1.now }
        ensures sizes { AreSizes result.0.now result.1.now }
        ensures few { length result.0.now ≤ 64 }
    {
        (self.sizes.as_slice(), self.bytes.as_slice())
    }
}
