//! The data of a body, as it arrives, with the checksum that runs over it.

ghost use Rattle.std.specs.Prelude.{◌≡◌, ◌<◌, [], ◌++◌, length, MatchResult, OnErr};
ghost use Rattle.s3_integrity.specs.Sum.{sum_of, with_bytes};
ghost use Rattle.s3_payloads.specs.Summed.{fault_in, marked};
ghost use Rattle.s3_payloads.specs.Verdict.{trailed_data};

use s3_bodies::{Payload, PayloadBuilder, Sink};
use s3_integrity::{Checksum, ChecksumAlgorithm, ChecksumHasher};
use s3_terms::{Code, NoMemory};
use std::alloc::Global;
use std::marker::Model;

// The data of a body, as it arrives: it is kept, and a checksum of one kind runs along. Contracts see it as that kind, and
// the data so far.
#[derive(Drop)]
pub(crate) struct SummedData {
    algorithm: ChecksumAlgorithm,
    hasher: ChecksumHasher,
    payload: PayloadBuilder,
}

impl Model for SummedData {
    ghost use Rattle.s3_integrity.specs.Hasher.{Holds};
    ghost use Rattle.s3_payloads.specs.Summed.{SummedState};

    ghost Value = { SummedState };

    ghost view = { λ s. record { algorithm = s.algorithm; bytes = s.payload } };

    ghost invariant = { λ s. Holds s.hasher s.algorithm s.payload };
}

impl SummedData {
    // No data yet, of which so many bytes are expected.
    pub(crate) fn new(alloc: Global, algorithm: ChecksumAlgorithm, expected: u64) -> SummedData
        ensures { result ≡ record { algorithm = algorithm; bytes = [] } }
    {
        SummedData {
            algorithm,
            hasher: ChecksumHasher::new(algorithm),
            payload: PayloadBuilder::new(alloc, expected),
        }
    }

    // What is wrong with the data so far, if it is the whole body's and this is the value of its trailer.
    #[tactic(auto, unfolding(crate::specs::Verdict::trailed_data), using(crate::proofs::SummedLemmas::sum_kind))]
    pub(crate) fn fault(&self, value: &[u8]) -> Option<Code>
        ensures { result ≡ fault_in (trailed_data self.now.algorithm value.now self.now.bytes) }
    {
        let Some(sum) = Checksum::read(self.algorithm, value) else {
            return Some(Code::InvalidRequest);
        };
        if self.hasher.is_met(&sum) {
            None
        } else {
            Some(Code::BadDigest)
        }
    }

    // The checksum of the data so far.
    pub(crate) fn sum(&self) -> Checksum
        ensures { result ≡ with_bytes self.now.algorithm (sum_of self.now.algorithm self.now.bytes) }
    {
        self.hasher.sum()
    }

    // The payload of the data, which is moved and not copied.
    pub(crate) fn finish(self) -> Payload
        ensures { result ≡ self.bytes }
    {
        self.payload.finish()
    }
}

// Data is copied once, and hashed twice: for its MD5 and for its checksum. What it took is seen behind a mark of its kind,
// so that whoever hands it data knows that this stays.
impl Sink for SummedData {
    ghost taken = { λ s. marked s };

    ghost may_refuse = { λ _ more. 0 < length more };

    fn take(&mut self, data: &[u8]) -> Result<(), NoMemory>
        ensures taken { MatchResult result
            (λ _. marked self.new ≡ marked self.old ++ «data».now)
            (λ _. marked self.new ≡ marked self.old) }
        ensures cause { OnErr result (0 < length «data».now) }
    {
        self.payload.take(data)?;
        self.hasher.update(data);
        Ok(())
    }
}
