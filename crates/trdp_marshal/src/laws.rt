//! Laws of items and their bytes, which hold for every registry. The functions do nothing when
//! they run: each contract is the law.

ghost use Rattle.trdp_marshal.specs.Laws.{OneSpelling, OneItem};
ghost use Rattle.trdp_marshal.specs.Laws.{SpelledIsComputed, ComputedIsSpelled};
ghost use Rattle.trdp_marshal.specs.Laws.{SpelledIsRead, ReadIsSpelled, FittingIsFit};
ghost use Rattle.trdp_marshal.specs.Laws.{FixedIsLength, ZeroIsSpelled};

/// One item of a dataset is spelled by at most one list of bytes.
#[tactic(auto, using(crate::proofs::SpellingLemmas::one_spelling))]
pub fn one_spelling()
    ensures { OneSpelling }
{}

/// One list of bytes is spelled by at most one item of a dataset.
#[tactic(auto, using(crate::proofs::SpellingLemmas::one_item))]
pub fn one_item()
    ensures { OneItem }
{}

/// What `encode` computes is what an item is spelled by.
#[tactic(auto, using(crate::proofs::SpellingLemmas::spelled, crate::proofs::SpellingLemmas::spells))]
pub fn spelling_is_spelled()
    ensures computed { SpelledIsComputed }
    ensures spelled { ComputedIsSpelled }
{}

/// What `decode` computes is the item that spells the bytes.
#[tactic(auto, using(crate::proofs::SpellingLemmas::spelled_reads, crate::proofs::SpellingLemmas::read_spells))]
pub fn reading_is_spelled()
    ensures computed { SpelledIsRead }
    ensures spelled { ReadIsSpelled }
{}

/// What `fits` computes is whether the bytes are a payload of the dataset.
#[tactic(auto, using(crate::proofs::SpellingLemmas::fitting))]
pub fn fitting_is_fit()
    ensures { FittingIsFit }
{}

/// Where a registry says how many bytes each value of a dataset has, its values are spelled by the
/// lists of that many bytes, and by no others.
#[tactic(auto, using(crate::proofs::FixedLemmas::fixed_is_length))]
pub fn fixed_size_is_length()
    ensures { FixedIsLength }
{}

/// The zero value of a dataset, whose numbers are all 0 and whose counted arrays are empty, is
/// spelled by as many zero bytes as the registry says.
#[tactic(auto, using(crate::proofs::ZeroLemmas::zero_spelled))]
pub fn zero_is_spelled()
    ensures { ZeroIsSpelled }
{}
