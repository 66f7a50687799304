// What holds of every pair of images.
ghost use Rattle.pair_store.specs.Pair.{HasOneList};

/// A pair of images has one list of payloads at most. It takes no memory.
#[tactic(auto, using(crate::proofs::Unique::one_list))]
pub fn one_list()
    ensures { HasOneList }
{}
