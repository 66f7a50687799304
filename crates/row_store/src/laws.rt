// What holds of every pair of images.
ghost use Rattle.row_store.specs.Rows.{HasOneMap};

/// A pair of images has the rows of one map at most. It takes no memory.
pub fn one_map()
    ensures { HasOneMap }
{}
