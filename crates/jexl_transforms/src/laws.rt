// What holds of the definitions alone.
ghost use Rattle.jexl_transforms.specs.Laws.{NeedsNoAttributes};

/// What `versionCompare`, `date` and `bucketSample` mean doesn't depend on the attributes.
pub fn some_need_no_attributes()
    ensures { NeedsNoAttributes }
{}
