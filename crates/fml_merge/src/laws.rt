// Laws of the definitions alone.
ghost use Rattle.fml_types.specs.declared.manifest.TypeTable.{TypeTable};
ghost use Rattle.fml_merge.specs.Laws.{ValuesHaveTypes, FeaturesHaveTypes, ZerosByType, LayingByType};

/// Over sound types the zero of a type has the type, and so has what is laid over a value of the
/// type; so have the default of a feature and what is laid over a value of it. It takes no memory.
pub fn values_have_types()
    ensures of_types { ValuesHaveTypes }
    ensures of_features { FeaturesHaveTypes }
{}

/// The zero of each kind of type; of an object, over a grounded table, each field's default laid over
/// the zero of its type. It takes no memory.
pub fn zeros_by_type()
    ensures { (types : TypeTable) → ZerosByType types }
{}

/// What a tree gives that is laid over a value of each kind of type. It takes no memory.
pub fn laying_by_type()
    ensures { (types : TypeTable) → LayingByType types }
{}
