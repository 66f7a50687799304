// Laws of the single file of a manifest.
ghost use Rattle.fml_imports.specs.Laws.{SingleReadsBack, TypesReadBack};

/// The text of a type that a text can spell spells the type. It takes no memory.
pub fn types_read_back()
    ensures { TypesReadBack }
{}

/// The single file of a well formed manifest reads as a module, and that file alone gives the
/// manifest, for the manifest's channel. It takes no memory.
pub fn single_reads_back()
    ensures { SingleReadsBack }
{}
