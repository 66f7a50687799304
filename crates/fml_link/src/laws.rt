// Laws of the list of files and of the manifest.
ghost use Rattle.fml_link.specs.Laws.{StartWithRoot, AreDistinct, AreClosed, LinkAsIncluded, SingleLinksBack, LinkedLinksBack};

/// The files that `link` reads start with the root, for the asked channel. No name stands twice among
/// them, and each file that one of them includes or imports is one of them, and is read for that
/// channel. It takes no memory.
pub fn list_of_files()
    ensures root { StartWithRoot }
    ensures distinct { AreDistinct }
    ensures closed { AreClosed }
{}

/// Where neither the root nor a file that is included from it imports another, `link` gives the
/// manifest of these files. It takes no memory.
pub fn included_files()
    ensures { LinkAsIncluded }
{}

/// A shelf on which the file of a name is the text of the single file of a well formed manifest, of at
/// most 4,194,304 bytes, links it to that manifest, for the manifest's channel. Each manifest that
/// files link to is well formed, so its single file links back. It takes no memory.
pub fn single_links_back()
    ensures well_formed { SingleLinksBack }
    ensures linked { LinkedLinksBack }
{}
