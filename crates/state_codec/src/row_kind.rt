// The kinds of a state's rows.
ghost use Rattle.std.specs.Prelude.{◌≡◌};
ghost use Rattle.state_codec.specs.Kinds.{letter};

/// A kind of a state's rows. The keys of its rows begin with its letter.
#[derive(Clone, Copy)]
pub(crate) enum RowKind {
    /// A feature that recipes of one kind may share.
    Coenrolling,
    /// The client's identifier.
    Id,
    /// A recipe of the last apply.
    Live,
    /// A recipe that was fetched since.
    Pending,
    /// A slug that the user opted out of.
    OptedOut,
    /// Which kinds of recipes the client takes part in.
    Participation,
    /// Whether recipes are pending.
    IsPending,
    /// What the client is to a recipe.
    Status,
    /// When the store was made.
    Installed,
    /// When the version last changed.
    Updated,
    /// The application's version.
    Version,
}

impl RowKind {
    /// The byte that begins the keys of these rows.
    pub(crate) fn letter(self) -> u8
        ensures { result ≡ letter self }
    {
        match self {
            RowKind::Coenrolling => b'c',
            RowKind::Id => b'i',
            RowKind::Live => b'l',
            RowKind::Pending => b'n',
            RowKind::OptedOut => b'o',
            RowKind::Participation => b'p',
            RowKind::IsPending => b'q',
            RowKind::Status => b'r',
            RowKind::Installed => b't',
            RowKind::Updated => b'u',
            RowKind::Version => b'v',
        }
    }
}
