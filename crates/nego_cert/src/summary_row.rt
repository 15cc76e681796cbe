//! The lines of a summary: of which kind each is, and what a node is of others.
ghost use Rattle.std.specs.Prelude.{◌≡◌};
ghost use Rattle.nego_cert.specs.SummaryLines.{followers, form_words, keyword};

/// The kinds of lines.
#[derive(Clone, Copy, Debug, PartialEq, Eq)]
pub(crate) enum SummaryKind {
    Header,
    Node,
    Final,
    End,
}

/// What a node is of others.
#[derive(Clone, Copy, Debug, PartialEq, Eq)]
pub(crate) enum Form {
    Base,
    Join,
    Then,
    Star,
}

impl SummaryKind {
    /// The first word of a line of this kind.
    pub(crate) fn keyword(self) -> &'static [u8]
        ensures { result.now ≡ keyword self }
    {
        match self {
            SummaryKind::Header => b"summary",
            SummaryKind::Node => b"node",
            SummaryKind::Final => b"final",
            SummaryKind::End => b"end",
        }
    }

    /// The kinds of lines that may follow.
    pub(crate) fn followers(self) -> &'static [SummaryKind]
        ensures { result.now ≡ followers self }
    {
        match self {
            SummaryKind::Header | SummaryKind::Node => &[SummaryKind::Node, SummaryKind::Final],
            SummaryKind::Final => &[SummaryKind::Final, SummaryKind::End],
            SummaryKind::End => &[],
        }
    }
}

impl Form {
    /// How many words the line of such a node has.
    pub(crate) fn words(self) -> usize
        ensures { result ≡ form_words self }
    {
        match self {
            Form::Base | Form::Star => 4,
            Form::Join | Form::Then => 5,
        }
    }
}
