//! The lines of a certificate: of which kind each is, and what it says.
ghost use Rattle.std.specs.Prelude.{◌≡◌};
ghost use Rattle.nego_cert.specs.Lines.{followers, keyword};

use crate::CertLine;

/// The kinds of lines.
#[derive(Clone, Copy, Debug, PartialEq, Eq)]
pub(crate) enum Kind {
    Header,
    Merge,
    Iterate,
    Shortcut,
    Close,
    End,
}

/// What a line says.
#[derive(Clone, Copy, Debug, PartialEq, Eq)]
pub(crate) enum Row {
    Header,
    Use(CertLine),
    End,
}

impl Kind {
    /// The first word of a line of this kind.
    pub(crate) fn keyword(self) -> &'static [u8]
        ensures { result.now ≡ keyword self }
    {
        match self {
            Kind::Header => b"certificate",
            Kind::Merge => b"merge",
            Kind::Iterate => b"iterate",
            Kind::Shortcut => b"shortcut",
            Kind::Close => b"close",
            Kind::End => b"end",
        }
    }

    /// The kinds of lines that may follow.
    pub(crate) fn followers(self) -> &'static [Kind]
        ensures { result.now ≡ followers self }
    {
        match self {
            Kind::End => &[],
            _ => &[
                Kind::Merge,
                Kind::Iterate,
                Kind::Shortcut,
                Kind::Close,
                Kind::End,
            ],
        }
    }
}
