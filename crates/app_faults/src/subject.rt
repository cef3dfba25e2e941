// What a fault is of, and how a sentence names it.
use std::fmt;

/// What a fault is of.
#[derive(Clone, Copy, Debug, PartialEq, Eq)]
pub enum Subject {
    /// A folder that a command cares for.
    Folder,
    /// A folder that is served.
    ServedFolder,
    /// A document in an etcd that a command cares for.
    Document,
    /// A document in an etcd that is served.
    ServedDocument,
}

/// A folder or a document, as a part of a sentence.
#[derive(Clone, Copy, Debug)]
pub(crate) struct PlaceName<'a> {
    /// What it is.
    pub(crate) subject: Subject,
    /// Its path, or its name.
    pub(crate) name: &'a str,
}

impl fmt::Display for PlaceName<'_> {
    ghost use Rattle.std.specs.Prelude.{Some};
    ghost use Rattle.app_faults.specs.Subjects.{subject_text};

    ghost output = { λ told. Some (subject_text told.subject told.name.now) };

    fn fmt<W: fmt::Write>(&self, f: &mut fmt::Formatter<W>) -> fmt::Result {
        let PlaceName { subject, name } = *self;
        match subject {
            Subject::Folder | Subject::ServedFolder => write!(f, "the folder {name}"),
            Subject::Document | Subject::ServedDocument => write!(f, "the document {name}"),
        }
    }
}

/// The document of a folder, or a document, as a part of a sentence.
#[derive(Clone, Copy, Debug)]
pub(crate) struct Holder<'a> {
    /// What it is.
    pub(crate) subject: Subject,
    /// Its path, or its name.
    pub(crate) name: &'a str,
}

impl fmt::Display for Holder<'_> {
    ghost use Rattle.std.specs.Prelude.{Some};
    ghost use Rattle.app_faults.specs.Subjects.{holder_text};

    ghost output = { λ told. Some (holder_text told.subject told.name.now) };

    fn fmt<W: fmt::Write>(&self, f: &mut fmt::Formatter<W>) -> fmt::Result {
        let Holder { subject, name } = *self;
        match subject {
            Subject::Folder | Subject::ServedFolder | Subject::ServedDocument => write!(
                f,
                "the document in {name}"
            ),
            Subject::Document => write!(f, "the document {name}"),
        }
    }
}

/// What to do about damage, as the end of a sentence.
#[derive(Clone, Copy, Debug)]
pub(crate) struct Remedy(pub(crate) Subject);

impl fmt::Display for Remedy {
    ghost use Rattle.std.specs.Prelude.{Some};
    ghost use Rattle.app_faults.specs.Subjects.{remedy_text};

    ghost output = { λ told. Some (remedy_text told.0) };

    fn fmt<W: fmt::Write>(&self, f: &mut fmt::Formatter<W>) -> fmt::Result {
        let Remedy(subject) = *self;
        match subject {
            Subject::Folder | Subject::ServedFolder | Subject::ServedDocument => write!(
                f,
                ": put a backup in its place"
            ),
            Subject::Document => write!(f, ""),
        }
    }
}

/// What to do about a place that changes, as the end of a sentence.
#[derive(Clone, Copy, Debug)]
pub(crate) struct Retry(pub(crate) Subject);

impl fmt::Display for Retry {
    ghost use Rattle.std.specs.Prelude.{Some};
    ghost use Rattle.app_faults.specs.Subjects.{retry_text};

    ghost output = { λ told. Some (retry_text told.0) };

    fn fmt<W: fmt::Write>(&self, f: &mut fmt::Formatter<W>) -> fmt::Result {
        let Retry(subject) = *self;
        match subject {
            Subject::Folder | Subject::ServedFolder => write!(
                f,
                ": try again while fewer edits are made"
            ),
            Subject::Document | Subject::ServedDocument => write!(f, ""),
        }
    }
}
