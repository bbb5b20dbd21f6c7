use crate::words::{RowError, Words, number};
use os9_base::name::Name;
use std::alloc::{AllocError, Global};

/// What a walk searches for: a file to read, or one to execute.
#[derive(Clone, Copy, Debug, PartialEq, Eq)]
pub(crate) enum Way {
    Read,
    Execute,
}

impl Way {
    pub(crate) fn is_execute(self) -> bool {
        self == Way::Execute
    }

    fn parse(word: &str) -> Result<Way, RowError> {
        match word {
            "r" => Ok(Way::Read),
            "x" => Ok(Way::Execute),
            _ => Err(RowError::NoSuchWay),
        }
    }
}

/// The bytes that a row writes: byte i is `seed + 37 i + i / 256`, modulo 256.
#[derive(Clone, Copy, Debug, PartialEq, Eq)]
pub(crate) struct Pattern {
    length: u32,
    seed: u8,
}

impl Pattern {
    /// The pattern `LENGTH*SEED`.
    fn parse(word: &str) -> Result<Pattern, RowError> {
        let (length, seed) = word.split_once('*').ok_or(RowError::BadNumber)?;
        Ok(Pattern {
            length: number(length.parse::<u32>().ok())?,
            seed: number(seed.parse::<u8>().ok())?,
        })
    }

    pub(crate) fn bytes(self, alloc: Global) -> Result<Vec<u8>, AllocError> {
        let mut bytes = Vec::new(alloc);
        for i in 0..self.length {
            let sum = u64::from(self.seed) + 37 * u64::from(i) + u64::from(i / 256);
            bytes.push((sum % 256) as u8)?;
        }
        Ok(bytes)
    }
}

/// Bytes of a file: from which place on, and how many.
#[derive(Clone, Copy, Debug, PartialEq, Eq)]
pub(crate) struct Span {
    pub(crate) at: u32,
    pub(crate) count: u32,
}

/// A call on the file or directory to which a path leads.
#[derive(Clone, Copy, Debug, PartialEq, Eq)]
pub(crate) enum FileCall {
    Walk { user: u16, way: Way },
    May { user: u16, mode: u8 },
    Read(Span),
    Write { at: u32, pattern: Pattern },
    Size { size: u32 },
    Attr { attr: u8, user: u16 },
    FdAttr { attr: u8 },
}

impl FileCall {
    /// The user as whom the path is walked: the call's own, or user 0 if it has none.
    pub(crate) fn walker(self) -> u16 {
        match self {
            FileCall::Walk { user, .. } | FileCall::Attr { user, .. } => user,
            _ => 0,
        }
    }

    pub(crate) fn way(self) -> Way {
        match self {
            FileCall::Walk { way, .. } => way,
            _ => Way::Read,
        }
    }

    // The call of this name, if it is a call on a file.
    fn parse(name: &str, words: &mut Words<'_>) -> Result<Option<FileCall>, RowError> {
        let call = match name {
            "walk" => FileCall::Walk {
                user: words.short()?,
                way: Way::parse(words.word()?)?,
            },
            "may" => FileCall::May {
                user: words.short()?,
                mode: words.byte()?,
            },
            "read" => FileCall::Read(Span {
                at: words.long()?,
                count: words.long()?,
            }),
            "write" => FileCall::Write {
                at: words.long()?,
                pattern: Pattern::parse(words.word()?)?,
            },
            "size" => FileCall::Size {
                size: words.long()?,
            },
            "attr" => FileCall::Attr {
                attr: words.attributes()?,
                user: words.short()?,
            },
            "fdattr" => FileCall::FdAttr {
                attr: words.attributes()?,
            },
            _ => return Ok(None),
        };
        Ok(Some(call))
    }
}

/// A call on the last name of a path, in the directory to which the others lead.
#[derive(Clone, Copy, Debug, PartialEq, Eq)]
pub(crate) enum NameCall {
    Create { attr: u8, user: u16, way: Way },
    MakeDir { attr: u8, user: u16 },
    Delete { user: u16, way: Way },
}

impl NameCall {
    pub(crate) fn user(self) -> u16 {
        match self {
            NameCall::Create { user, .. }
            | NameCall::MakeDir { user, .. }
            | NameCall::Delete { user, .. } => user,
        }
    }

    pub(crate) fn way(self) -> Way {
        match self {
            NameCall::Create { way, .. } | NameCall::Delete { way, .. } => way,
            NameCall::MakeDir { .. } => Way::Read,
        }
    }

    fn parse(name: &str, words: &mut Words<'_>) -> Result<NameCall, RowError> {
        match name {
            "create" => Ok(NameCall::Create {
                attr: words.attributes()?,
                user: words.short()?,
                way: Way::parse(words.word()?)?,
            }),
            "mkdir" => Ok(NameCall::MakeDir {
                attr: words.attributes()?,
                user: words.short()?,
            }),
            "delete" => Ok(NameCall::Delete {
                user: words.short()?,
                way: Way::parse(words.word()?)?,
            }),
            _ => Err(RowError::NoSuchCall),
        }
    }
}

/// A call on a file, and the path that leads to it.
#[derive(Debug, Drop)]
pub(crate) struct CallOnFile {
    pub(crate) path: Vec<Name>,
    pub(crate) call: FileCall,
}

/// A call on a name, and the path that ends with it.
#[derive(Debug, Drop)]
pub(crate) struct CallOnName {
    pub(crate) path: Vec<Name>,
    pub(crate) call: NameCall,
}

/// A call on a mounted volume.
#[derive(Debug, Drop)]
pub(crate) enum Call {
    Free,
    OnFile(CallOnFile),
    OnName(CallOnName),
}

impl Call {
    /// The call of a field: its name, then its path, and then its other words.
    pub(crate) fn parse(alloc: Global, field: &str) -> Result<Call, RowError> {
        let mut words = Words::of(field);
        let name = words.word()?;
        if name == "free" {
            words.end()?;
            return Ok(Call::Free);
        }
        let path = words.path(alloc)?;
        let call = match FileCall::parse(name, &mut words)? {
            Some(call) => Call::OnFile(CallOnFile { path, call }),
            None => Call::OnName(CallOnName {
                path,
                call: NameCall::parse(name, &mut words)?,
            }),
        };
        words.end()?;
        Ok(call)
    }
}
