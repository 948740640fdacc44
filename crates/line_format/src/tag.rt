ghost use Rattle.std.specs.Prelude.{◌≡◌, true};
ghost use Rattle.line_format.specs.Columns.{InvertsWriting};
ghost use Rattle.line_format.specs.Tag.{tag_bytes};

use terms::Refusal;

/// The four capitals that a line begins with; they tell which record it is. From bytes by `TryFrom`, to bytes by `From`.
#[derive(Clone, Copy, PartialEq, Eq, Debug)]
pub enum Tag {
    /// A book opens.
    Open,
    /// The factors of a point.
    Fact,
    /// A point gets its retailer.
    Enrl,
    /// A gate day.
    Gate,
    /// The energy of an interval meter.
    Intv,
    /// Degree days.
    Degd,
    /// A reading.
    Read,
}

/// The tag that the bytes are. Refused as `MalformedLine` (1) for any others.
impl TryFrom<&[u8]> for Tag {
    type Error = Refusal;

    ghost try_from_gives = { λ bytes r. InvertsWriting (λ _. true) tag_bytes bytes.now r };

    fn try_from(bytes: &[u8]) -> Result<Tag, Refusal> {
        match bytes {
            b"OPEN" => Ok(Tag::Open),
            b"FACT" => Ok(Tag::Fact),
            b"ENRL" => Ok(Tag::Enrl),
            b"GATE" => Ok(Tag::Gate),
            b"INTV" => Ok(Tag::Intv),
            b"DEGD" => Ok(Tag::Degd),
            b"READ" => Ok(Tag::Read),
            _ => Err(Refusal::MalformedLine),
        }
    }
}

/// The bytes of a tag.
impl From<Tag> for [u8; 4] {
    ghost from_gives = { λ t bytes. bytes ≡ tag_bytes t };

    fn from(tag: Tag) -> [u8; 4] {
        match tag {
            Tag::Open => *b"OPEN",
            Tag::Fact => *b"FACT",
            Tag::Enrl => *b"ENRL",
            Tag::Gate => *b"GATE",
            Tag::Intv => *b"INTV",
            Tag::Degd => *b"DEGD",
            Tag::Read => *b"READ",
        }
    }
}
