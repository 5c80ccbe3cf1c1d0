//! How an image is cut into its sections.
ghost use Rattle.std.specs.Prelude.{◌≡◌, ◌<◌, ◌^◌, length};
ghost use Rattle.std.specs.Option.{option_map};
ghost use Rattle.m3_image_sections.specs.Sections.{ninth_at};

use crate::lists::text_at;
use crate::refusal::ImageRefusal;
use m3_tables::word;

/// The bytes M3IM, as a number.
const MAGIC: u32 = 0x4d49_334d;

/// The bytes of each section; the ninth is there in version 2 alone.
#[derive(Clone, Copy)]
pub struct Sections<'a> {
    pub version: u32,
    pub code: &'a [u8],
    pub procs: &'a [u8],
    pub types: &'a [u8],
    pub globals: &'a [u8],
    pub constants: &'a [u8],
    pub places: &'a [u8],
    pub exceptions: &'a [u8],
    pub tables: &'a [u8],
    pub variables: Option<&'a [u8]>,
    ghost small: { length code.now < 2 ^ 32 },
    ghost small_types: { length types.now < 2 ^ 32 },
}

/// The ninth section of a version, and the bytes after it.
#[tactic(auto, unfolding(crate::specs::Sections::ninth_at))]
fn ninth_at(version: u32, bytes: &[u8]) -> Option<(Option<&[u8]>, &[u8])>
    ensures { option_map (λ x. (option_map (λ s. s.now) x.0, x.1.now)) result ≡ ninth_at version bytes.now }
{
    if version != 2 {
        return Some((None, bytes));
    }
    let (section, rest) = text_at(bytes)?;
    Some((Some(section), rest))
}

impl<'a> Sections<'a> {
    ghost use Rattle.m3_image_sections.specs.Sections.{sections_at, sections_of};
    ghost use Rattle.m3_image_sections.specs.Reading.{seen};
    ghost use Rattle.m3_image_sections.specs.SectionViews.{sections_view};

    /// The sections of a version, and the bytes after them.
    #[tactic(auto, unfolding(crate::specs::Sections::sections_at))]
    fn at(version: u32, bytes: &'a [u8]) -> Option<(Sections<'a>, &'a [u8])>
        ensures { option_map (λ x. (sections_view x.0, x.1.now)) result ≡ sections_at version bytes.now }
    {
        let (code, rest) = text_at(bytes)?;
        let (procs, rest) = text_at(rest)?;
        let (types, rest) = text_at(rest)?;
        let (globals, rest) = text_at(rest)?;
        let (constants, rest) = text_at(rest)?;
        let (places, rest) = text_at(rest)?;
        let (exceptions, rest) = text_at(rest)?;
        let (tables, rest) = text_at(rest)?;
        let (variables, rest) = ninth_at(version, rest)?;
        let sections = Sections {
            version,
            code,
            procs,
            types,
            globals,
            constants,
            places,
            exceptions,
            tables,
            variables,
        };
        Some((sections, rest))
    }

    /// The sections of an image, where none of its bytes is missing and none is left.
    #[tactic(auto, unfolding(crate::specs::Sections::sections_of))]
    pub fn of(bytes: &'a [u8]) -> Result<Sections<'a>, ImageRefusal>
        ensures { seen sections_view result ≡ sections_of bytes.now }
    {
        if bytes.len() < 4 {
            return Err(ImageRefusal::Short);
        }
        if word(bytes) != MAGIC {
            return Err(ImageRefusal::Magic);
        }
        if bytes.len() < 8 {
            return Err(ImageRefusal::Short);
        }
        let version = word(&bytes[4..]);
        if version != 1 && version != 2 {
            return Err(ImageRefusal::Version);
        }
        match Sections::at(version, &bytes[8..]) {
            None => Err(ImageRefusal::Short),
            Some((sections, rest)) => {
                if rest.is_empty() {
                    Ok(sections)
                } else {
                    Err(ImageRefusal::Rest)
                }
            }
        }
    }
}
